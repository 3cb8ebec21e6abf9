// The two calls of a host in C, which checks blocks and makes them: `block`'s functions, exported
// from a static library. include/hoggetwhirl.h describes them.
#![tactic(auto)]

ghost use Rattle.std.specs.Prelude.{◌≡◌};
ghost use Rattle.block.specs.Refusals.{host_check};
ghost use Rattle.block.specs.Written.{told_with, write_call};

// The check for the line host.
#[unsafe(no_mangle)]
pub extern "C" fn hoggetwhirl_check_block(block: &[u8], code: u32) -> u32
    ensures { result ≡ host_check block.now code }
{
    block::hoggetwhirl_check_block(block, code)
}

// Making a block.
#[unsafe(no_mangle)]
pub extern "C" fn hoggetwhirl_write_block(
    code: u32,
    before: u64,
    samples: &[i16],
    buffer: &mut [u8],
) -> u32
    ensures { told_with result buffer.new ≡ write_call code before samples.now buffer.old }
{
    block::hoggetwhirl_write_block(code, before, samples, buffer)
}
