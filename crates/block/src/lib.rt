// Sample blocks (METHOD.md, "Sample blocks"): why one is refused, the part that carries its
// samples, a block made from samples, and the two calls of a host in C, which checks blocks and
// makes them.
#![tactic(auto)]

mod checks;
mod fields;
mod writing;

ghost use Rattle.std.specs.Prelude.{◌≡◌};
ghost use Rattle.refusal.specs.First.{first_of};
ghost use Rattle.refusal.specs.Number.{number_given};
ghost use Rattle.block.specs.Block.{rate_code, before as beforeIn};
ghost use Rattle.block.specs.Refusals.{block_rules, sound, samples_part, host_check};
ghost use Rattle.block.specs.Written.{told_with, write_call};

use coding::Number;
use refusal::Refusal;
pub use writing::write;

// The rate code of a block.
#[tactic(auto, using(crate::proofs::Numbers::rate_code_is))]
pub fn rate_code(bytes: &[u8]) -> u32
    ensures { result ≡ rate_code bytes.now }
{
    u8::read(bytes, 1).into()
}

// The number of samples before a block.
#[tactic(auto, using(crate::proofs::Numbers::before_is))]
pub fn before(bytes: &[u8]) -> u64
    ensures { result ≡ beforeIn bytes.now }
{
    u64::read(bytes, 4)
}

// The bytes of a sound block's samples; of any other block, none.
#[tactic(auto, using(crate::proofs::Laws::parted))]
pub fn samples_part(block: &[u8]) -> &[u8]
    ensures { result.now ≡ samples_part block.now }
{
    if !is_sound(block) {
        return &block[..0];
    }
    let end = 12 + 2 * usize::from(u16::read(block, 2));
    &block[12..end]
}

// Whether a block is sound: its own rate code is a named one, and nothing but 7 could refuse it.
#[tactic(auto, using(crate::proofs::Laws::answered))]
fn is_sound(block: &[u8]) -> bool
    ensures { result ≡ sound block.now }
{
    let code = rate_code(block);
    rate::is_named(code) && check(block, code).is_ok()
}

// The first of refusals 4 to 9 that applies to a block, 7 read against the given code.
#[tactic(auto, using(crate::proofs::Conditions::told_4))]
pub fn check(block: &[u8], code: u32) -> Result<(), Refusal>
    ensures { number_given result ≡ first_of (block_rules block.now code) }
{
    let block = block.as_array().ok_or(Refusal::BlockLength)?;
    check_whole(block, code)
}

// The first of refusals 5 to 9 that applies to a block of the right length.
#[tactic(auto, using(crate::proofs::Conditions::told))]
fn check_whole(block: &[u8; 512], code: u32) -> Result<(), Refusal>
    ensures { number_given result ≡ first_of (block_rules block.now code) }
{
    if !checks::are_right(block) {
        return Err(Refusal::BlockCheck);
    }
    if block[0] != 1 {
        return Err(Refusal::BlockKind);
    }
    if rate_code(block) != code {
        return Err(Refusal::BlockRate);
    }
    let count = usize::from(fields::word(block, 1));
    if !fields::may_hold(count) {
        return Err(Refusal::BlockCount);
    }
    if !fields::are_zero(&block[12 + 2 * count..508]) {
        return Err(Refusal::BlockUnused);
    }
    Ok(())
}

// The check for the line host, which is written in C. include/hoggetwhirl.h describes this call and
// the next, and `block_c` exports both.
#[tactic(auto, using(crate::proofs::Laws::hosted))]
pub fn hoggetwhirl_check_block(block: &[u8], code: u32) -> u32
    ensures { result ≡ host_check block.now code }
{
    if !rate::is_named(code) {
        return Refusal::UnnamedRate.into();
    }
    refusal::given(check(block, code))
}

// Making a block, for a host in C.
pub fn hoggetwhirl_write_block(code: u32, before: u64, samples: &[i16], buffer: &mut [u8]) -> u32
    ensures { told_with result buffer.new ≡ write_call code before samples.now buffer.old }
{
    let answer = write(code, before, samples, buffer);
    refusal::given(answer)
}
