// Making a block in a lent buffer.
ghost use Rattle.std.specs.Prelude.{◌++◌, ◌≡◌, ◌≤◌, length};
ghost use Rattle.std.proofs.lemmas.List.Edits.{sets};
ghost use Rattle.coding.specs.Numbers.{bytes_of};
ghost use Rattle.block.specs.Block.{check_sum, weighted_sum};
ghost use Rattle.block.specs.Written.{block_of, unwritable, written_by, write_call};

use crate::checks::CheckWords;
use crate::fields;
use level::MOST_SAMPLES;
use refusal::Refusal;

// Fills a buffer with a block: the rate code, the number of samples before it, and the samples; or
// a refusal, with the buffer as it was.
#[tactic(auto, using(crate::proofs::Made::told))]
pub fn write(code: u32, before: u64, samples: &[i16], buffer: &mut [u8]) -> Result<(), Refusal>
    ensures { written_by result buffer.new ≡ write_call code before samples.now buffer.old }
{
    if !rate::is_named(code) {
        return Err(Refusal::UnnamedRate);
    }
    let block = buffer.as_mut_array::<512>().ok_or(Refusal::BlockLength)?;
    if is_unwritable(before, samples.len()) {
        return Err(Refusal::UnwritableSamples);
    }
    fill(code, before, samples, block);
    Ok(())
}

// Whether so many samples behind so many others make no block. The end is not added up, since the
// sum could pass 2^64.
#[tactic(auto, using(crate::proofs::Conditions::writing))]
fn is_unwritable(before: u64, count: usize) -> bool
    ensures { result ≡ unwritable before count }
{
    // as: usize has no From to u64
    !fields::may_hold(count) || MOST_SAMPLES - (count as u64) < before
}

// Writes a block, from its first byte to its last.
fn fill(code: u32, before: u64, samples: &[i16], block: &mut [u8; 512])
    requires { length samples.now ≤ 248 }
    ensures { block.new ≡ block_of code before samples.now }
{
    head(code, before, samples.len(), block);
    coding::put_samples(block, 12, samples);
    coding::put_zeros(block, 12 + 2 * samples.len(), 508);
    seal(block);
}

// The fields before the samples, as far as there is room.
fn head(code: u32, before: u64, count: usize, buffer: &mut [u8])
    ensures { buffer.new ≡ sets buffer.old 0 (bytes_of 1 1 ++ bytes_of 1 code ++ bytes_of 2 count ++ bytes_of 8 before) }
{
    coding::put_number(buffer, 0, 1, 1);
    coding::put_number(buffer, 1, 1, code.into());
    coding::put_number(buffer, 2, 2, count as u64);
    coding::put_number(buffer, 4, 8, before);
}

// The check words, behind the bytes that they are of.
fn seal(block: &mut [u8; 512])
    ensures { block.new ≡ sets block.old 508 (bytes_of 2 (check_sum block.old) ++ bytes_of 2 (weighted_sum block.old)) }
{
    let words = CheckWords::of(block);
    coding::put_number(block, 508, 2, words.sum.into());
    coding::put_number(block, 510, 2, words.weighted.into());
}
