// Chunk calls and block calls.
ghost use Rattle.std.specs.Prelude.{true, false, ◌≡◌, ◌+◌, ◌<◌, ◌≤◌, length, IfOk, IfErr, OnOk};
ghost use Rattle.block.specs.Block.{count};
ghost use Rattle.level.specs.Types.{most_samples};
ghost use Rattle.meter.specs.Refusals.{impossible, chunk_rules, block_call_rules};
ghost use Rattle.rate.specs.Rates.{is_named};
ghost use Rattle.refusal.specs.First.{first_of};
ghost use Rattle.refusal.specs.Number.{number_of};
ghost use Rattle.block.specs.Refusals.{block_rules};
ghost use Rattle.meter.specs.Calls.{handed_by, chunk_call, block_call, after_samples};
ghost use Rattle.meter.specs.Inner.{Ready, SoundAt};

use crate::{Fed, Meter};
use level::{MOST_SAMPLES, Quantity};
use rate::Rate;
use refusal::Refusal;
use sample::Counting;

// The most samples that a chunk may have.
const LONGEST_CHUNK: usize = 4096;

impl Meter {
    // The meter after a chunk's samples in order; or a refusal, with the meter as it was.
    #[tactic(auto, using(refusal::proofs::Laws::positive), unfolding(crate::specs::Calls::handed_by, crate::specs::Calls::chunk_call))]
    pub fn chunk(self, xs: &[i16]) -> Fed
        ensures { handed_by result ≡ chunk_call self xs.now }
    {
        match self.check_chunk(xs) {
            Ok(rate) => Fed {
                answer: Ok(()),
                meter: self.after(rate, xs),
            },
            Err(why) => Fed {
                answer: Err(why),
                meter: self,
            },
        }
    }

    // The meter after a block's samples in order; or a refusal, with the meter as it was.
    #[tactic(auto, using(refusal::proofs::Laws::positive, crate::proofs::Blocks::few, crate::proofs::Blocks::read), unfolding(crate::specs::Calls::handed_by, crate::specs::Calls::block_call))]
    pub fn block(self, bytes: &[u8]) -> Fed
        ensures { handed_by result ≡ block_call self bytes.now }
    {
        match self.check_block(bytes) {
            Ok((rate, part)) => {
                let mut samples = [0; 248];
                coding::decode(part, &mut samples);
                Fed {
                    answer: Ok(()),
                    meter: self.after(rate, &samples[..part.len() / 2]),
                }
            }
            Err(why) => Fed {
                answer: Err(why),
                meter: self,
            },
        }
    }

    // The rate of a meter that takes a chunk; or the first refusal that applies.
    #[tactic(auto, unfolding(crate::specs::Refusals::chunk_rules, crate::specs::Refusals::long_chunk, crate::specs::Refusals::too_many, refusal::specs::First::first_of))]
    fn check_chunk(&self, xs: &[i16]) -> Result<Rate, Refusal>
        ensures ready { IfOk result (λ rate. Ready self.now rate (length xs.now)) }
        ensures accepted { OnOk result (0 ≡ first_of (chunk_rules self.now xs.now)) }
        ensures refused { IfErr result (λ why. number_of why ≡ first_of (chunk_rules self.now xs.now)) }
    {
        let rate = self.usable_rate()?;
        if xs.len() > LONGEST_CHUNK {
            return Err(Refusal::LongChunk);
        }
        self.check_room(xs.len())?;
        Ok(rate)
    }

    // The same of a block, with the bytes of its samples.
    #[tactic(auto, using(crate::proofs::Possible::named_code, crate::proofs::Blocks::by_meter, crate::proofs::Blocks::by_rule, crate::proofs::Blocks::past_rules, crate::proofs::Blocks::few, crate::proofs::Blocks::half), unfolding(crate::specs::Refusals::wrong_place, crate::specs::Refusals::too_many, refusal::specs::First::first_of))]
    fn check_block<'a>(&self, bytes: &'a [u8]) -> Result<(Rate, &'a [u8]), Refusal>
        ensures ready { IfOk result (λ r. Ready self.now r.0 (count bytes.now)) }
        ensures sound { IfOk result (λ r. SoundAt bytes.now self.now.setting.code r.1.now) }
        ensures accepted { OnOk result (0 ≡ first_of (block_call_rules self.now bytes.now)) }
        ensures refused { IfErr result (λ why. number_of why ≡ first_of (block_call_rules self.now bytes.now)) }
    {
        let rate = self.usable_rate()?;
        let part = sound_part(bytes, self.setting.code)?;
        if block::before(bytes) != self.state.sums.n.number() {
            return Err(Refusal::BlockPlace);
        }
        self.check_room(part.len() / 2)?;
        Ok((rate, part))
    }

    // Refusal 11.
    #[tactic(auto, using(crate::proofs::Possible::few_samples))]
    fn check_room(&self, new: usize) -> Result<(), Refusal>
        requires possible { impossible self.now ≡ false }
        requires few { new ≤ 4096 }
        ensures room { OnOk result (self.now.state.sums.n.0 + new ≤ most_samples) }
        ensures refused { IfErr result (λ why. (why ≡ Refusal.TooManySamples) × (most_samples < self.now.state.sums.n.0 + new)) }
    {
        // as: usize has no From to u64
        if self.state.sums.n.number() + new as u64 > MOST_SAMPLES {
            return Err(Refusal::TooManySamples);
        }
        Ok(())
    }

    // The meter after samples that nothing keeps out. What may be refused is so before the meter moves.
    fn after(self, rate: Rate, xs: &[i16]) -> Meter
        requires { Ready self rate (length xs.now) }
        ensures { result ≡ after_samples self xs.now }
    {
        let by = Counting {
            k: rate.k,
            i: rate.i,
            offset: self.setting.offset,
        };
        Meter {
            state: self.state.after(by, self.setting.thresholds, xs),
            ..self
        }
    }
}

// The bytes of a block's samples, of a named rate; or the first of refusals 4 to 9. Only a sound block
// has such bytes, so of the rules only that of the rate is left, and no check word is made again.
#[tactic(auto, using(block::proofs::Laws::part_sound, block::proofs::Laws::accepted_sound, block::proofs::Laws::sound_refused))]
fn sound_part(bytes: &[u8], code: u32) -> Result<&[u8], Refusal>
    requires { is_named code ≡ true }
    ensures sound { IfOk result (λ part. SoundAt bytes.now code part.now) }
    ensures refused { IfErr result (λ why. number_of why ≡ first_of (block_rules bytes.now code)) }
{
    let part = block::samples_part(bytes);
    if part.is_empty() {
        block::check(bytes, code)?;
    }
    if block::rate_code(bytes) != code {
        return Err(Refusal::BlockRate);
    }
    Ok(part)
}
