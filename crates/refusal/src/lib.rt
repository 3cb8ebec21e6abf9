// Why a call is refused (METHOD.md, "Why a call is refused"): one list for the whole project.
#![tactic(auto)]

ghost use Rattle.std.specs.Prelude.{◌≡◌};
ghost use Rattle.refusal.specs.Number.{number_of, number_given};

// Each reason under its own name. Its number is the one that the host is given.
#[derive(Clone, Copy, Debug, PartialEq, Eq)]
pub enum Refusal {
    // 1: opening, or making a block, with a code that names no rate
    UnnamedRate,
    // 2: a meter that no measurement could hold
    ImpossibleMeter,
    // 3: a chunk of more than 4096 samples
    LongChunk,
    // 4: a block, or the buffer for one, that is not 512 bytes long
    BlockLength,
    // 5: a check word of the block is wrong
    BlockCheck,
    // 6: the block is of another kind
    BlockKind,
    // 7: the block's rate code is not the one expected
    BlockRate,
    // 8: the block's count of samples is out of range
    BlockCount,
    // 9: an unused byte of the block is not zero
    BlockUnused,
    // 10: the block does not follow the samples measured so far
    BlockPlace,
    // 11: more samples than a measurement may hold
    TooManySamples,
    // 12: nothing was measured
    NoSamples,
    // 13: every sample was the offset
    NoSignal,
    // 14: the envelope never came up to the lowest threshold
    NoActivity,
    // 15: no crossing, and the level at the lowest threshold is less than the margin above it
    NoCrossingBelow,
    // 16: no crossing, and the level at the lowest threshold is more than the margin above it
    NoCrossingAbove,
    // 17: opening with a margin that is out of range
    WrongMargin,
    // 18: samples that make no block: none, more than 248, or such as would end above 2^48
    UnwritableSamples,
    // 19: opening with a list of thresholds that is too short or too long, or with something past its end
    ListLength,
    // 20: with one that has an entry not above the one before, or more than twice it
    ListEntry,
    // 21: with one whose first or last entry is out of its range
    ListEnd,
}

// The number that the host is given.
impl From<Refusal> for u32 {
    ghost from_gives = { λ why r. r ≡ number_of why };

    fn from(why: Refusal) -> u32 {
        match why {
            Refusal::UnnamedRate => 1,
            Refusal::ImpossibleMeter => 2,
            Refusal::LongChunk => 3,
            Refusal::BlockLength => 4,
            Refusal::BlockCheck => 5,
            Refusal::BlockKind => 6,
            Refusal::BlockRate => 7,
            Refusal::BlockCount => 8,
            Refusal::BlockUnused => 9,
            Refusal::BlockPlace => 10,
            Refusal::TooManySamples => 11,
            Refusal::NoSamples => 12,
            Refusal::NoSignal => 13,
            Refusal::NoActivity => 14,
            Refusal::NoCrossingBelow => 15,
            Refusal::NoCrossingAbove => 16,
            Refusal::WrongMargin => 17,
            Refusal::UnwritableSamples => 18,
            Refusal::ListLength => 19,
            Refusal::ListEntry => 20,
            Refusal::ListEnd => 21,
        }
    }
}

// The number of an answer to a call: 0 where the call is accepted.
pub fn given(answer: Result<(), Refusal>) -> u32
    ensures { result ≡ number_given answer }
{
    match answer {
        Ok(()) => 0,
        Err(why) => why.into(),
    }
}
