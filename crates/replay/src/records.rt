// Records as bytes: their kinds, how long they are, and how much of one is kept.
ghost use Rattle.std.specs.Prelude.{◌≤◌};

use crate::faults::Fault;
use coding::Number;
use thresholds::PLACES;

#[derive(Clone, Copy, Debug, PartialEq, Eq)]
pub enum Kind {
    Open,
    Chunk,
    Block,
    Report,
    Load,
    Show,
    Lev,
    Check,
    Write,
}

impl TryFrom<u8> for Kind {
    type Error = Fault;

    fn try_from(number: u8) -> Result<Kind, Fault> {
        match number {
            1 => Ok(Kind::Open),
            2 => Ok(Kind::Chunk),
            3 => Ok(Kind::Block),
            4 => Ok(Kind::Report),
            5 => Ok(Kind::Load),
            6 => Ok(Kind::Show),
            7 => Ok(Kind::Lev),
            8 => Ok(Kind::Check),
            9 => Ok(Kind::Write),
            _ => Err(Fault::Unknown(number)),
        }
    }
}

impl Kind {
    // How many bytes of a record say how long it is.
    pub fn head(self) -> usize
        ensures { result ≤ 644 }
    {
        match self {
            Kind::Open => 14,
            Kind::Chunk | Kind::Block => 3,
            Kind::Report | Kind::Show => 1,
            Kind::Load => 644,
            Kind::Lev => 17,
            Kind::Check => 4,
            Kind::Write => 12,
        }
    }
}

// The length that stands for the built-in list.
pub const BUILT_IN: u16 = 65535;

// One threshold more than a list may have.
pub const TOO_MANY_THRESHOLDS: usize = PLACES + 1;

// One sample more than a chunk may have.
pub const TOO_MANY_SAMPLES: usize = 4097;

// One sample more than a block may have.
pub const TOO_MANY_IN_BLOCK: usize = 249;

// One byte more than a block has.
pub const TOO_MANY_BYTES: usize = 513;

// The record ahead: its kind, how many of its bytes are kept to play it, and how many come after
// those. Of one that writes a block this is all but its last field.
#[derive(Clone, Copy)]
pub struct Record {
    pub kind: Kind,
    pub kept: usize,
    pub rest: usize,
}

impl Record {
    // The record of a kind, by its head, behind which items of one width may come.
    //
    // Of a list longer than opening can take the first 25 thresholds are kept, and opening refuses 25
    // and more alike. Of a chunk longer than a call can take these are the first 4097 samples, and of
    // such a block the first 513 bytes: a meter that refusal 2 lets through refuses every longer chunk
    // with 3 and every longer block with 4, and the host's check gives 1 by the code alone or else 4.
    // Of the samples to make a block of these are the first 249, which are refused as any more are. So
    // the answer depends on the meter and on these bytes alone, and in making a block on the last
    // field, which comes behind all samples.
    pub fn of(kind: Kind, head: &[u8]) -> Record {
        // How many items there are, how wide each is, and how many are kept at most.
        let (count, width, most): (u16, u8, usize) = match kind {
            Kind::Open => (listed(u16::read(head, 12)), 8, TOO_MANY_THRESHOLDS),
            Kind::Chunk => (u16::read(head, 1), 2, TOO_MANY_SAMPLES),
            Kind::Block => (u16::read(head, 1), 1, TOO_MANY_BYTES),
            Kind::Check => (u16::read(head, 2), 1, TOO_MANY_BYTES),
            Kind::Write => (u16::read(head, 10), 2, TOO_MANY_IN_BLOCK),
            Kind::Report | Kind::Load | Kind::Show | Kind::Lev => (0, 0, 0),
        };
        let items = usize::from(count);
        let kept = items.min(most);
        Record {
            kind,
            kept: kind.head() + usize::from(width) * kept,
            rest: usize::from(width) * (items - kept),
        }
    }
}

// How many thresholds follow a length.
fn listed(count: u16) -> u16 {
    if count == BUILT_IN { 0 } else { count }
}
