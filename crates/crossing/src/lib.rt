// The levels of a report (METHOD.md, "The report"): the crossing, and the active level at it.
#![tactic(auto)]

mod measurement;

ghost use Rattle.std.specs.Prelude.{◌≡◌};
ghost use Rattle.level.specs.Types.{two_words};
ghost use Rattle.crossing.specs.Inner.FindLevels.{Measured};
ghost use Rattle.crossing.specs.Searched.{said, searched, refusal_of};

use crate::measurement::Measurement;
use level::{Samples, Squares, Steps};
use refusal::Refusal;
use thresholds::{PLACES, Thresholds};

// The long-term level L, the active level A, the threshold C and the activity factor F, in steps;
// the lower and the upper threshold of the crossing.
#[derive(Clone, Copy, Debug, PartialEq, Eq)]
pub struct Levels {
    pub level: Steps,
    pub active: Steps,
    pub threshold: Steps,
    pub factor: Steps,
    pub lower: u64,
    pub upper: u64,
}

// Why there are no levels: there is no crossing, and the first difference is below 0, or above it.
#[derive(Clone, Copy, Debug, PartialEq, Eq)]
pub enum NoCrossing {
    Below,
    Above,
}

impl From<NoCrossing> for Refusal {
    ghost from_gives = { λ why r. r ≡ refusal_of why };

    fn from(why: NoCrossing) -> Refusal {
        match why {
            NoCrossing::Below => Refusal::NoCrossingBelow,
            NoCrossing::Above => Refusal::NoCrossingAbove,
        }
    }
}

// The levels of n samples with the sum of squares sq and, at a list of thresholds, the activity
// counts a. The arguments are those of its border, specs/Inner/FindLevels.antt.
#[tactic(auto, using(crate::proofs::Sizes::level_read, crate::proofs::Searching::found), unfolding(crate::specs::Crossing::crossing))]
pub fn find_levels(
    n: Samples,
    sq: Squares,
    list: Thresholds,
    a: [Samples; PLACES],
    margin: Steps,
) -> Result<Levels, NoCrossing>
    requires { Measured margin.0 n.0 (two_words sq) list a }
    ensures { said result ≡ searched margin.0 n.0 (two_words sq) list a }
{
    let measurement = Measurement {
        power: Steps::or_zero(sq.level()),
        margin,
        thresholds: &list,
        counts: &a,
    };
    let Some(upper) = measurement.crossing() else {
        return Err(measurement.no_crossing());
    };
    let level = measurement.level_over(n);
    let active = measurement.active_at(upper);
    Ok(Levels {
        level,
        active: active.level,
        threshold: active.level - margin,
        factor: level - active.level,
        lower: active.lower as u64, // as: usize has no From to u64
        upper: upper as u64,
    })
}
