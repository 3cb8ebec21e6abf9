// The meter's calls (METHOD.md, "One sample", "The report" and "Why a call is refused"): what each
// hands back.
#![tactic(auto)]

mod feeding;
mod opening;
mod reporting;
mod usable;

use crossing::Levels;
use level::{Hundredths, Samples, Squares, Steps};
use refusal::Refusal;
use sample::State;
use setting::Setting;
use thresholds::PLACES;

// A meter: its setting, and what samples change.
#[derive(Clone, Copy)]
pub struct Meter {
    pub setting: Setting,
    pub state: State,
}

// A report: n, s, sq, the activity counts, the levels, the activity factor as a percentage, the margin,
// and its mark, true where the margin is below 20955 steps.
#[derive(Clone, Copy)]
pub struct Report {
    pub n: Samples,
    pub s: i64,
    pub sq: Squares,
    pub a: [Samples; PLACES],
    pub levels: Levels,
    pub percent: Hundredths,
    pub margin: Steps,
    pub mark: bool,
}

// What a call hands back: its answer and, beside it, the meter. It is no Result with the meter in it, as
// the calls of specs/Calls.antt (`handed_by`) have the meter beside a refusal too.
#[derive(Clone, Copy)]
pub struct Fed {
    pub answer: Result<(), Refusal>,
    pub meter: Meter,
}

// What a report call hands back: its answer, the meter, and the report, which `reported_by` has beside a
// refusal too, all zeros.
#[derive(Clone, Copy)]
pub struct Reported {
    pub answer: Result<(), Refusal>,
    pub meter: Meter,
    pub report: Report,
}
