// A run: samples over which the envelope stays in one band.
ghost use Rattle.sample.specs.Inner.Runs.{Runnable, Ran};

use crate::Counting;
use crate::band::Band;
use crate::step::Moving;

// The index at which a run ended, and what the sample there left; where the samples ended, what all of
// them left.
#[derive(Clone, Copy)]
pub struct Run {
    pub last: Moving,
    pub end: usize,
}

// From what the sample at index `at` left, with the envelope in the band, over the samples after it,
// while the envelope stays in the band.
pub fn run_on(first: Moving, by: Counting, band: Band<'_>, xs: &[i16], at: usize) -> Run
    requires { Runnable by first band.low band.high xs.now at }
    ensures { Ran by band.entry.low band.entry.high first xs.now at result.last result.end }
{
    let mut last = first;
    for end in at + 1..xs.len() {
        last = last.step(by, xs[end]);
        if !band.contains(last.q) {
            return Run { last, end };
        }
    }
    Run {
        last,
        end: xs.len(),
    }
}
