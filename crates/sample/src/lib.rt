// One sample (METHOD.md, "One sample"): what samples change of a meter.
//
// The definition counts at every sample. The code counts by runs: while the envelope stays between
// two neighbouring thresholds no test changes its answer, so only the sums are stepped. Where it
// crosses a threshold, the counters of that threshold are brought up to date in closed form; those
// of the others go on standing as they were, and all are brought up to date at the end. So are n and
// sq: n only counts, and the squares of new samples fit one word.
#![tactic(auto)]

mod band;
mod counters;
mod runs;
mod step;

ghost use Rattle.std.specs.Prelude.{◌≡◌, length};
ghost use Rattle.sample.specs.Sample.{state_after};
ghost use Rattle.sample.specs.StateAfter.{Within};

use band::Band;
use counters::Counters;
use level::{Samples, Squares};
use runs::run_on;
use thresholds::{PLACES, Thresholds};

// What counting goes by: the rate's K and I, and the offset. That K is at most 2^20 is a clause and no
// invariant: the definition `counting_of` makes one of any setting.
#[derive(Clone, Copy)]
pub struct Counting {
    pub k: u64,
    pub i: u64,
    pub offset: i16,
}

// n, s, sq, P and Q.
#[derive(Clone, Copy)]
pub struct Sums {
    pub n: Samples,
    pub s: i64,
    pub sq: Squares,
    pub p: u64,
    pub q: u64,
}

// The sums and, for each threshold, the activity count a and the hangover h: two lists, as the definitions
// have them.
#[derive(Clone, Copy)]
pub struct State {
    pub sums: Sums,
    pub a: [Samples; PLACES],
    pub h: [u64; PLACES],
}

impl State {
    // The state after samples in order.
    pub fn after(self, by: Counting, list: Thresholds, xs: &[i16]) -> State
        requires { Within by list (length xs.now) self }
        ensures { result ≡ state_after by list self xs.now }
    {
        let Some(&first) = xs.first() else {
            return self;
        };
        let State { sums, a, h } = self;
        let mut moving = sums.begin().step(by, first);
        let mut band = Band::lowest(&list).around(moving.q);
        let since = [0; PLACES];
        let mut counters = Counters {
            a,
            h,
            since,
            i: by.i,
        };
        let mut at = 0;
        // Where a run ends is known only once it is taken, so no `for` goes over the runs.
        while at < xs.len() {
            let run = run_on(moving, by, band, xs, at);
            at = run.end;
            moving = run.last;
            let next = band.around(moving.q);
            counters.cross(band, next, at as u64); // as: usize has no From to u64
            band = next;
        }
        counters.finish(band, at as u64);
        let Counters { a, h, .. } = counters;
        State {
            sums: sums.end(moving, xs.len()),
            a,
            h,
        }
    }
}
