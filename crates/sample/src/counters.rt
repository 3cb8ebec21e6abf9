// The counters, one for each threshold. Each stands as it was at an index of its own, from which on the
// envelope has been on one side of its threshold; settling brings it up to date.
ghost use Rattle.std.specs.Prelude.{◌||◌, ◌≡◌, ℕ, ◌+◌, ◌^◌, ◌≤◌, ◌<◌, ltb, get_or};
ghost use Rattle.thresholds.specs.Lists.{places};
ghost use Rattle.sample.specs.Inner.Over.{count_over, hangover_over, between};

use crate::band::Band;
use level::{Quantity, Samples};
use thresholds::PLACES;

// The counts, the hangovers, which are at most I, and the indices. They are three arrays and not one of
// structs, since the first two are the state's, which are handed over as they are.
#[derive(Drop)]
pub struct Counters {
    pub a: [Samples; PLACES],
    pub h: [u64; PLACES],
    pub since: [u64; PLACES],
    pub i: u64,
    ghost h_max: { (j : ℕ) → get_or h j 0 ≤ i },
}

impl Counters {
    ghost use Rattle.sample.specs.Inner.Counters.{Standing, Settled};

    // The envelope, which was in one band, is now in another: settles the counters of the thresholds in
    // between. Where it rose it was below them until now, else at or above them.
    pub fn cross(&mut self, was: Band<'_>, is: Band<'_>, at: u64)
        requires { Standing at self.old }
        ensures { Settled at (λ j. between was.entry.below is.entry.below j || between is.entry.below was.entry.below j) (λ j. ltb j was.entry.below) self.old self.new }
    {
        if was.below < is.below {
            self.settle(was.below, is.below, false, at);
        } else {
            self.settle(is.below, was.below, true, at);
        }
    }

    // Settles all of them, with the envelope in a band.
    pub fn finish(&mut self, band: Band<'_>, at: u64)
        requires { Standing at self.old }
        ensures { Settled at (λ j. between 0 band.entry.below j || between band.entry.below band.entry.list.now.count j) (λ j. ltb j band.entry.below) self.old self.new }
    {
        self.settle(0, band.below, true, at);
        self.settle(band.below, band.list.count, false, at);
    }

    // Settles the counters from one place up to another, where the envelope was at or above their
    // thresholds, or below them: `on` is a side, as the definitions have it.
    fn settle(&mut self, from: usize, to: usize, on: bool, at: u64)
        requires standing { Standing at self.old }
        requires places { (from ≤ to) × (to ≤ places) }
        ensures { Settled at (λ j. between from to j) (λ _. on) self.old self.new }
    {
        for j in from..to {
            let run = at - self.since[j];
            let (count, hangover) = after_run(self.a[j].number(), self.h[j], on, run, self.i);
            self.a[j] = Samples::from(count);
            self.h[j] = hangover;
            self.since[j] = at;
        }
    }
}

// A count and its hangover after a run, which may be empty: every sample of it counts while the envelope
// is on, else those that the hangover has left.
#[tactic(auto, using(crate::proofs::Over::on_count, crate::proofs::Over::off_count, crate::proofs::Over::on_hangover, crate::proofs::Over::off_hangover, crate::proofs::Over::no_hangover))]
fn after_run(a: u64, h: u64, on: bool, run: u64, i: u64) -> (u64, u64)
    requires { (a + run < 2 ^ 63) × (h ≤ i) }
    ensures count { result.0 ≡ count_over i on run a h }
    ensures hangover { result.1 ≡ hangover_over i on run h }
{
    if !on {
        let left = run.min(i - h);
        (a + left, h + left)
    } else if run == 0 {
        (a, h)
    } else {
        (a + run, 0)
    }
}
