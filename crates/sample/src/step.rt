// What moves at each new sample, begun from the sums before them all and ended in those after.
ghost use Rattle.std.specs.Prelude.{◌≡◌, ◌^◌, ◌<◌, ◌+ℤ◌};
ghost use Rattle.sample.specs.Envelope.{smooth, size};
ghost use Rattle.sample.specs.Inner.Steps.{begun, moved, ended, Steppable, Endable, Smoothable, Addable};

use crate::{Counting, Sums};
use level::{Quantity, Samples};

// K is in parts of this.
const SMOOTHING: u64 = 1 << 20;

// One quantizing interval, in units of P and Q.
const INTERVAL: u64 = 1 << 24;

// What moves at each new sample: s, P and Q, and sq of the new samples alone, in one word.
#[derive(Clone, Copy)]
pub struct Moving {
    pub s: i64,
    pub sq: u64,
    pub p: u64,
    pub q: u64,
}

impl Moving {
    // After a sample.
    #[tactic(auto, using(crate::proofs::Envelope::smooth_le), unfolding(crate::specs::Inner::Steps::moved, crate::specs::Envelope::rectified))]
    pub fn step(self, by: Counting, x: i16) -> Moving
        requires { Steppable by.k self }
        ensures { result ≡ moved by self x }
    {
        let size = rectified(by.offset, x);
        let p = smoothed(by.k, self.p, size * INTERVAL);
        let q = smoothed(by.k, self.q, p);
        // s comes last: in another order the compiler keeps a sum of the inner loop in memory.
        Moving {
            sq: self.sq + size * size,
            p,
            q,
            s: added(self.s, x),
        }
    }
}

impl Sums {
    // Before the first new sample.
    pub(crate) fn begin(self) -> Moving
        ensures { result ≡ begun self }
    {
        Moving {
            s: self.s,
            sq: 0,
            p: self.p,
            q: self.q,
        }
    }

    // After so many new samples, which left `last`.
    #[tactic(auto, using(level::proofs::Words::grown_is))]
    pub(crate) fn end(self, last: Moving, new: usize) -> Sums
        requires { Endable self new }
        ensures { result ≡ ended self last new }
    {
        Sums {
            n: Samples::from(self.n.number() + new as u64), // as: usize has no From to u64
            s: last.s,
            sq: self.sq.grown(last.sq),
            p: last.p,
            q: last.q,
        }
    }
}

// |x − o|, which reaches 65535.
#[tactic(auto, unfolding(crate::specs::Envelope::size))]
fn rectified(offset: i16, x: i16) -> u64
    ensures size { result ≡ size offset x }
    ensures small { result < 2 ^ 16 }
{
    i64::from(x).abs_diff(i64::from(offset))
}

// One step of smoothing, rounded down.
#[tactic(auto, unfolding(crate::specs::Envelope::smooth))]
fn smoothed(k: u64, old: u64, new: u64) -> u64
    requires { Smoothable k old new }
    ensures { result ≡ smooth k old new }
{
    (old * (SMOOTHING - k) + new * k) / SMOOTHING
}

// s + x.
fn added(s: i64, x: i16) -> i64
    requires { Addable s }
    ensures { result ≡ s +ℤ x }
{
    s + i64::from(x)
}
