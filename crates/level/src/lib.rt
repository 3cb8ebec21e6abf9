// The level logarithm (METHOD.md, "The level logarithm"), and the types that keep counts of
// samples, hundredths of a percent, thresholds in units and levels in steps apart: only the logarithm
// leads from the first three to the last.
#![tactic(auto)]

ghost use Rattle.std.specs.Prelude.{◌≡◌, ℕ, ◌<◌, ◌+ℤ◌, ◌-ℤ◌};
ghost use Rattle.std.specs.Int.{w64, saturate_signed};
ghost use Rattle.level.specs.Logarithm.{spell, level_of, value_of, steps_in};
ghost use Rattle.level.specs.Types.{samples_of, hundredths_of, units_of, steps_of, two_words, grown};

use std::ops::{Add, Sub};

// The most samples that a measurement may hold.
pub const MOST_SAMPLES: u64 = 1 << 48;

// A level, or a difference of two, in steps of 1/4096 of a doubling of power.
#[derive(Clone, Copy, Debug, PartialEq, Eq, PartialOrd, Ord)]
pub struct Steps(i64);

// A count of samples.
#[derive(Clone, Copy, Debug, PartialEq, Eq, PartialOrd, Ord)]
pub struct Samples(u64);

// A part of the whole, in hundredths of a percent.
#[derive(Clone, Copy, Debug, PartialEq, Eq, PartialOrd, Ord)]
pub struct Hundredths(u64);

// A threshold, in units of 2^-24 quantizing interval.
#[derive(Clone, Copy, Debug, PartialEq, Eq, PartialOrd, Ord)]
pub struct Units(u64);

// A sum of squares, in two words, as `two_words` and a report have it. The high one comes first, so the
// order is that of the sums.
#[derive(Clone, Copy, Debug, PartialEq, Eq, PartialOrd, Ord)]
pub struct Squares {
    pub high: u64,
    pub low: u64,
}

impl From<i64> for Steps {
    ghost from_gives = { λ x r. r ≡ steps_of x };

    fn from(steps: i64) -> Steps {
        Steps(steps)
    }
}

impl From<Steps> for i64 {
    ghost from_gives = { λ x r. r ≡ x.0 };

    fn from(steps: Steps) -> i64 {
        steps.0
    }
}

// A sum, or a difference, that does not fit 64 bits is the nearest number that does: `saturate_signed`
// has both cases, and a caller is asked for nothing.
impl Add for Steps {
    type Output = Steps;

    ghost add_gives = { λ x y r. r ≡ steps_of (saturate_signed w64 (x.0 +ℤ y.0)) };

    fn add(self, other: Steps) -> Steps {
        Steps(self.0.saturating_add(other.0))
    }
}

impl Sub for Steps {
    type Output = Steps;

    ghost sub_gives = { λ x y r. r ≡ steps_of (saturate_signed w64 (x.0 -ℤ y.0)) };

    fn sub(self, other: Steps) -> Steps {
        Steps(self.0.saturating_sub(other.0))
    }
}

impl Steps {
    // The steps of a level. Where there is none they are 0, as those of 1 are: a caller takes no level
    // of a number that may have none.
    pub fn or_zero(level: Option<Steps>) -> Steps
        ensures { result.0 ≡ steps_in level }
    {
        level.unwrap_or(Steps(0))
    }
}

// Each of the three has a conversion and a number of its own: they are kept apart, as `samples_of`,
// `hundredths_of` and `units_of` are, and one type with a marker would be no plainer.
impl From<u64> for Samples {
    ghost from_gives = { λ n r. r ≡ samples_of n };

    fn from(n: u64) -> Samples {
        Samples(n)
    }
}

impl From<u64> for Hundredths {
    ghost from_gives = { λ n r. r ≡ hundredths_of n };

    fn from(n: u64) -> Hundredths {
        Hundredths(n)
    }
}

impl From<u64> for Units {
    ghost from_gives = { λ n r. r ≡ units_of n };

    fn from(n: u64) -> Units {
        Units(n)
    }
}

// What has a level by its number.
pub trait Quantity: Sized {
    ghost quantity: { Self → ℕ };

    fn number(self) -> u64
        ensures { result ≡ quantity self };

    // The level of the number.
    final fn level(self) -> Option<Steps>
        ensures { value_of result ≡ level_of (quantity self) }
    {
        lev(self.number().into())
    }
}

impl Quantity for Samples {
    ghost quantity = { λ n. n.0 };

    fn number(self) -> u64 {
        self.0
    }
}

impl Quantity for Hundredths {
    ghost quantity = { λ n. n.0 };

    fn number(self) -> u64 {
        self.0
    }
}

impl Quantity for Units {
    ghost quantity = { λ n. n.0 };

    fn number(self) -> u64 {
        self.0
    }
}

impl Squares {
    pub const ZERO: Squares = Squares { high: 0, low: 0 };

    // With y added. A carry out of the high word is lost.
    #[tactic(auto, using(crate::proofs::Words::carry), unfolding(crate::specs::Types::grown))]
    pub fn grown(self, y: u64) -> Squares
        ensures { result ≡ grown self y }
    {
        let (low, carry) = self.low.overflowing_add(y);
        Squares {
            high: self.high.wrapping_add(carry.into()),
            low,
        }
    }

    // The level of the sum.
    pub fn level(self) -> Option<Steps>
        ensures { value_of result ≡ level_of (two_words self) }
    {
        lev((u128::from(self.high) << 64) + u128::from(self.low))
    }
}

// The largest number that has a level.
const MOST: u128 = 1 << 80;

// The level of a number: the place of its highest one bit, and twelve bits that its top 32 spell.
fn lev(n: u128) -> Option<Steps>
    ensures { value_of result ≡ level_of n }
{
    if n == 0 || n > MOST {
        return None;
    }
    let place = n.ilog2();
    let m = (n << 31) >> place;
    // as: n is below 2 to the place + 1, so m is below 2^32
    Some(Steps(i64::from(4096 * place + twelve_bits(m as u32))))
}

// The number that twelve squarings of m spell, a bit each, the first bit highest.
#[tactic(auto, using(crate::proofs::Squarings::bits_small, crate::proofs::Squarings::bits_done))]
fn twelve_bits(start: u32) -> u32
    ensures value { result ≡ spell 12 start }
    ensures bound { result < 4096 }
{
    let mut m = u64::from(start);
    let mut bits = 0;
    for _ in 0..12u32 {
        let square = m * m;
        let bit = square >> 63;
        bits = 2 * bits + bit as u32; // as: it is 0 or 1
        m = square >> (31 + bit);
    }
    bits
}
