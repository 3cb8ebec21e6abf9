// What a measurement's levels are worked out from, the levels at its thresholds, the search for the
// highest crossing, and the active level at it.
ghost use Rattle.std.specs.Prelude.{◌≡◌, ◌≤◌, ◌<◌, cond, pos, true, ◌-ℤ◌, ◌≤ℤ◌, nat_abs};
ghost use Rattle.std.specs.Int.Signed.{lt_z};
ghost use Rattle.level.specs.Logarithm.{lev};
ghost use Rattle.level.specs.Types.{steps_of};
ghost use Rattle.crossing.specs.Levels.{level_of_threshold};
ghost use Rattle.crossing.specs.Inner.FindLevels.{Falling, Leveled};
ghost use Rattle.crossing.specs.Inner.Steps.{InRange, Within, level_between};

use crate::NoCrossing;
use level::{Quantity, Samples, Steps, Units};
use std::cmp::Ordering;
use thresholds::{PLACES, Thresholds};

// Twice the level of one interval in units, 2^24
const INTERVAL_STEPS: i64 = 196608;

// The level of a sum of squares, the margin, the thresholds and the activity counts. The last two are
// lists of their own, as the meter holds them.
#[derive(Clone, Copy)]
pub(crate) struct Measurement<'a> {
    pub power: Steps,
    pub margin: Steps,
    pub thresholds: &'a Thresholds,
    pub counts: &'a [Samples; PLACES],
    ghost power_range: { InRange power.0 },
    ghost margin_range: { InRange margin.0 },
    ghost leveled: { Leveled thresholds.now },
    ghost falling: { Falling thresholds.now.count counts.now },
}

// A_j and d_j, at a threshold that counted anything.
#[derive(Clone, Copy)]
struct Point {
    active: Steps,
    excess: Steps,
    ghost active_size: { Within 21 active.0 },
    ghost excess_size: { Within 22 excess.0 },
}

// The active level at a crossing, and the crossing's lower threshold.
#[derive(Clone, Copy)]
pub(crate) struct Active {
    pub level: Steps,
    pub lower: usize,
    ghost size: { Within 45 level.0 },
}

impl Measurement<'_> {
    ghost use Rattle.crossing.specs.declared.NoCrossing.TheVariants.{Below, Above};
    ghost use Rattle.crossing.specs.Inner.Measurement.{highest_crossing, is_crossing_at, excess_at, IsActiveAt, Counted, IsPointAt};

    // L and A_j: a level less that of a count above 0
    #[tactic(auto, using(crate::proofs::Sizes::level_read))]
    pub(crate) fn level_over(&self, count: Samples) -> Steps
        requires { 1 ≤ count.0 }
        ensures value { result ≡ steps_of (self.now.power.0 -ℤ pos (lev count.0)) }
        ensures size { Within 21 result.0 }
    {
        self.power - Steps::or_zero(count.level())
    }

    // A_j and d_j = A_j − C_j − M, for a count a_j above 0
    #[tactic(auto, unfolding(crate::specs::Levels::active_at, crate::specs::Levels::excess))]
    fn point(&self, j: usize) -> Point
        requires { Counted self.now j }
        ensures { IsPointAt self.now j result }
    {
        let active = self.level_over(self.counts[j]);
        Point {
            active,
            excess: active - level_of_threshold(self.thresholds.at[j]) - self.margin,
        }
    }

    // The highest crossing: the first that is met downwards from the highest threshold that counted
    // anything.
    #[tactic(auto, using(crate::proofs::Downwards::turns))]
    pub(crate) fn crossing(&self) -> Option<usize>
        ensures { result ≡ highest_crossing self.now }
    {
        // whether d is below 0 at the place above; where there is no d it is not
        let mut below = false;
        for j in (0..self.thresholds.count).rev() {
            if self.counts[j].number() > 0 {
                match self.point(j).excess.cmp(&Steps::from(0)) {
                    Ordering::Equal => return Some(j),
                    Ordering::Greater if below => return Some(j + 1),
                    sign => below = sign.is_lt(),
                }
            }
        }
        None
    }

    // Where there is no crossing: by the first difference.
    pub(crate) fn no_crossing(&self) -> NoCrossing
        ensures { result ≡ cond (lt_z (excess_at self.now 0) (pos 0)) Below Above }
    {
        if self.point(0).excess < Steps::from(0) {
            NoCrossing::Below
        } else {
            NoCrossing::Above
        }
    }

    // At a crossing j: A_j where d_j is 0, else between A_(j−1) and A_j.
    #[tactic(auto, using(crate::proofs::Interpolation::at_crossing), unfolding(crate::specs::Crossing::lower_of, crate::specs::Crossing::active_level))]
    pub(crate) fn active_at(&self, j: usize) -> Active
        requires place { j < self.now.thresholds.now.count }
        requires crosses { is_crossing_at self.now j ≡ true }
        ensures { IsActiveAt self.now j result }
    {
        let upper = self.point(j);
        if upper.excess == Steps::from(0) {
            Active {
                level: upper.active,
                lower: j,
            }
        } else {
            let lower = self.point(j - 1);
            Active {
                level: lower.up_to(upper),
                lower: j - 1,
            }
        }
    }
}

impl Point {
    // The level that lies between two as 0 lies between their differences, rounded towards the
    // first.
    #[tactic(auto, using(crate::proofs::Interpolation::between))]
    fn up_to(self, upper: Point) -> Steps
        requires rises { pos 0 ≤ℤ (upper.active.0 -ℤ self.active.0) }
        requires above { lt_z (pos 0) self.excess.0 ≡ true }
        requires below { lt_z upper.excess.0 (pos 0) ≡ true }
        ensures value { result ≡ steps_of (level_between self.active.0 upper.active.0 self.excess.0 upper.excess.0) }
        ensures size { Within 45 result.0 }
    {
        let rise = size(upper.active - self.active);
        let width = size(self.excess - upper.excess);
        let part = rise * size(self.excess) / width;
        self.active + Steps::from(part as i64) // as: a part of the rise is no larger
    }
}

// C_j: twice lev(c_j), less that of one interval
#[tactic(auto, using(crate::proofs::Sizes::level_read), unfolding(crate::specs::Levels::level_of_threshold))]
fn level_of_threshold(c: u64) -> Steps
    requires { 1 ≤ c }
    ensures value { result ≡ steps_of (level_of_threshold c) }
    ensures size { Within 20 result.0 }
{
    let level = Steps::or_zero(Units::from(c).level());
    level + level - Steps::from(INTERVAL_STEPS)
}

// How many steps x is from 0.
fn size(x: Steps) -> u64
    ensures { result ≡ nat_abs x.0 }
{
    i64::from(x).unsigned_abs()
}
