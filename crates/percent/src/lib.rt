// The activity factor as a percentage (METHOD.md, "The report"). Of the logarithm it knows that it
// never falls.
#![tactic(auto)]

ghost use Rattle.std.specs.Prelude.{◌≡◌, ◌<◌, pos};
ghost use Rattle.level.specs.Logarithm.{lev};
ghost use Rattle.level.specs.Types.{hundredths_of};
ghost use Rattle.percent.specs.Inner.{Trial, passes};
ghost use Rattle.percent.specs.Percent.{percent_of};

use level::{Hundredths, Quantity, Steps};

// 100 %.
const WHOLE: u64 = 10000;

// A power of two above it, which fourteen halvings bring to 1.
const ABOVE_WHOLE: u64 = 1 << 14;

// The percentage of a factor: the largest number from 1 to 10000 whose level, less that of 10000, is
// not above the factor; 0 where there is none. From where a level is too high on, all are. So the
// number lies from `low` to below `low` + `width`, and each turn halves the width.
pub fn percentage(factor: Steps) -> Hundredths
    ensures { result ≡ hundredths_of (percent_of factor.0) }
{
    let top = level_of(WHOLE);
    let mut low = 0;
    let mut width = ABOVE_WHOLE;
    // The width says when to stop, so no turns are counted. A `for` over the fourteen places would work
    // each width out again, and be no plainer.
    while 1 < width {
        width /= 2;
        if passes(low + width, factor, top) {
            low += width;
        }
    }
    low.into()
}

// Whether t is at most 10000, and its level, less that of 10000, not above the factor.
#[tactic(auto, unfolding(crate::specs::Inner::passes, crate::specs::Percent::not_above))]
fn passes(t: u64, factor: Steps, top: Steps) -> bool
    requires { Trial t top.0 }
    ensures { result ≡ passes factor.0 t }
{
    t <= WHOLE && level_of(t) - top <= factor
}

// The level of t, which is not 0.
fn level_of(t: u64) -> Steps
    requires { 0 < t }
    ensures { result.0 ≡ pos (lev t) }
{
    Steps::or_zero(Hundredths::from(t).level())
}
