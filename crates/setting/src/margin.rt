// Margins: their range, and the mark that a report has beside its own.
ghost use Rattle.std.specs.Prelude.{◌≡◌};
ghost use Rattle.setting.specs.Settings.{wrong_margin, is_marked};

use level::Steps;

// The least margin and the largest, in steps; the largest is just under 16.4 dB.
const LEAST: i64 = 1;

const LARGEST: i64 = 22314;

// The fewest steps that are not below 15.4 dB: a margin of fewer is marked.
const MARKED_BELOW: i64 = 20955;

// Whether a margin is out of range.
#[tactic(auto, unfolding(crate::specs::Settings::wrong_margin))]
pub fn wrong_margin(margin: Steps) -> bool
    ensures { result ≡ wrong_margin margin.0 }
{
    !(LEAST..=LARGEST).contains(&margin.into())
}

// Whether a margin is marked.
pub fn marked_margin(margin: Steps) -> bool
    ensures { result ≡ is_marked margin.0 }
{
    i64::from(margin) < MARKED_BELOW
}
