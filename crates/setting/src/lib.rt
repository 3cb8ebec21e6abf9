// What is chosen when a meter is opened. The meter keeps it; of it the exact machine E is fed the code
// and the offset.
#![tactic(auto)]

mod margin;

ghost use Rattle.std.specs.Prelude.{◌≡◌};
ghost use Rattle.setting.specs.Settings.{no_setting, usual_setting};

use level::Steps;
pub use margin::{marked_margin, wrong_margin};
use thresholds::Thresholds;

#[derive(Clone, Copy)]
pub struct Setting {
    // The rate code.
    pub code: u32,
    // The offset o: what the line card's converter gives for silence.
    pub offset: i16,
    // The margin M: how far the threshold is to lie below the active level that it leads to.
    pub margin: Steps,
    // The thresholds c_j.
    pub thresholds: Thresholds,
}

// The margin that P.56 names, 15.9 dB, in steps.
const USUAL_MARGIN: i64 = 21635;

impl Setting {
    // A rate code with no offset, the margin that P.56 names and the built-in thresholds.
    pub fn usual(code: u32) -> Setting
        ensures { result ≡ usual_setting code }
    {
        Setting {
            code,
            offset: 0,
            margin: USUAL_MARGIN.into(),
            thresholds: Thresholds::built_in(),
        }
    }

    // All zeros, which no opening accepts.
    pub fn none() -> Setting
        ensures { result ≡ no_setting }
    {
        Setting {
            code: 0,
            offset: 0,
            margin: 0.into(),
            thresholds: Thresholds::none(),
        }
    }
}
