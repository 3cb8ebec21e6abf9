// Opening a meter.
ghost use Rattle.std.specs.Prelude.{◌≡◌, ◌≤◌};
ghost use Rattle.thresholds.specs.Lists.{places};
ghost use Rattle.meter.specs.Calls.{handed_by, open_call};
ghost use Rattle.meter.specs.Inner.{fresh_at, opened_with};

use crate::{Fed, Meter};
use level::{Samples, Squares};
use rate::Rate;
use refusal::Refusal;
use sample::{State, Sums};
use setting::Setting;
use thresholds::PLACES;

impl Meter {
    // The fresh meter; or a refusal, with a meter of all zeros that every later call refuses.
    #[tactic(auto, unfolding(crate::specs::Calls::handed_by, crate::specs::Calls::zero_meter, crate::specs::Inner::fresh_at, thresholds::specs::Lists::no_list))]
    pub fn open(setting: Setting) -> Fed
        ensures { handed_by result ≡ open_call setting }
    {
        match Meter::try_open(setting) {
            Ok(meter) => Fed {
                answer: Ok(()),
                meter,
            },
            Err(why) => Fed {
                answer: Err(why),
                meter: Meter::fresh(Setting::none(), 0),
            },
        }
    }

    // The fresh meter of a setting; or the first refusal that applies.
    #[tactic(auto, using(refusal::proofs::Laws::positive), unfolding(crate::specs::Calls::open_call, crate::specs::Refusals::open_rules, crate::specs::Refusals::unnamed_code, refusal::specs::First::first_of, rate::specs::Rates::is_named, crate::specs::Calls::fresh, crate::specs::Inner::fresh_at, setting::specs::Settings::i_of, rate::specs::Rates::row_of))]
    fn try_open(setting: Setting) -> Result<Meter, Refusal>
        ensures { opened_with result ≡ open_call setting }
    {
        let rate = Rate::of(setting.code).ok_or(Refusal::UnnamedRate)?;
        if setting::wrong_margin(setting.margin) {
            return Err(Refusal::WrongMargin);
        }
        setting.thresholds.load()?;
        Ok(Meter::fresh(setting, rate.i))
    }

    // A meter that has taken no sample: all zeros but the hangovers of the list's thresholds.
    fn fresh(setting: Setting, hangover: u64) -> Meter
        requires { setting.thresholds.count ≤ places }
        ensures { result ≡ fresh_at setting hangover }
    {
        let mut h = [0; PLACES];
        h[..setting.thresholds.count].fill(hangover);
        Meter {
            setting,
            state: State {
                sums: Sums {
                    n: 0.into(),
                    s: 0,
                    sq: Squares::ZERO,
                    p: 0,
                    q: 0,
                },
                a: [Samples::from(0); PLACES],
                h,
            },
        }
    }
}
