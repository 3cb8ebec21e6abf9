// The named rates (METHOD.md, "Rates").
#![tactic(auto)]

ghost use Rattle.std.specs.Prelude.{◌≡◌};
ghost use Rattle.rate.specs.Rates.{rate_of, is_named};

// A rate: its code, its samples a second, the smoothing figure K, the hangover I in samples, and
// D, the envelope's error bound in units of 2^-24 quantizing interval.
#[derive(Clone, Copy, Debug, PartialEq, Eq)]
pub struct Rate {
    pub code: u32,
    pub hertz: u64,
    pub k: u64,
    pub i: u64,
    pub d: u64,
}

impl Rate {
    pub const HZ_694: Rate = Rate {
        code: 1,
        hertz: 694,
        k: 49174,
        i: 139,
        d: 43,
    };

    pub const HZ_8000: Rate = Rate {
        code: 2,
        hertz: 8000,
        k: 4360,
        i: 1600,
        d: 481,
    };

    pub const HZ_16000: Rate = Rate {
        code: 3,
        hertz: 16000,
        k: 2182,
        i: 3200,
        d: 962,
    };

    pub const HZ_32000: Rate = Rate {
        code: 4,
        hertz: 32000,
        k: 1092,
        i: 6400,
        d: 1921,
    };

    pub const HZ_48000: Rate = Rate {
        code: 5,
        hertz: 48000,
        k: 728,
        i: 9600,
        d: 2881,
    };

    // The rate that a code names, if any. A code is a number, as blocks and C hosts give it, since refusals
    // 1 and 2 speak of those that name no rate.
    #[tactic(auto, unfolding(crate::specs::Rates::rate_of))]
    pub fn of(code: u32) -> Option<Rate>
        ensures { result ≡ rate_of code }
    {
        match code {
            1 => Some(Rate::HZ_694),
            2 => Some(Rate::HZ_8000),
            3 => Some(Rate::HZ_16000),
            4 => Some(Rate::HZ_32000),
            5 => Some(Rate::HZ_48000),
            _ => None,
        }
    }
}

// Whether a code names a rate.
#[tactic(auto, unfolding(crate::specs::Rates::is_named))]
pub fn is_named(code: u32) -> bool
    ensures { result ≡ is_named code }
{
    Rate::of(code).is_some()
}
