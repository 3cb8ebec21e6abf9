// A meter's thresholds (METHOD.md, "Thresholds"): the list that it holds, the built-in one, and which
// lists load.
#![tactic(auto)]

mod loading;

ghost use Rattle.std.specs.Prelude.{◌≡◌, ◌+◌, ◌<◌};
ghost use Rattle.thresholds.specs.Lists.{places, doubled, built_in_count, built_in_list, no_list, held_of};
ghost use Rattle.thresholds.specs.Places.{each, up_to};

// How many places a list has: the most thresholds that it may hold.
pub const PLACES: usize = 24;

// How many the built-in list has.
const BUILT_IN: usize = 15;

// One quantizing interval in units: the first threshold of the built-in list.
const INTERVAL: u64 = 1 << 24;

// So many thresholds, in units of 2^-24 quantizing interval, and zeros past them. An array and a count,
// since memory is fixed and the theorems read both.
#[derive(Clone, Copy)]
pub struct Thresholds {
    pub count: usize,
    pub at: [u64; PLACES],
}

impl Thresholds {
    // The powers of two, doubled out: the first is one interval, each next is twice the one before.
    #[tactic(auto, unfolding(crate::specs::Lists::built_in_list, crate::specs::Places::list_from))]
    pub fn built_in() -> Thresholds
        ensures { result ≡ built_in_list }
    {
        let mut at = [0; PLACES];
        double_up_to(&mut at, BUILT_IN - 1);
        Thresholds {
            count: BUILT_IN,
            at,
        }
    }

    // A list as it is handed in. Of one that is too long the first places are held, so this is no From: it
    // is refused by its length.
    pub fn of(list: &[u64]) -> Thresholds
        ensures { result ≡ held_of list.now }
    {
        let held = list.len().min(PLACES);
        let mut at = [0; PLACES];
        at[..held].copy_from_slice(&list[..held]);
        Thresholds {
            count: list.len(),
            at,
        }
    }

    // No list.
    #[tactic(auto, unfolding(crate::specs::Lists::no_list, crate::specs::Places::list_from))]
    pub fn none() -> Thresholds
        ensures { result ≡ no_list }
    {
        Thresholds {
            count: 0,
            at: [0; PLACES],
        }
    }
}

// Doubles out the places up to j of a list of zeros: the first is one interval, each next is twice the one
// before. It calls itself since of a loop the compiler would make fifteen constants,
// and these are a table of the thresholds.
fn double_up_to(at: &mut [u64; PLACES], j: usize)
    requires { (j < built_in_count) × (at.old ≡ each places (λ _. 0)) }
    ensures { at.new ≡ each places (up_to (j + 1) doubled) }
{
    if j == 0 {
        at[0] = INTERVAL;
    } else {
        double_up_to(at, j - 1);
        at[j] = 2 * at[j - 1];
    }
}
