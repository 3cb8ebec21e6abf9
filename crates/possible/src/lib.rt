// Refusal 2 as far as it is about a meter's state (METHOD.md, "Why a call is refused"): what no
// measurement could leave. The conditions are tested in the definition's order.
#![tactic(auto)]

ghost use Rattle.std.specs.Prelude.{◌||◌, ◌≡◌, ◌≤◌, ◌*◌, min};
ghost use Rattle.level.specs.Types.{two_words};
ghost use Rattle.thresholds.specs.Lists.{places};
ghost use Rattle.thresholds.specs.Places.{some_below, some_from};
ghost use Rattle.possible.specs.Impossible.{square_bound, impossible_sums, impossible_counter, filled_counter};

use level::{MOST_SAMPLES, Quantity, Squares};
use sample::{State, Sums};
use thresholds::PLACES;

// The bounds of |s| and of sq for each sample, and of P and Q.
const SUM_BOUND: u64 = 1 << 15;

const SQUARE_BOUND: u64 = 1 << 32;

const ENVELOPE_BOUND: u64 = 1 << 40;

// So many samples' bounds of sq make one of the high word.
const SAMPLES_A_WORD: u64 = 1 << 32;

// Whether n, s, sq, P or Q is too large. No product with n before n itself is tested.
#[tactic(auto, unfolding(crate::specs::Impossible::impossible_sums, crate::specs::Impossible::any_of, crate::specs::Impossible::many_samples, crate::specs::Impossible::large_sum, crate::specs::Impossible::large_squares, crate::specs::Impossible::large_p, crate::specs::Impossible::large_q))]
pub fn impossible_sums(sums: &Sums) -> bool
    ensures { result ≡ impossible_sums sums.now }
{
    let n = sums.n.number();
    n > MOST_SAMPLES
        || sums.s.unsigned_abs() > n * SUM_BOUND
        || sums.sq > square_bound(n)
        || sums.p > ENVELOPE_BOUND
        || sums.q > ENVELOPE_BOUND
}

// n·2^32 in two words.
fn square_bound(n: u64) -> Squares
    ensures { two_words result ≡ n * square_bound }
{
    Squares {
        high: n / SAMPLES_A_WORD,
        low: (n % SAMPLES_A_WORD) * SQUARE_BOUND,
    }
}

// Whether a count or a hangover of the list is too large, or out of order with the one before; or one past
// its end is not zero. No count may be above n, so the first is held to n as the others are to the one
// before. Of a list that is longer than there are places, these are all.
pub fn impossible_counters(state: &State, count: usize, hangover: u64) -> bool
    ensures { result ≡ some_below (min count places) (impossible_counter hangover state.now) || some_from count places (filled_counter state.now) }
{
    let many = count.min(PLACES);
    // A loop, since each counter is held to the one before it.
    let mut before = state.sums.n;
    let mut held = 0;
    for (&a, &h) in state.a[..many].iter().zip(&state.h[..many]) {
        if h > hangover || a > before || h < held {
            return true;
        }
        before = a;
        held = h;
    }
    is_filled_from(state, many)
}

// Whether a counter from a place on is not zero.
fn is_filled_from(state: &State, place: usize) -> bool
    requires { place ≤ places }
    ensures { result ≡ some_from place places (filled_counter state.now) }
{
    state.a[place..]
        .iter()
        .zip(&state.h[place..])
        .any(|(a, &h)| a.number() > 0 || h > 0)
}
