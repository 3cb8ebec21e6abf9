// Which lists load. The rules are tested in the definition's order.
ghost use Rattle.std.specs.Prelude.{◌≡◌, ◌≤◌, ◌<◌};
ghost use Rattle.refusal.specs.First.{first_of};
ghost use Rattle.refusal.specs.Number.{number_given};
ghost use Rattle.thresholds.specs.Lists.{places, wrong_length, wrong_entry, wrong_end, wrong_pair, filled, list_rules, unloadable};
ghost use Rattle.thresholds.specs.Places.{some_from};

use crate::{PLACES, Thresholds};
use refusal::Refusal;

// The fewest thresholds that a list may have.
const FEWEST: usize = 14;

// The range of the first threshold, and of the last.
const FIRST_LEAST: u64 = 1 << 22;

const FIRST_MOST: u64 = 1 << 24;

const LAST_LEAST: u64 = 1 << 37;

const LAST_MOST: u64 = 1 << 39;

impl Thresholds {
    // What opening answers to the list: the first rule that it breaks.
    #[tactic(auto, using(crate::proofs::Laws::length_in), unfolding(crate::specs::Lists::list_rules, refusal::specs::First::first_of))]
    pub fn load(&self) -> Result<(), Refusal>
        ensures { number_given result ≡ first_of (list_rules self.now) }
    {
        if self.has_wrong_length() {
            return Err(Refusal::ListLength);
        }
        if self.has_wrong_entry() {
            return Err(Refusal::ListEntry);
        }
        if self.has_wrong_end() {
            return Err(Refusal::ListEnd);
        }
        Ok(())
    }

    // Whether the list would not load.
    #[tactic(auto, using(refusal::proofs::Laws::positive), unfolding(crate::specs::Lists::list_rules, crate::specs::Lists::unloadable, refusal::specs::First::first_of))]
    pub fn is_unloadable(&self) -> bool
        ensures { result ≡ unloadable self.now }
    {
        self.load().is_err()
    }

    // Whether the length is out of its range, or something stands past it.
    #[tactic(auto, unfolding(crate::specs::Lists::wrong_length))]
    fn has_wrong_length(&self) -> bool
        ensures { result ≡ wrong_length self.now }
    {
        !(FEWEST..=PLACES).contains(&self.count) || self.is_filled_past_end()
    }

    // Whether a place past the end is not zero. That there are no more than places is a clause here and no
    // invariant of a list: 19 refuses lists of which it does not hold.
    fn is_filled_past_end(&self) -> bool
        requires { self.now.count ≤ places }
        ensures { result ≡ some_from self.now.count places (filled self.now) }
    {
        self.at[self.count..].iter().any(|&place| place > 0)
    }

    // Whether an entry is not above the one before, or more than twice it.
    fn has_wrong_entry(&self) -> bool
        requires { self.now.count ≤ places }
        ensures { result ≡ wrong_entry self.now }
    {
        self.at[..self.count]
            .array_windows::<2>()
            .any(|&[before, c]| is_wrong_pair(before, c))
    }

    // Whether the first threshold or the last is out of its range.
    #[tactic(auto, unfolding(crate::specs::Lists::wrong_end))]
    fn has_wrong_end(&self) -> bool
        requires { (0 < self.now.count) × (self.now.count ≤ places) }
        ensures { result ≡ wrong_end self.now }
    {
        !(FIRST_LEAST..=FIRST_MOST).contains(&self.at[0])
            || !(LAST_LEAST..=LAST_MOST).contains(&self.at[self.count - 1])
    }
}

// Whether c may not follow `before`. Twice `before` may not fit its word; what c is above it does.
fn is_wrong_pair(before: u64, c: u64) -> bool
    ensures { result ≡ wrong_pair before c }
{
    c <= before || before < c - before
}
