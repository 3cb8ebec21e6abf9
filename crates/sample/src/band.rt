// The bands between neighbouring thresholds, and the search for the one in which the envelope lies: from
// band to band, up or down, with one threshold read for each.
ghost use Rattle.std.specs.Prelude.{◌≡◌, ◌+◌, ◌^◌, ◌≤◌, ◌<◌, ◌↔◌, IsTrue};
ghost use Rattle.thresholds.specs.Lists.{places, threshold_of};
ghost use Rattle.sample.specs.Inner.Bands.{low_end, high_end};

use thresholds::Thresholds;

// What no envelope comes to: the high end of the band above the last threshold.
const TOP: u64 = 1 << 63;

// From low up to, not including, high: no threshold of the list lies between them. So many of its
// thresholds are at or below low.
#[derive(Clone, Copy)]
pub struct Band<'a> {
    pub list: &'a Thresholds,
    pub low: u64,
    pub high: u64,
    pub below: usize,
    ghost few: { list.now.count ≤ places },
    ghost within: { below ≤ list.now.count },
    ghost begins: { low ≡ low_end (threshold_of list.now) below },
    ghost ends: { high ≡ high_end (threshold_of list.now) list.now.count below },
}

impl<'a> Band<'a> {
    ghost use Rattle.sample.specs.Inner.Around.{Around};

    // Below the first threshold.
    pub fn lowest(list: &'a Thresholds) -> Band<'a>
        requires { (0 < list.now.count) × (list.now.count ≤ places) }
        ensures { result.list.now ≡ list.now }
    {
        Band {
            list,
            low: 0,
            high: list.at[0],
            below: 0,
        }
    }

    // Whether an envelope lies in it.
    pub fn contains(&self, q: u64) -> bool
        ensures { IsTrue result ↔ ((self.now.low ≤ q) × (q < self.now.high)) }
    {
        (self.low..self.high).contains(&q)
    }

    // The band around an envelope, from this one on.
    pub fn around(self, q: u64) -> Band<'a>
        requires { q ≤ 2 ^ 40 }
        ensures { Around self.entry.list.now q result }
    {
        if q < self.low {
            self.fallen(q)
        } else {
            self.risen(q)
        }
    }

    // The band around an envelope that lies below this one. One loop for both ways takes more instructions
    // a sample (docs/DECISIONS.md).
    fn fallen(self, q: u64) -> Band<'a>
        requires { q < self.low }
        ensures { Around self.entry.list.now q result }
    {
        let mut band = self;
        // How many bands lie between is not known before, so no `for` goes over them.
        while q < band.low {
            band = band.down();
        }
        band
    }

    // The band around an envelope that lies in this one or above it.
    fn risen(self, q: u64) -> Band<'a>
        requires { (self.low ≤ q) × (q ≤ 2 ^ 40) }
        ensures { Around self.entry.list.now q result }
    {
        let mut band = self;
        // As in `fallen`, no `for` goes over the bands.
        while band.high <= q {
            band = band.up();
        }
        band
    }

    // The next band above.
    fn up(self) -> Band<'a>
        requires { self.below < self.list.now.count }
        ensures list { result.list.now ≡ self.entry.list.now }
        ensures from { result.low ≡ self.entry.high }
        ensures place { result.below ≡ self.entry.below + 1 }
    {
        let below = self.below + 1;
        Band {
            list: self.list,
            low: self.high,
            high: high_end(self.list, below),
            below,
        }
    }

    // The next band below.
    fn down(self) -> Band<'a>
        requires { 0 < self.below }
        ensures list { result.list.now ≡ self.entry.list.now }
        ensures to { result.high ≡ self.entry.low }
        ensures place { result.below + 1 ≡ self.entry.below }
    {
        let below = self.below - 1;
        Band {
            list: self.list,
            low: low_end(self.list, below),
            high: self.low,
            below,
        }
    }
}

// Where the band with so many thresholds below it ends.
#[tactic(auto, using(crate::proofs::Bands::ends_at, crate::proofs::Bands::ends_nowhere))]
fn high_end(list: &Thresholds, below: usize) -> u64
    requires { list.now.count ≤ places }
    ensures { result ≡ high_end (threshold_of list.now) list.now.count below }
{
    if below < list.count {
        list.at[below]
    } else {
        TOP
    }
}

// And where it begins.
#[tactic(auto, using(crate::proofs::Bands::one_less, crate::proofs::Bands::from_none))]
fn low_end(list: &Thresholds, below: usize) -> u64
    requires { below ≤ places }
    ensures { result ≡ low_end (threshold_of list.now) below }
{
    if below == 0 { 0 } else { list.at[below - 1] }
}
