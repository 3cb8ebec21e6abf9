// The customer's worked figures, run: the answers to calls, and the four reports at P.56's margin.
#![tactic(auto)]

use level::{MOST_SAMPLES, Samples, Squares};
use meter::{Fed, Meter};
use page::Page;
use print::{Given, ReportLine};
use sample::{State, Sums};
use setting::Setting;
use thresholds::PLACES;

fn main(rt: HostRuntime) {
    let stdout = rt.stdout();
    let mut page = Page::<512>::new();
    for given in answers() {
        page.print(&stdout, given);
    }
    for which in 0..4u8 {
        let reported = measured(which).report();
        page.print(&stdout, ReportLine(&reported));
    }
    page.write_out(&stdout);
}

// The answers to chunks. A meter that has taken 2^48 samples takes no other, but an empty chunk; a fresh
// one takes the longest chunk, and not one sample more.
fn answers() -> [Given<'static>; 4] {
    let full = handed_in(MOST_SAMPLES, 0, [0; PLACES]);
    let fresh = Meter::open(Setting::usual(2)).meter;
    let samples = [0; 4097];
    [
        given("one sample at 2^48:", full.chunk(&[1])),
        given("an empty chunk at 2^48:", full.chunk(&[])),
        given("a chunk of 4096:", fresh.chunk(&samples[..4096])),
        given("a chunk of 4097:", fresh.chunk(&samples)),
    ]
}

fn given(name: &'static str, fed: Fed) -> Given<'static> {
    Given {
        name,
        answer: fed.answer,
    }
}

// The meter of one of the four reports, by the report's place.
fn measured(which: u8) -> Meter {
    let mut a = [0; PLACES];
    match which {
        0 => {
            a[..8].fill(4096);
            handed_in(16384, 1073741824, a)
        }
        1 => {
            a[..7].fill(4096);
            a[7] = 2048;
            handed_in(16384, 1073741824, a)
        }
        2 => {
            a[0] = 32768;
            handed_in(32768, 1275068, a)
        }
        _ => {
            a[0] = 32768;
            handed_in(32768, 1048576, a)
        }
    }
}

// A meter at code 2, with the usual margin and thresholds, whose other fields are zero.
fn handed_in(n: u64, squares: u64, a: [u64; PLACES]) -> Meter {
    Meter {
        setting: Setting::usual(2),
        state: State {
            sums: Sums {
                n: Samples::from(n),
                s: 0,
                sq: Squares {
                    high: 0,
                    low: squares,
                },
                p: 0,
                q: 0,
            },
            a: a.map(Samples::from),
            h: [0; PLACES],
        },
    }
}
