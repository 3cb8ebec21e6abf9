// The report program (METHOD.md, "Worked figures"): measures sample blocks of rate code 1 from standard
// input. A refused block has its line as it is read; at the end come the closing lines, five about the
// measurement and, where there is a level, one with the activity as a percentage. They go out by one
// write. Where not all of the input could be read, or a write failed, standard error says so; the
// closing lines are then not printed, or where it was theirs that failed, not to their end.
#![tactic(auto)]

use input::Streams;
use level::Quantity;
use meter::{Meter, Reported};
use print::{Counts, LevelsOf};
use sample::Sums;
use setting::Setting;
use std::fmt;
use thresholds::PLACES;

fn main(rt: HostRuntime) {
    if input::has_word(rt, 1) {
        page::told(
            &rt.stderr(),
            b"report takes no words: it reads sample blocks of 512 bytes from standard input, and prints a line for each that is refused and then those about the measurement\n",
        );
        return;
    }
    let mut measurement = Measurement::new(rt);
    measurement.take_all();
    measurement.close();
}

// The meter, and what is read and written.
#[derive(Drop)]
struct Measurement {
    meter: Meter,
    streams: Streams<32768, 4096>,
}

impl Measurement {
    fn new(rt: HostRuntime) -> Measurement {
        Measurement {
            meter: Meter::open(Setting::usual(1)).meter,
            streams: Streams::new(rt),
        }
    }

    // Takes every block of the input, and prints a line for each that is refused.
    fn take_all(&mut self) {
        for k in 1..u64::MAX {
            self.streams.ready(512);
            let Some(block) = self.block_ahead() else {
                return;
            };
            let fed = self.meter.block(block);
            self.meter = fed.meter;
            self.streams.skip(512);
            if let Err(why) = fed.answer {
                let number = u32::from(why);
                self.streams
                    .print(format_args!("block {k} refused {number}\n"));
            }
        }
    }

    // The next block. A short last block counts as one, at its own length; bytes after which reading
    // failed do not, and after a write that failed no block is taken.
    fn block_ahead(&self) -> Option<&[u8]> {
        let block = self.streams.ahead(512);
        let is_whole = block.len() == 512 || self.streams.has_ended();
        (self.streams.is_well() && is_whole && !block.is_empty()).then_some(block)
    }

    // Prints the closing lines where all of the input was read and no write has failed, and says what
    // failed.
    fn close(&mut self) {
        if self.streams.is_well() && self.streams.has_ended() {
            let reported = self.meter.report();
            self.streams.print(ClosingLines(&reported));
        }
        self.streams.closed(b"report");
    }
}

// The closing lines: four from the meter itself, which stand whether or not there is a report, with as many
// counts as its list has thresholds; and the levels and the percentage, or why there are none.
#[derive(Clone, Copy)]
struct ClosingLines<'a>(&'a Reported);

impl fmt::Display for ClosingLines<'_> {
    fn fmt<W: fmt::Write>(&self, f: &mut fmt::Formatter<W>) -> fmt::Result {
        let Reported {
            answer,
            meter,
            report,
        } = self.0;
        let Sums { n, s, sq, .. } = meter.state.sums;
        writeln!(f, "samples {}", n.number())?;
        writeln!(f, "sum {s}")?;
        writeln!(f, "squares {} {}", sq.high, sq.low)?;
        let count = PLACES.min(meter.setting.thresholds.count);
        writeln!(f, "counts{}", Counts(&meter.state.a[..count]))?;
        match *answer {
            Ok(()) => {
                writeln!(f, "level{}", LevelsOf(&report.levels))?;
                writeln!(f, "percent {}", report.percent.number())
            }
            Err(why) => writeln!(f, "refused {}", u32::from(why)),
        }
    }
}
