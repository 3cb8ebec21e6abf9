// What each record asks, but for one that makes a block, and the line that answers it. The functions are
// no methods of `Player`, from whose input the fields are still borrowed.
use crate::fields::Fields;
use crate::records::{BUILT_IN, TOO_MANY_SAMPLES, TOO_MANY_THRESHOLDS};
use level::{Samples, Squares, Steps};
use meter::{Fed, Meter, Reported};
use print::{Given, MeterLine, ReportLine};
use sample::{State, Sums};
use setting::Setting;
use std::fmt;
use thresholds::Thresholds;

// What a record is answered with, printed as its line.
#[derive(Clone, Copy)]
pub enum Reply {
    Given(Given<'static>),
    Report(Reported),
    Loaded,
    Meter(Meter),
    Lev(Option<Steps>),
    Checked(u32), // what the C host's call gives
}

impl fmt::Display for Reply {
    fn fmt<W: fmt::Write>(&self, f: &mut fmt::Formatter<W>) -> fmt::Result {
        match self {
            Reply::Given(given) => write!(f, "{given}"),
            Reply::Report(reported) => write!(f, "{}", ReportLine(reported)),
            Reply::Loaded => writeln!(f, "load"),
            Reply::Meter(meter) => write!(f, "{}", MeterLine(meter)),
            Reply::Lev(Some(level)) => writeln!(f, "lev {}", i64::from(*level)),
            Reply::Lev(None) => writeln!(f, "lev none"),
            Reply::Checked(number) => writeln!(f, "check {number}"),
        }
    }
}

// What a call gave, whose meter goes on.
fn given(name: &'static str, fed: Fed, meter: &mut Meter) -> Reply {
    *meter = fed.meter;
    Reply::Given(Given {
        name,
        answer: fed.answer,
    })
}

// 1: an opening.
pub fn open(mut fields: Fields, meter: &mut Meter) -> Reply {
    let setting = chosen(&mut fields);
    let fed = Meter::open(Setting {
        thresholds: handed(&mut fields),
        ..setting
    });
    given("open", fed, meter)
}

// 2: a chunk.
pub fn chunk(mut fields: Fields, meter: &mut Meter) -> Reply {
    let mut samples = [0; TOO_MANY_SAMPLES];
    let _count = fields.u16();
    given("chunk", meter.chunk(fields.samples(&mut samples)), meter)
}

// 3: a block.
pub fn block(mut fields: Fields, meter: &mut Meter) -> Reply {
    let _length = fields.u16();
    given("block", meter.block(fields.rest()), meter)
}

// 4: a report.
pub fn report(meter: &mut Meter) -> Reply {
    let reported = meter.report();
    *meter = reported.meter;
    Reply::Report(reported)
}

// 5: a meter to go on with.
pub fn load(mut fields: Fields, meter: &mut Meter) -> Reply {
    let setting = chosen(&mut fields);
    *meter = Meter {
        setting: Setting {
            thresholds: Thresholds {
                count: fields.u64() as usize, // as: u64 has no From to usize
                at: fields.numbers(),
            },
            ..setting
        },
        state: State {
            sums: sums(&mut fields),
            a: fields.numbers().map(Samples::from),
            h: fields.numbers(),
        },
    };
    Reply::Loaded
}

// 7: the level of a number of two words.
pub fn lev(mut fields: Fields) -> Reply {
    Reply::Lev(squares(&mut fields).level())
}

// 8: the C host's check of a block.
pub fn check(mut fields: Fields) -> Reply {
    let code = fields.u8().into();
    let _length = fields.u16();
    Reply::Checked(block::hoggetwhirl_check_block(fields.rest(), code))
}

// 1 and 5: the code, the offset and the margin, with no list.
fn chosen(fields: &mut Fields) -> Setting {
    Setting {
        code: fields.u8().into(),
        offset: fields.i16(),
        margin: Steps::from(fields.i64()),
        thresholds: Thresholds::none(),
    }
}

// 1: the list that is handed in. Of one that is too long so many are read that it still is.
fn handed(fields: &mut Fields) -> Thresholds {
    let count = fields.u16();
    if count == BUILT_IN {
        return Thresholds::built_in();
    }
    let list: [u64; TOO_MANY_THRESHOLDS] = fields.numbers();
    Thresholds::of(&list[..list.len().min(usize::from(count))])
}

fn sums(fields: &mut Fields) -> Sums {
    Sums {
        n: Samples::from(fields.u64()),
        s: fields.i64(),
        sq: squares(fields),
        p: fields.u64(),
        q: fields.u64(),
    }
}

fn squares(fields: &mut Fields) -> Squares {
    Squares {
        high: fields.u64(),
        low: fields.u64(),
    }
}
