// Plays a recorded list of calls from standard input and prints a line for each record.
//
// A record is a byte for its kind and then the fields of that kind, numbers little-endian:
//
//   1 open     code u8, offset i16, margin i64, length u16, so many thresholds u64
//                                                prints `open r`
//   2 chunk    count u16, count samples i16      prints `chunk r`
//   3 block    length u16, bytes                 prints `block r`
//   4 report                                     prints `report 0` and the report's 37 values, or `report r`
//   5 load     the 82 values of a meter          prints `load`
//   6 show                                       prints `meter` and the 82 values
//   7 lev      high u64, low u64                 prints `lev v`, or `lev none`
//   8 check    code u8, length u16, bytes        prints `check r`, the C host's answer
//   9 write    code u8, number of samples before u64, count u16, count samples i16, length u16
//                                                prints `write r`, and the buffer
//
// r is the refusal's number, or 0. The length 65535 in record 1 stands for the built-in list, and no
// threshold follows. The 82 values are the code u8, the offset i16 and then, eight bytes each, the margin,
// the list's length and its 24 thresholds, n, s, sq high, sq low, P, Q, the 24 a_j and the 24 h_j. A report's
// 37 values are its n, s, sq high, sq low, the 24 a_j, L, A, C, F, the lower and upper j, T, the margin and
// its mark, 0 or 1. Record 9 makes a block in a buffer that is as long as its last field says and holds bytes
// of 165 before; where it has a byte, all of it is shown, after a space, in lower-case hexadecimal. The run
// starts with a meter of all zeros; open and load replace it. A record that is cut short, or of another
// kind, ends the run with the line `bad record k`, where k is its number, from 1; standard error says where
// it starts and what is wrong with it. A failure to read or to write ends the run with a line on standard
// error alone.
#![tactic(auto)]

mod calls;
mod faults;
mod fields;
mod records;
mod writing;

use calls::Reply;
use coding::Number;
use faults::Stop;
use fields::Fields;
use input::Streams;
use meter::Meter;
use records::{Kind, Record};
use setting::Setting;

fn main(rt: HostRuntime) {
    if input::has_word(rt, 1) {
        faults::word(&rt.stderr());
        return;
    }
    // Made here and not by a function, from which it would be copied twice: its buffers are large.
    let mut player = Player {
        meter: Meter::open(Setting::usual(0)).meter,
        streams: Streams::new(rt),
    };
    player.play();
}

// The meter, and what is read and written.
#[derive(Drop)]
pub struct Player {
    meter: Meter,
    streams: Streams<32768, 4096>,
}

impl Player {
    // Plays all records.
    fn play(&mut self) {
        for k in 1..u64::MAX {
            let place = self.streams.place();
            if let Err(stop) = self.turn() {
                return self.end(k, place, stop);
            }
        }
    }

    // Reads a record, plays it, and prints its line where all of the record came.
    fn turn(&mut self) -> Result<(), Stop> {
        let record = self.read()?;
        let fields = Fields::of(self.streams.ahead(record.kept));
        let meter = &mut self.meter;
        let reply = match record.kind {
            Kind::Open => calls::open(fields, meter),
            Kind::Chunk => calls::chunk(fields, meter),
            Kind::Block => calls::block(fields, meter),
            Kind::Report => calls::report(meter),
            Kind::Load => calls::load(fields, meter),
            Kind::Show => Reply::Meter(*meter),
            Kind::Lev => calls::lev(fields),
            Kind::Check => calls::check(fields),
            Kind::Write => return self.write(record),
        };
        self.pass(record)?;
        self.streams.print(reply);
        Ok(())
    }

    // Reads the next record as far as it is kept.
    fn read(&mut self) -> Result<Record, Stop> {
        self.streams.ready(1);
        if !self.streams.is_well() || self.streams.unused() == 0 {
            return Err(Stop::Ended);
        }
        let kind = Kind::try_from(u8::read(self.streams.ahead(1), 0))?;
        self.streams.ready(kind.head());
        let record = Record::of(kind, self.streams.ahead(kind.head()));
        self.streams.ready(record.kept);
        if !self.streams.is_well() {
            return Err(Stop::Ended);
        }
        if self.streams.unused() < record.kept {
            return Err(self.cut());
        }
        Ok(record)
    }

    // Reads through a record, those of its bytes that are not kept among them.
    fn pass(&mut self, record: Record) -> Result<(), Stop> {
        self.streams.skip(record.kept);
        if 0 < self.streams.pass(record.rest) {
            return Err(self.cut());
        }
        Ok(())
    }
}
