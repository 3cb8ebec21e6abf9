// How a run ends, and what `replay` says where it ends early.
use crate::Player;
use std::fmt;

// Why no further record is played: no more can be read or written, or the record is bad.
#[derive(Clone, Copy, Debug, PartialEq, Eq)]
pub enum Stop {
    Ended,
    Bad(Fault),
}

// What is wrong with a bad record: no kind has its number, or the input ends inside it.
#[derive(Clone, Copy, Debug, PartialEq, Eq)]
pub enum Fault {
    Unknown(u8),
    Cut,
}

impl From<Fault> for Stop {
    fn from(fault: Fault) -> Stop {
        Stop::Bad(fault)
    }
}

impl fmt::Display for Fault {
    fn fmt<W: fmt::Write>(&self, f: &mut fmt::Formatter<W>) -> fmt::Result {
        match self {
            Fault::Unknown(number) => write!(f, "no record is of kind {number}"),
            Fault::Cut => write!(f, "the input ends inside it"),
        }
    }
}

// A word on the command line.
pub fn word<P: Print>(to: &P) {
    page::told(
        to,
        b"replay takes no words: it reads records of calls from standard input, as crates/replay/src/main.rt has them, and prints a line for each\n",
    );
}

impl Player {
    // Why the run stops where no more of a record comes. One that the input ends inside of is bad; one
    // that could not be read is not judged.
    pub fn cut(&self) -> Stop {
        if self.streams.has_ended() {
            Stop::Bad(Fault::Cut)
        } else {
            Stop::Ended
        }
    }

    // Writes what waits, and says what is wrong with the k-th record, where it is bad.
    pub fn end(&mut self, k: u64, place: u64, stop: Stop) {
        if let Stop::Bad(fault) = stop {
            self.streams.told_by(
                b"replay",
                format_args!("record {k} at byte {place}: {fault}"),
            );
            self.streams.print(format_args!("bad record {k}\n"));
        }
        self.streams.closed(b"replay");
    }
}
