// The errors of the system that the programs can meet, by their numbers on Linux.
ghost use Rattle.std.specs.Prelude.{◌≡◌, ◌↔◌, pos, IsTrue, unwrap_or};
ghost use Rattle.std.specs.IoError.{raw_os_error};
ghost use Rattle.page.specs.SystemError.{number_of, IsInterruption};

use std::{fmt, io};

pub const EINTR: i32 = 4;

const EIO: i32 = 5;

const EBADF: i32 = 9;

const EAGAIN: i32 = 11;

const EISDIR: i32 = 21;

const EFBIG: i32 = 27;

const ENOSPC: i32 = 28;

const EPIPE: i32 = 32;

// An error by the system's number, which is what is printed of it. 0 is no error of the system's.
#[derive(Clone, Copy, Debug, PartialEq, Eq)]
pub struct SystemError(i32);

impl SystemError {
    // The system's number.
    pub fn number(self) -> i32
        ensures { result ≡ number_of self }
    {
        self.0
    }

    // Whether a signal came before the call did anything.
    pub(crate) fn is_interrupted(self) -> bool
        ensures { IsTrue result ↔ IsInterruption self }
    {
        self.number() == EINTR
    }

    // What it means, for those that the programs can meet. It goes by the number and not by an ErrorKind,
    // since any may come, and it is the number that is printed.
    fn meaning(self) -> &'static str {
        match self.0 {
            EINTR => ", interrupted too often",
            EIO => ", the device failed",
            EBADF => ", not open",
            EAGAIN => ", it would have to wait",
            EISDIR => ", a directory",
            EFBIG => ", the file would be too large",
            ENOSPC => ", no space left",
            EPIPE => ", nobody reads the pipe",
            _ => "",
        }
    }
}

impl From<io::Error> for SystemError {
    ghost from_gives = { λ error e. number_of e ≡ unwrap_or (raw_os_error error) (pos 0) };

    fn from(error: io::Error) -> SystemError {
        SystemError(error.raw_os_error().unwrap_or(0))
    }
}

impl fmt::Display for SystemError {
    fn fmt<W: fmt::Write>(&self, f: &mut fmt::Formatter<W>) -> fmt::Result {
        write!(f, "error {}{}", self.0, self.meaning())
    }
}
