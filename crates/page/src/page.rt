// A page on which whole lines wait, so that many go out by one write and no write has part of a line.
// A page of 4096 bytes, which a pipe takes whole, keeps its lines whole also where several programs
// write into one pipe or one log. A longer line than a page comes in pieces: only the line that shows
// a buffer of more than 513 bytes is put so. In `blocks` what waits are blocks, on a page of its own
// size.
ghost use Rattle.std.specs.Prelude.{◌≡◌, ◌↔◌, [], IsOk, IsTrue};
ghost use Rattle.page.specs.Page.{waiting_of, writing_of, StaysFailed, IsPut};

use crate::SystemError;
use crate::sending::sent;
use crate::waiting::Waiting;
use std::fmt;
use std::fmt::{Display, Write};

// What waits to be written, and how writing goes: well, or a write failed. A page knows no descriptor:
// who prints is lent to each method that may write.
#[derive(Clone, Copy)]
pub struct Page<const N: usize> {
    waiting: Waiting<N>,
    writing: Result<(), SystemError>,
}

impl<const N: usize> Page<N> {
    // Nothing waits.
    pub fn new() -> Self
        ensures waiting { waiting_of result ≡ [] }
        ensures well { IsOk (writing_of result) }
    {
        Page {
            waiting: Waiting::new(),
            writing: Ok(()),
        }
    }

    // Puts bytes behind what waits, after a write where there is no room for them.
    pub fn put<P: Print>(&mut self, to: &P, bytes: &[u8])
        ensures { IsPut N bytes.now (waiting_of self.old) (waiting_of self.new) (writing_of self.old) (writing_of self.new) }
    {
        if self.waiting.put(bytes).is_err() {
            self.write_out(to);
            let fitting = bytes.len().min(N);
            let _ = self.waiting.put(&bytes[..fitting]);
        }
    }

    // Puts a line, or a piece of one, likewise: of one that is longer than a page, the parts that fit.
    pub fn print<P: Print, D: Display + Drop>(&mut self, to: &P, line: D)
        ensures failed { StaysFailed (writing_of self.old) (writing_of self.new) }
    {
        let before = self.waiting.held().len();
        if write!(self.waiting, "{line}").is_err() {
            self.waiting.keep(before);
            self.write_out(to);
            let _ = write!(self.waiting, "{line}");
        }
    }

    // Writes all that waits. After a failure nothing is written any more.
    pub fn write_out<P: Print>(&mut self, to: &P)
        ensures waiting { waiting_of self.new ≡ [] }
        ensures idle { waiting_of self.old ≡ [] → writing_of self.new ≡ writing_of self.old }
        ensures failed { StaysFailed (writing_of self.old) (writing_of self.new) }
    {
        if self.is_well() {
            self.writing = sent(to, self.waiting.held());
        }
        self.waiting.keep(0);
    }

    // Whether no write has failed.
    pub fn is_well(&self) -> bool
        ensures { IsTrue result ↔ IsOk (writing_of self.now) }
    {
        self.writing.is_ok()
    }

    // How writing goes.
    pub fn writing(&self) -> Result<(), SystemError>
        ensures { result ≡ writing_of self.now }
    {
        self.writing
    }
}

// What is said on standard error waits for one write too, as far as there is room for it.
#[derive(Drop)]
struct Said<'a, P> {
    page: Page<512>,
    to: &'a P,
}

impl<P: Print> Write for Said<'_, P> {
    fn write_str(&mut self, text: &str) -> fmt::Result {
        for piece in text.as_bytes().chunks(512) {
            self.page.put(self.to, piece);
        }
        Ok(())
    }
}

// Says a line on standard error, by one write. Where that fails there is nowhere to say so.
pub fn told<P: Print>(to: &P, line: &[u8]) {
    let _ = sent(to, line);
}

// Says a line: a program's name, a colon, and what `line` displays. Where that is at most 512 bytes it is
// one write. Of a longer name only its first 512 bytes are said.
pub fn told_by<P: Print, D: Display + Drop>(to: &P, program: &[u8], line: D) {
    let mut said = Said {
        page: Page::new(),
        to,
    };
    said.page.put(to, program);
    let _ = writeln!(said, ": {line}");
    said.page.write_out(to);
}
