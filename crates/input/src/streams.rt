// What a program reads and writes, together: all that waits is written before the program waits for
// input.
ghost use Rattle.std.specs.Prelude.{◌≡◌, ◌+◌, ◌-◌, ◌^◌, ◌%◌, ◌<◌, ◌≤◌, ◌↔◌, ◌≢◌, [], length, take, drop, min, Ok, IsOk, IsErr, IsTrue};
ghost use Rattle.page.specs.Page.{StaysFailed, IsPut};
ghost use Rattle.std.specs.Io.{StartsWith};
ghost use Rattle.input.specs.declared.source.Coming.TheVariants.{More, End};

use crate::source::{Coming, Source};
use page::{Page, SystemError};
use std::fmt::Display;

// What is read comes from standard input through a buffer of `IN` bytes, and what is written goes to
// standard output by pages of `OUT` bytes.
#[derive(Clone, Copy)]
pub struct Streams<const IN: usize, const OUT: usize> {
    source: Source<IN>,
    page: Page<OUT>,
    rt: HostRuntime,
}

impl<const IN: usize, const OUT: usize> Streams<IN, OUT> {
    ghost use Rattle.input.specs.Streams.{unused_of, read_of, place_of, reading_of, waiting_of, writing_of};

    pub fn new(rt: HostRuntime) -> Self
        ensures unused { unused_of result ≡ [] }
        ensures read { read_of result ≡ 0 }
        ensures reading { reading_of result ≡ Ok More }
        ensures waiting { waiting_of result ≡ [] }
        ensures writing { IsOk (writing_of result) }
    {
        Streams {
            source: Source::new(),
            page: Page::new(),
            rt,
        }
    }

    // Reads until so many bytes are there that are not yet used, or no more come. Where they are not
    // there, all that waits is written first; after a write that failed nothing is read.
    pub fn ready(&mut self, n: usize)
        ensures there { n ≤ length (unused_of self.old) → self.new ≡ self.old }
        ensures kept { StartsWith (unused_of self.new) (unused_of self.old) }
        ensures place { place_of self.new ≡ place_of self.old }
        ensures enough { reading_of self.new ≡ Ok More → IsOk (writing_of self.new)
            → min n IN ≤ length (unused_of self.new) }
        ensures stopped { reading_of self.old ≢ Ok More → reading_of self.new ≡ reading_of self.old }
        ensures written { length (unused_of self.old) < n → waiting_of self.new ≡ [] }
        ensures failed { IsErr (writing_of self.old) → (unused_of self.new ≡ unused_of self.old)
            × (writing_of self.new ≡ writing_of self.old) }
    {
        if n <= self.unused() {
            return;
        }
        self.page.write_out(&self.rt.stdout());
        if self.page.is_well() {
            self.source.gather(&mut self.rt.stdin(), n);
        }
    }

    // The bytes that are read and not yet used, at most so many.
    pub fn ahead(&self, n: usize) -> &[u8]
        ensures { result.now ≡ take n (unused_of self.now) }
    {
        let unused = self.source.unused();
        &unused[..n.min(unused.len())]
    }

    // How many bytes are read and not yet used.
    pub fn unused(&self) -> usize
        ensures { result ≡ length (unused_of self.now) }
    {
        self.source.unused().len()
    }

    // Uses so many bytes more, as far as they are read.
    pub fn skip(&mut self, n: usize)
        ensures unused { unused_of self.new ≡ drop n (unused_of self.old) }
        ensures read { read_of self.new ≡ read_of self.old }
        ensures reading { reading_of self.new ≡ reading_of self.old }
        ensures waiting { waiting_of self.new ≡ waiting_of self.old }
        ensures writing { writing_of self.new ≡ writing_of self.old }
    {
        self.source.skip(n);
    }

    // Reads through so many bytes, and answers with how many of them did not come.
    pub fn pass(&mut self, n: usize) -> usize
        ensures most { result ≤ n }
        ensures place { place_of self.new ≡ (place_of self.old + (n - result)) % 2 ^ 64 }
        ensures none_left { 0 < result → unused_of self.new ≡ [] }
        ensures stopped { 0 < result → 0 < IN → IsOk (writing_of self.new) → reading_of self.new ≢ Ok More }
        ensures failed { StaysFailed (writing_of self.old) (writing_of self.new) }
    {
        let mut left = n;
        // Each turn passes what a read brought, so how many there are is not known before.
        while 0 < left {
            self.ready(1);
            let count = left.min(self.unused());
            if count == 0 {
                return left;
            }
            self.skip(count);
            left -= count;
        }
        0
    }

    // How reading goes.
    pub fn reading(&self) -> Result<Coming, SystemError>
        ensures { result ≡ reading_of self.now }
    {
        self.source.reading
    }

    // How writing goes.
    pub fn writing(&self) -> Result<(), SystemError>
        ensures { result ≡ writing_of self.now }
    {
        self.page.writing()
    }

    // Whether all of the input was read.
    pub fn has_ended(&self) -> bool
        ensures { IsTrue result ↔ (reading_of self.now ≡ Ok End) }
    {
        self.reading() == Ok(Coming::End)
    }

    // Whether no write has failed.
    pub fn is_well(&self) -> bool
        ensures { IsTrue result ↔ IsOk (writing_of self.now) }
    {
        self.page.is_well()
    }

    // How many bytes of the input were used.
    pub fn place(&self) -> u64
        ensures { result ≡ place_of self.now }
    {
        self.source.place()
    }

    // How many bytes of the input were read.
    pub fn read(&self) -> u64
        ensures { result ≡ read_of self.now }
    {
        self.source.read
    }

    // Bytes more that wait to be written.
    pub fn put(&mut self, bytes: &[u8])
        ensures put { IsPut OUT bytes.now (waiting_of self.old) (waiting_of self.new) (writing_of self.old) (writing_of self.new) }
        ensures unused { unused_of self.new ≡ unused_of self.old }
    {
        self.page.put(&self.rt.stdout(), bytes);
    }

    // A line more, or a piece of one, that waits to be written.
    pub fn print<D: Display + Drop>(&mut self, line: D)
        ensures failed { StaysFailed (writing_of self.old) (writing_of self.new) }
        ensures unused { unused_of self.new ≡ unused_of self.old }
    {
        self.page.print(&self.rt.stdout(), line);
    }

    // Says a line on standard error.
    pub fn told(&self, line: &[u8]) {
        page::told(&self.rt.stderr(), line);
    }

    // Says a line that begins with the program's name.
    pub fn told_by<D: Display + Drop>(&self, program: &[u8], line: D) {
        page::told_by(&self.rt.stderr(), program, line);
    }

    // Writes all that waits, and says on standard error what failed, where something did.
    pub fn closed(&mut self, program: &[u8])
        ensures waiting { waiting_of self.new ≡ [] }
        ensures failed { StaysFailed (writing_of self.old) (writing_of self.new) }
    {
        if let Err(error) = self.reading() {
            let bytes = self.read();
            self.told_by(
                program,
                format_args!("reading standard input failed after {bytes} bytes: {error}"),
            );
        }
        self.page.write_out(&self.rt.stdout());
        if let Err(error) = self.writing() {
            self.told_by(
                program,
                format_args!("writing standard output failed: {error}"),
            );
        }
    }
}
