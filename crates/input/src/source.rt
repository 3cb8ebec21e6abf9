// Standard input by large reads into a buffer. The end of the input and a failure to read are told
// apart.
ghost use Rattle.std.specs.Prelude.{◌≡◌, ◌≢◌, ◌-◌, ◌≤◌, [], length, drop, min, Ok};
ghost use Rattle.std.specs.Io.{StartsWith};
ghost use Rattle.std.specs.Io.KnownBytes.{Consumes, IsAtEnd};
ghost use Rattle.input.specs.declared.source.Coming.TheVariants.{More, End};

use page::{SystemError, Tries};
use std::io::Read;

// What a further read can bring, where none has failed.
#[derive(Clone, Copy, PartialEq, Eq)]
pub enum Coming {
    More,
    End,
}

// A buffer with the bytes that are read and not yet used, from `at` up to `end`; how many were read in
// all; and how reading goes. It has two ends, where an ArrayVec has one: the bytes stay in place as they
// are used.
#[derive(Clone, Copy)]
pub struct Source<const N: usize> {
    buffer: [u8; N],
    at: usize,
    end: usize,
    pub read: u64,
    pub reading: Result<Coming, SystemError>,
    ghost in_order: { at ≤ end },
    ghost inside: { end ≤ N },
}

impl<const N: usize> Source<N> {
    ghost use Rattle.input.specs.Inner.{Received};
    ghost use Rattle.input.specs.Source.{unused_of, read_of, place_of, reading_of};

    // Before the first read.
    pub fn new() -> Self
        ensures unused { unused_of result ≡ [] }
        ensures read { read_of result ≡ 0 }
        ensures reading { reading_of result ≡ Ok More }
    {
        Source {
            buffer: [0; N],
            at: 0,
            end: 0,
            read: 0,
            reading: Ok(Coming::More),
        }
    }

    // The bytes that are read and not yet used.
    pub fn unused(&self) -> &[u8]
        ensures bytes { result.now ≡ unused_of self.now }
        ensures count { length result.now ≡ self.now.end - self.now.at }
    {
        let buffer = &self.buffer[..];
        &buffer[self.at..self.end]
    }

    // Uses so many bytes more, as far as there are.
    pub fn skip(&mut self, n: usize)
        ensures unused { unused_of self.new ≡ drop n (unused_of self.old) }
        ensures read { read_of self.new ≡ read_of self.old }
        ensures reading { reading_of self.new ≡ reading_of self.old }
    {
        self.at += n.min(self.end - self.at);
    }

    // How many bytes of the input were used.
    pub fn place(&self) -> u64
        ensures { result ≡ place_of self.now }
    {
        self.read.wrapping_sub(self.unused().len() as u64)
    }

    // Reads until so many bytes are there that are not yet used, or all that come, or all that the
    // buffer holds. They are moved to the buffer's front.
    pub fn gather<R: Read>(&mut self, from: &mut R, n: usize)
        ensures stopped { reading_of self.old ≢ Ok More → self.new ≡ self.old }
        ensures kept { StartsWith (unused_of self.new) (unused_of self.old) }
        ensures place { place_of self.new ≡ place_of self.old }
        ensures came { Consumes (R.remaining from.old) (R.remaining from.new)
            (drop (length (unused_of self.old)) (unused_of self.new)) }
        ensures enough { reading_of self.new ≡ Ok More → min n N ≤ length (unused_of self.new) }
        ensures ended { reading_of self.old ≡ Ok More → reading_of self.new ≡ Ok End
            → IsAtEnd (R.remaining from.new) }
    {
        if self.reading == Ok(Coming::More) {
            self.buffer.copy_within(self.at..self.end, 0);
            self.end -= self.at;
            self.at = 0;
            self.reading = self.receive(from, n);
        }
    }

    // Reads behind what the buffer holds until it holds enough, or is full, or no more comes.
    fn receive<R: Read>(&mut self, from: &mut R, enough: usize) -> Result<Coming, SystemError>
        ensures received { Received self.old self.new (R.remaining from.old) (R.remaining from.new) }
        ensures more { result ≡ Ok More → min enough N ≤ self.new.end }
        ensures ended { result ≡ Ok End → IsAtEnd (R.remaining from.new) }
    {
        let mut tries = Tries::new();
        // The system gives as much at a time as it has, so how many turns there are is not known before.
        while self.end < enough.min(N) {
            let buffer = &mut self.buffer[..];
            match from.read(&mut buffer[self.end..]) {
                Ok(0) => return Ok(Coming::End),
                Ok(count) => {
                    self.end += count;
                    // as: usize has no From to u64
                    self.read = self.read.wrapping_add(count as u64);
                }
                Err(error) => tries.again(error)?,
            }
        }
        Ok(Coming::More)
    }
}
