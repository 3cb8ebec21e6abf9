// Bytes that wait to be written, in a buffer of a fixed size.
ghost use Rattle.std.specs.Prelude.{◌≡◌, ◌↔◌, ◌+◌, ◌≤◌, [], ◌++◌, length, take, IsOk, OnOk, OnErr};

use std::fmt;
use std::fmt::Write;

// Bytes that wait to be written: the first `used` of the array. An ArrayVec would do the same, but it
// can't be copied, and a page can.
#[derive(Clone, Copy)]
pub struct Waiting<const N: usize> {
    bytes: [u8; N],
    used: usize,
    ghost inside: { used ≤ N },
}

impl<const N: usize> Waiting<N> {
    ghost use Rattle.page.specs.Waiting.{held_by};

    // Nothing waits.
    pub fn new() -> Self
        ensures { held_by result ≡ [] }
    {
        Waiting {
            bytes: [0; N],
            used: 0,
        }
    }

    // The bytes that wait.
    pub fn held(&self) -> &[u8]
        ensures { result.now ≡ held_by self.now }
    {
        let bytes = &self.bytes[..];
        &bytes[..self.used]
    }

    // Bytes go behind those that wait, where there is room for all of them.
    pub fn put(&mut self, bytes: &[u8]) -> Result<(), fmt::Error>
        ensures fits { IsOk result ↔ (length (held_by self.old) + length bytes.now ≤ N) }
        ensures ok { OnOk result (held_by self.new ≡ held_by self.old ++ bytes.now) }
        ensures err { OnErr result (self.new ≡ self.old) }
    {
        if N - self.used < bytes.len() {
            return Err(fmt::Error);
        }
        let end = self.used + bytes.len();
        let held = &mut self.bytes[..];
        held[self.used..end].copy_from_slice(bytes);
        self.used = end;
        Ok(())
    }

    // Only the first so many bytes wait.
    pub fn keep(&mut self, n: usize)
        ensures { held_by self.new ≡ take n (held_by self.old) }
    {
        self.used = self.used.min(n);
    }
}

// Text goes behind what waits, as far as there is room.
impl<const N: usize> Write for Waiting<N> {
    ghost use Rattle.page.specs.Waiting.{held_by};

    ghost write_str_gives = { λ old text new. held_by new ≡ held_by old ++ text };

    fn write_str(&mut self, text: &str) -> fmt::Result {
        self.put(text.as_bytes())
    }
}
