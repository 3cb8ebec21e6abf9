// The fields of a record.
ghost use Rattle.std.specs.Prelude.{◌≡◌};
ghost use Rattle.replay.specs.Signed.{signed as signed_of};

use coding::Number;

// The bytes of a record that are not read yet. Each method reads the field that comes next,
// little-endian, and zeros past the end. There is one for each width, named as main.rt names the fields:
// one for all would be told the width at each call, and be no plainer.
#[derive(Clone, Copy)]
pub struct Fields<'a>(&'a [u8]);

impl<'a> Fields<'a> {
    // The fields behind the byte for a record's kind.
    pub fn of(record: &'a [u8]) -> Fields<'a> {
        let mut fields = Fields(record);
        fields.take(1);
        fields
    }

    pub fn u8(&mut self) -> u8 {
        u8::read(self.take(1), 0)
    }

    pub fn u16(&mut self) -> u16 {
        u16::read(self.take(2), 0)
    }

    pub fn u64(&mut self) -> u64 {
        u64::read(self.take(8), 0)
    }

    pub fn i16(&mut self) -> i16 {
        self.u16().cast_signed()
    }

    pub fn i64(&mut self) -> i64 {
        signed(self.u64())
    }

    // So many numbers of eight bytes.
    pub fn numbers<const N: usize>(&mut self) -> [u64; N] {
        let mut numbers = [0; N];
        for number in &mut numbers {
            *number = self.u64();
        }
        numbers
    }

    // All that is left.
    pub fn rest(self) -> &'a [u8] {
        self.0
    }

    // All that is left as samples, as many as the buffer holds: of a lent buffer a part is handed back.
    pub fn samples<'b>(self, buffer: &'b mut [i16]) -> &'b [i16] {
        coding::decode(self.0, buffer);
        let count = buffer.len().min(self.0.len() / 2);
        &buffer[..count]
    }

    // The next so many bytes, or all that are left.
    fn take(&mut self, n: usize) -> &'a [u8] {
        let (taken, left) = self.0.split_at(n.min(self.0.len()));
        self.0 = left;
        taken
    }
}

// The signed number that 64 bits stand for, two's complement: a function, for its clause.
#[tactic(auto, unfolding(crate::specs::Signed::signed))]
fn signed(word: u64) -> i64
    ensures { result ≡ signed_of word }
{
    word.cast_signed()
}
