// Record 9: a block to be made in a lent buffer. The buffer's length is the last field, behind the
// samples, of which more may come than are kept.
use crate::Player;
use crate::faults::Stop;
use crate::fields::Fields;
use crate::records::{Record, TOO_MANY_BYTES, TOO_MANY_IN_BLOCK};
use coding::Number;
use refusal::Refusal;
use std::fmt;

// Bytes of this number are in the buffer before the call.
const HELD: u8 = 165;

// The digits of hexadecimal.
const DIGITS: &[u8; 16] = b"0123456789abcdef";

impl Player {
    // Makes a block of the samples that are kept, once all of the record came, and shows the buffer.
    pub fn write(&mut self, record: Record) -> Result<(), Stop> {
        let mut buffer = [0; TOO_MANY_IN_BLOCK];
        let mut fields = Fields::of(self.streams.ahead(record.kept));
        let code = fields.u8().into();
        let before = fields.u64();
        let _count = fields.u16();
        let samples = fields.samples(&mut buffer);
        self.pass(record)?;
        let size = usize::from(self.last_field()?);
        // So many bytes stand for every longer buffer: the call refuses it by the code alone or else
        // with 4, and leaves it as it was.
        let mut lent = [HELD; TOO_MANY_BYTES];
        let held = lent.len().min(size);
        let answer = block::write(code, before, samples, &mut lent[..held]);
        self.show(answer, size, &lent);
        Ok(())
    }

    // The field behind all that is kept and passed.
    fn last_field(&mut self) -> Result<u16, Stop> {
        self.streams.ready(2);
        if self.streams.unused() < 2 {
            return Err(self.cut());
        }
        let field = u16::read(self.streams.ahead(2), 0);
        self.streams.skip(2);
        Ok(field)
    }

    // The answer's number and the buffer of such a size. One longer than what is lent is shown piece
    // by piece: all of it is bytes of `HELD`.
    fn show(&mut self, answer: Result<(), Refusal>, size: usize, lent: &[u8; TOO_MANY_BYTES]) {
        let mut answer = Some(answer);
        let mut left = size;
        // No loop over the pieces of a slice, as the one lent buffer stands for each of them. To count them
        // would take a division that leaves a last one over, full or not, and be no plainer.
        while TOO_MANY_BYTES < left {
            let answer = answer.take();
            self.streams.print(Piece {
                answer,
                bytes: lent,
            });
            left -= TOO_MANY_BYTES;
        }
        let bytes = &lent[..left];
        self.streams
            .print(format_args!("{}\n", Piece { answer, bytes }));
    }
}

// A piece of the line: where it is the first, the answer's number, and a space before a byte to show;
// then bytes in hexadecimal, two digits each, in lower case.
#[derive(Clone, Copy)]
struct Piece<'a> {
    answer: Option<Result<(), Refusal>>,
    bytes: &'a [u8],
}

impl fmt::Display for Piece<'_> {
    fn fmt<W: fmt::Write>(&self, f: &mut fmt::Formatter<W>) -> fmt::Result {
        if let Some(answer) = self.answer {
            let number = refusal::given(answer);
            let space = if self.bytes.is_empty() { "" } else { " " };
            write!(f, "write {number}{space}")?;
        }
        // So many bytes are shown at once: `{byte:02x}` takes ten times the instructions. No part is longer
        // than its digits have room for, so the `min` cuts nothing.
        for part in self.bytes.chunks(64) {
            let mut digits = [0; 128];
            for (j, &byte) in part.iter().enumerate() {
                digits[2 * j] = DIGITS[usize::from(byte / 16)];
                digits[2 * j + 1] = DIGITS[usize::from(byte % 16)];
            }
            let end = digits.len().min(2 * part.len());
            let text = str::from_utf8(&digits[..end]).map_err(|_| fmt::Error)?;
            f.write_str(text)?;
        }
        Ok(())
    }
}
