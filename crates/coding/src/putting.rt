// Numbers, samples and zeros into bytes, from a place on, as far as there is room.
ghost use Rattle.std.specs.Prelude.{◌≡◌, ◌-◌, replicate};
ghost use Rattle.std.proofs.lemmas.List.Edits.{sets};
ghost use Rattle.coding.specs.Numbers.{bytes_of};
ghost use Rattle.coding.specs.Samples.{word_of, bytes_of_samples};

// A number, in so many bytes. There may be more of them than `to_le_bytes` gives, so they are worked out
// here.
#[tactic(auto, using(crate::proofs::Parts::number_turn, crate::proofs::Parts::number_end))]
pub fn put_number(buffer: &mut [u8], at: usize, size: usize, x: u64)
    ensures { buffer.new ≡ sets buffer.old at (bytes_of size x) }
{
    let end = buffer.len().min(at.saturating_add(size));
    let mut rest = x;
    for place in at..end {
        buffer[place] = (rest % 256) as u8; // as: a remainder by 256 is a byte
        rest /= 256;
    }
}

// Samples, two bytes each.
#[tactic(auto, using(crate::proofs::Parts::samples_turn, crate::proofs::Parts::samples_end, crate::proofs::Parts::sets_out))]
pub fn put_samples(buffer: &mut [u8], at: usize, samples: &[i16])
    ensures { buffer.new ≡ sets buffer.old at (bytes_of_samples samples.now) }
{
    let mut place = at;
    for sample in samples {
        if buffer.len() <= place {
            return;
        }
        put_number(buffer, place, 2, word(*sample));
        place += 2;
    }
}

// Zeros, up to a place and not in it.
#[tactic(auto, using(crate::proofs::Parts::zeros_front, crate::proofs::Parts::zeros_end))]
pub fn put_zeros(buffer: &mut [u8], at: usize, end: usize)
    ensures { buffer.new ≡ sets buffer.old at (replicate (end - at) 0) }
{
    let last = end.min(buffer.len());
    if at < last {
        buffer[at..last].fill(0);
    }
}

// The word of a sample: two's complement.
#[tactic(auto, using(crate::proofs::Bytes::word_cast))]
fn word(x: i16) -> u64
    ensures { result ≡ word_of x }
{
    x.cast_unsigned().into()
}
