// Samples from bytes, two bytes each.
ghost use Rattle.std.specs.Prelude.{◌≡◌};
ghost use Rattle.coding.specs.Numbers.{number_at};
ghost use Rattle.coding.specs.Samples.{signed, decoded_into};

// Puts the samples in `bytes` into the first places of a buffer, as far as both go.
pub fn decode(bytes: &[u8], samples: &mut [i16])
    ensures { samples.new ≡ decoded_into bytes.now samples.old }
{
    let (pairs, _) = bytes.as_chunks::<2>();
    let count = pairs.len().min(samples.len());
    // By index: after a loop over iter_mut with another iterator a proof knows the length alone.
    for (j, pair) in pairs[..count].iter().enumerate() {
        samples[j] = sample(pair);
    }
}

// The sample of two bytes: two's complement.
#[tactic(auto, using(crate::proofs::Decoding::sample_of))]
fn sample(pair: &[u8; 2]) -> i16
    ensures { result ≡ signed (number_at pair.now 0 2) }
{
    i16::from_le_bytes(*pair)
}
