// Numbers in any run of bytes, little-endian: what lies past the end reads as 0.
ghost use Rattle.std.specs.Prelude.{◌≡◌, ℕ, ◌+◌, ◌<◌, slice_index};
ghost use Rattle.coding.specs.Numbers.{number_at};

// An unsigned number that is read from bytes.
pub trait Number {
    // How many bytes it has, and the number that it is.
    ghost size: { ℕ };

    ghost value: { Self → ℕ };

    // The number at a place.
    fn read(bytes: &[u8], at: usize) -> Self
        ensures { value result ≡ number_at bytes.now at size };
}

impl Number for u8 {
    ghost size = { 1 };

    ghost value = { λ n. n };

    #[tactic(auto, using(crate::proofs::Numbers::one_byte))]
    fn read(bytes: &[u8], at: usize) -> u8 {
        bytes.get(at).copied().unwrap_or(0)
    }
}

impl Number for u16 {
    ghost size = { 2 };

    ghost value = { λ n. n };

    #[tactic(auto, using(crate::proofs::Numbers::two_bytes))]
    fn read(bytes: &[u8], at: usize) -> u16 {
        u16::from_le_bytes(bytes_at(bytes, at))
    }
}

impl Number for u64 {
    ghost size = { 8 };

    ghost value = { λ n. n };

    #[tactic(auto, using(crate::proofs::Numbers::eight_bytes))]
    fn read(bytes: &[u8], at: usize) -> u64 {
        u64::from_le_bytes(bytes_at(bytes, at))
    }
}

// So many bytes, from a place on, with zeros past the end.
fn bytes_at<const N: usize>(bytes: &[u8], at: usize) -> [u8; N]
    ensures { (k : ℕ) → k < N → slice_index result k ≡ slice_index bytes.now (at + k) }
{
    let rest = &bytes[at.min(bytes.len())..];
    if let Some(part) = rest.first_chunk() {
        return *part;
    }
    let mut part = [0; N];
    part[..rest.len()].copy_from_slice(rest);
    part
}
