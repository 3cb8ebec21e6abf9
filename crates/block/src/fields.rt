// What the check of a block reads, with no test for the end, and how many samples one may hold.
ghost use Rattle.std.specs.Prelude.{◌&&◌, ◌≡◌, ◌==◌, ◌<◌, leb};
ghost use Rattle.std.specs.List.{list_all};
ghost use Rattle.block.specs.Block.{word};

// One of a block's words, which have two bytes each. In an array no place needs a test for the end, as
// it does where coding reads.
#[tactic(auto, using(crate::proofs::Numbers::word_is))]
pub fn word(block: &[u8; 512], i: usize) -> u16
    requires { i < 256 }
    ensures { result ≡ word block.now i }
{
    u16::from_le_bytes([block[2 * i], block[2 * i + 1]])
}

// Whether a block may hold so many samples.
pub fn may_hold(count: usize) -> bool
    ensures { result ≡ (leb 1 count && leb count 248) }
{
    (1..=248).contains(&count)
}

// Whether all of some bytes are zero.
pub fn are_zero(bytes: &[u8]) -> bool
    ensures { result ≡ list_all (λ byte. byte == 0) bytes.now }
{
    bytes.iter().all(|&byte| byte == 0)
}
