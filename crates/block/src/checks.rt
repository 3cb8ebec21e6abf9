// The two check words of a block.
ghost use Rattle.std.specs.Prelude.{not, ◌≡◌};
ghost use Rattle.block.specs.Block.{word, check_sum, weighted_sum};
ghost use Rattle.block.specs.Refusals.{wrong_check};

use crate::fields;

#[derive(Clone, Copy, PartialEq, Eq)]
pub struct CheckWords {
    pub sum: u16,
    pub weighted: u16,
}

impl CheckWords {
    // Those that stand in a block.
    fn stored(block: &[u8; 512]) -> CheckWords
        ensures sum { result.sum ≡ word block.now 254 }
        ensures weighted { result.weighted ≡ word block.now 255 }
    {
        CheckWords {
            sum: fields::word(block, 254),
            weighted: fields::word(block, 255),
        }
    }

    // Those that its first 254 words ask for: both sums in one pass, far below 2^64, and one
    // remainder at the end of each.
    #[tactic(auto, using(crate::proofs::Numbers::sums))]
    pub fn of(block: &[u8; 512]) -> CheckWords
        ensures sum { result.sum ≡ check_sum block.now }
        ensures weighted { result.weighted ≡ weighted_sum block.now }
    {
        let mut sum: usize = 0;
        let mut weighted: usize = 0;
        for i in 0..254 {
            let w = usize::from(fields::word(block, i));
            sum += w;
            weighted += (254 - i) * w;
        }
        CheckWords {
            // as: a remainder by 65535 fits 16 bits
            sum: (sum % 65535) as u16,
            weighted: (weighted % 65535) as u16,
        }
    }
}

// Whether the stored check words are those that the block asks for.
#[tactic(auto, using(crate::proofs::Conditions::check_is))]
pub fn are_right(block: &[u8; 512]) -> bool
    ensures { result ≡ not (wrong_check block.now) }
{
    CheckWords::stored(block) == CheckWords::of(block)
}
