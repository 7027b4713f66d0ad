//! Two generators as one, whose keystream is the sum of theirs.
ghost use Rattle.std.specs.Prelude.{◌≡◌};
ghost use Rattle.generator.specs.Pairs.{PairStands, both};
ghost use Rattle.generator.specs.Soundness.{both_sound};

use super::generators::{Generator, Nonce, short};
use field::Block;
use units::Refusal;

/// Two generators as one.
#[derive(Drop)]
pub struct Pair<A, B> {
    left: A,
    right: B,
}

impl<A: Generator, B: Generator> Pair<A, B> {
    /// The pair of two generators. Nothing tells whether they are two alike, whose sum is zero.
    #[tactic(auto, using(crate::proofs::PairLaws::pair_stands))]
    pub fn new(left: A, right: B) -> Pair<A, B>
        ensures left { result.left ≡ left }
        ensures right { result.right ≡ right }
        ensures stands { PairStands }
    {
        Pair { left, right }
    }
}

/// The smaller reach, and the sums of the blocks.
impl<A: Generator, B: Generator> Generator for Pair<A, B> {
    ghost meaning = { λ pair. both (A.meaning pair.left) (B.meaning pair.right) };

    fn reach(&mut self, nonce: &Nonce) -> u64 {
        self.left.reach(nonce).min(self.right.reach(nonce))
    }

    fn block(&mut self, nonce: &Nonce, index: u64) -> Result<Block, Refusal> {
        nonce.twelve_bytes();
        let left = self.left.block(nonce, index);
        let right = self.right.block(nonce, index);
        let (Ok(left), Ok(right)) = (left, right) else {
            return Err(short(self.reach(nonce)));
        };
        Ok(left + right)
    }

    ghost sound = { λ pair. both_sound (A.meaning pair.left) (B.meaning pair.right) (A.sound pair.left) (B.sound pair.right) };
}
