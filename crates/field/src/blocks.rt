//! Blocks. A block is sixteen bytes, and stands for a polynomial over bits: the low bit of byte 0 is the coefficient of
//! x^0, the high bit of byte 15 that of x^127.
ghost use Rattle.std.specs.Prelude.{◌≡◌, bit_xor};
ghost use Rattle.polynomials.specs.Field.{pdot};
ghost use Rattle.field.specs.Blocks.{block_bytes, polynomial};

use std::ops::Add;
use std::simd::prelude::*;

/// A block, as the polynomial that it stands for. Most blocks are secret, so it has neither `Debug` nor
/// equality.
#[derive(Clone, Copy)]
pub struct Block(pub u128);

impl Block {
    /// Sixteen zero bytes.
    pub const ZERO: Block = Block(0);

    /// The block of sixteen bytes.
    #[tactic(auto, using(crate::proofs::BlockLaws::polynomial_sixteen))]
    pub fn from_bytes(bytes: &[u8; 16]) -> Block
        ensures { result.0 ≡ polynomial bytes.now }
    {
        Block(u128::from_le_bytes(*bytes))
    }

    /// The sixteen bytes of the block. They are taken from a vector, which the compiler stores whole: a number of 128 bits
    /// it shifts once for each byte.
    #[tactic(auto, using(crate::proofs::BlockLaws::halves))]
    pub fn to_bytes(self) -> [u8; 16]
        ensures value { result ≡ block_bytes self.0 }
        ensures back { polynomial result ≡ self.0 }
    {
        let low = self.0 % (1 << 64);
        let high = self.0 >> 64;
        u64x2::from_array([low as u64, high as u64])
            .to_le_bytes()
            .to_array()
    }
}

/// The sum of two blocks.
impl Add for Block {
    type Output = Block;

    ghost add_gives = { λ a b sum. sum.0 ≡ bit_xor a.0 b.0 };

    fn add(self, other: Block) -> Block {
        Block(self.0 ^ other.0)
    }
}

/// The product of two blocks in the field.
pub fn pdot(a: Block, b: Block) -> Block
    ensures { result.0 ≡ pdot a.0 b.0 }
{
    Block(polynomials::pdot(a.0, b.0))
}
