//! The blocks of a bit string, one after another.
ghost use Rattle.std.specs.Prelude.{◌≡◌, ◌≤◌, length};
ghost use Rattle.std.specs.Iterator.{YieldsFirstBy, item_count};
ghost use Rattle.units.specs.Spare.{cleared};
ghost use Rattle.field.specs.Blocks.{blocks, polynomial};

use super::blocks::Block;
use units::{BitString, Bits, clear_spare};

/// The blocks that a bit string has left, sixteen bytes to each. Spare bits count as zero, and the last block is filled
/// with zero bytes.
#[derive(Drop)]
pub(crate) struct Blocks<'a>(pub BitString<'a>);

impl Iterator for Blocks<'_> {
    type Item = Block;

    ghost next_gives = { YieldsFirstBy (λ b. b.0) (λ s. blocks (cleared s.0.bits.0 s.0.bytes.now)) };

    ghost remaining = { item_count (λ s. blocks (cleared s.0.bits.0 s.0.bytes.now)) };

    #[tactic(auto, using(crate::proofs::BlockLaws::next_block))]
    fn next(&mut self) -> Option<Block> {
        let BitString { bits, bytes } = self.0;
        if bytes.is_empty() {
            return None;
        }
        let (part, later) = bytes.split_at(bytes.len().min(16));
        self.0 = BitString {
            bits: Bits(bits.0.saturating_sub(128)),
            bytes: later,
        };
        Some(cleared_block(bits, part))
    }
}

/// The block of at most sixteen bytes, with the spare bits cleared.
#[tactic(auto, using(crate::proofs::BlockLaws::polynomial_filled))]
fn cleared_block(bits: Bits, bytes: &[u8]) -> Block
    requires { length bytes.now ≤ 16 }
    ensures { result.0 ≡ polynomial (cleared bits.0 bytes.now) }
{
    let mut block = [0u8; 16];
    block[..bytes.len()].copy_from_slice(bytes);
    clear_spare(bits, &mut block);
    Block::from_bytes(&block)
}
