//! Folding data with H: each block is added to the value so far, and the sum multiplied by H.
ghost use Rattle.std.specs.Prelude.{◌≡◌, ℕ, List};
ghost use Rattle.std.specs.Iterator.{AlwaysYields, IsFinite};
ghost use Rattle.field.specs.Folds.{FoldStands, fold, folded};

use super::blocks::{Block, pdot};
use super::iter::Blocks;
use units::{BitString, Bits};

/// Folds so many bits of data with `h`, from `v`. The last block is filled with zero bytes; spare bits count as zero, and
/// in data of more bytes than the bits fill, all further bits are spare.
pub fn fold(h: Block, v: Block, input: BitString<'_>) -> Block
    ensures value { result.0 ≡ fold h.0 v.0 input.entry.bits.0 input.entry.bytes.now }
    ensures stands { FoldStands }
{
    polynomials::laws();
    let (whole, left) = input.bits.split();
    let (chunks, _) = input.bytes.as_chunks::<16>();
    let full = chunks.len().min(whole as usize);
    // Whole blocks have no spare bits. The rest is cleared block by block; where the bytes are fewer than the bits fill, it
    // has the bits of whole blocks as well.
    let rest = BitString {
        bits: Bits(left.0 + 128 * (whole - full as u32)),
        bytes: &input.bytes[full * 16..],
    };
    let v = fold_blocks(h, v, chunks[..full].iter().map(Block::from_bytes));
    fold_blocks(h, v, Blocks(rest))
}

/// Folds the blocks that an iterator gives with `h`, from `v`.
fn fold_blocks<I: Iterator<Item = Block>>(h: Block, v: Block, blocks: I) -> Block
    requires can { I.can_next blocks }
    requires ends { IsFinite (I.remaining blocks) }
    ensures { (bs : List ℕ) → AlwaysYields I.next_gives (λ b. b.0) blocks bs → result.0 ≡ folded h.0 v.0 bs }
{
    blocks.fold(v, |v, block| pdot(v + block, h))
}
