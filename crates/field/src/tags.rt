//! The tag: AAD and ciphertext folded with H, their lengths added, the sum multiplied by Q, and P added.
ghost use Rattle.std.specs.Prelude.{◌≡◌, ◌++◌, length, drop};
ghost use Rattle.field.specs.Tags.{TagStands, lengths, tag, whole_tag};

use super::blocks::{Block, pdot};
use super::folds::fold;
use units::{BitString, Bits};

/// H, Q and P, the blocks that a tag is made with.
#[derive(Clone, Copy)]
pub struct TagKeys {
    pub h: Block,
    pub q: Block,
    pub p: Block,
}

impl TagKeys {
    /// Writes the tag at the start of `out`, as many of its bytes as `out` has; what `out` has past sixteen stays.
    #[tactic(auto, using(crate::proofs::TagLaws::tag_written, crate::proofs::TagLaws::tag_stands))]
    pub fn tag(&self, aad: BitString<'_>, ciphertext: BitString<'_>, out: &mut [u8])
        ensures after { out.new ≡ tag self.now.h.0 self.now.q.0 self.now.p.0 (length out.old) aad.entry.bits.0 aad.entry.bytes.now ciphertext.entry.bits.0 ciphertext.entry.bytes.now ++ drop 16 out.old }
        ensures stands { TagStands }
    {
        polynomials::laws();
        let whole = self.whole_tag(aad, ciphertext).to_bytes();
        let size = out.len().min(16);
        out[..size].copy_from_slice(&whole[..size]);
    }

    /// The sixteen bytes that a tag is the beginning of, as a block.
    #[tactic(auto, unfolding(crate::specs::Tags::whole_tag))]
    pub fn whole_tag(&self, aad: BitString<'_>, ciphertext: BitString<'_>) -> Block
        ensures { result.0 ≡ whole_tag self.now.h.0 self.now.q.0 self.now.p.0 aad.entry.bits.0 aad.entry.bytes.now ciphertext.entry.bits.0 ciphertext.entry.bytes.now }
    {
        let of_aad = fold(self.h, Block::ZERO, aad);
        let of_both = fold(self.h, of_aad, ciphertext);
        pdot(of_both + lengths(ciphertext.bits, aad.bits), self.q) + self.p
    }
}

/// The message bits as four bytes at offset 0, and the AAD bits at offset 8, the least significant byte first.
#[tactic(auto, unfolding(crate::specs::Tags::lengths))]
pub fn lengths(bits: Bits, aad_bits: Bits) -> Block
    ensures { result.0 ≡ lengths bits.0 aad_bits.0 }
{
    Block(u128::from(bits.0) + (u128::from(aad_bits.0) << 64))
}
