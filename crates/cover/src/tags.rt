//! The tag of a message, made in the work area.
ghost use Rattle.std.specs.Prelude.{◌≡◌, ◌≤◌, length};
ghost use Rattle.field.specs.Blocks.{block_bytes};
ghost use Rattle.field.specs.Tags.{whole_tag};
ghost use Rattle.generator.specs.Generators.{IsNonce, Same};
ghost use Rattle.cover.specs.Tags.{key_h, key_p, key_q};
ghost use Rattle.cover.specs.WorkArea.{slot};

use super::keystream::fetch;
use super::work_area::{CURRENT, H, P, Q, WorkArea};
use field::tags::lengths;
use field::{Block, fold, pdot};
use generator::{Generator, Nonce};
use units::BitString;

/// How many blocks H, Q and P are.
pub(crate) const KEYS: u64 = 3;

/// Puts H, Q and P, the first three blocks under a nonce, in their places. They are within the reach.
fn put_keys<G: Generator>(generator: &mut G, nonce: &Nonce, area: &mut WorkArea<'_>)
    requires nonce { IsNonce nonce.now.0 }
    requires within { 3 ≤ (G.meaning generator.now).reach nonce.now.0 }
    requires room { length area.now.bytes.now ≡ 64 }
    ensures name { area.new.bytes.ghost_name ≡ area.old.bytes.ghost_name }
    ensures room { length area.new.bytes.now ≡ 64 }
    ensures same { Same (G.meaning generator.old) (G.meaning generator.new) }
    ensures h { slot area.new.bytes.now 0 ≡ (G.meaning generator.old).block nonce.now.0 0 }
    ensures q { slot area.new.bytes.now 16 ≡ (G.meaning generator.old).block nonce.now.0 1 }
    ensures p { slot area.new.bytes.now 32 ≡ (G.meaning generator.old).block nonce.now.0 2 }
{
    fetch(generator, nonce, 0, area, H);
    fetch(generator, nonce, 1, area, Q);
    fetch(generator, nonce, 2, area, P);
}

/// Puts the sixteen bytes that a tag is the beginning of in the place of the current block. H, Q and P are within the
/// reach under the nonce.
#[tactic(auto, unfolding(field::specs::Tags::whole_tag))]
pub(crate) fn put_tag<G: Generator>(
    generator: &mut G,
    nonce: &Nonce,
    area: &mut WorkArea<'_>,
    aad: BitString<'_>,
    ciphertext: BitString<'_>,
)
    requires nonce { IsNonce nonce.now.0 }
    requires within { 3 ≤ (G.meaning generator.now).reach nonce.now.0 }
    requires room { length area.now.bytes.now ≡ 64 }
    ensures name { area.new.bytes.ghost_name ≡ area.old.bytes.ghost_name }
    ensures room { length area.new.bytes.now ≡ 64 }
    ensures same { Same (G.meaning generator.old) (G.meaning generator.new) }
    ensures tag { slot area.new.bytes.now 48 ≡ block_bytes (whole_tag (key_h (G.meaning generator.old) nonce.now.0) (key_q (G.meaning generator.old) nonce.now.0) (key_p (G.meaning generator.old) nonce.now.0) aad.entry.bits.0 aad.entry.bytes.now ciphertext.entry.bits.0 ciphertext.entry.bytes.now) }
{
    put_keys(generator, nonce, area);
    let of_aad = fold(area.block(H), Block::ZERO, aad);
    let of_both = fold(area.block(H), of_aad, ciphertext);
    let whole = pdot(of_both + lengths(ciphertext.bits, aad.bits), area.block(Q)) + area.block(P);
    area.put(CURRENT, whole);
}
