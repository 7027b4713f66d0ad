//! Keystream, block by block, and covering by it.
ghost use Rattle.std.specs.Prelude.{◌≡◌, ℕ, ◌<◌, ◌≤◌, ◌+◌, length};
ghost use Rattle.generator.specs.Generators.{IsNonce, Same};
ghost use Rattle.cover.specs.Keystream.{covered};
ghost use Rattle.cover.specs.WorkArea.{slot};
ghost use Rattle.units.specs.Lengths.{begun, filled};
ghost use Rattle.units.specs.Sums.{sums};

use super::work_area::{BLOCK, CURRENT, WorkArea};
use generator::{Generator, Nonce};
use units::{BitString, clear_spare};

/// Puts a block of keystream, which is within the reach, at a place of the work area. The blocks before it
/// stay.
pub(crate) fn fetch<G: Generator>(
    generator: &mut G,
    nonce: &Nonce,
    index: u64,
    area: &mut WorkArea<'_>,
    place: usize,
)
    requires nonce { IsNonce nonce.now.0 }
    requires within { index < (G.meaning generator.now).reach nonce.now.0 }
    requires room { place + 16 ≤ length area.now.bytes.now }
    ensures name { area.new.bytes.ghost_name ≡ area.old.bytes.ghost_name }
    ensures length { length area.new.bytes.now ≡ length area.old.bytes.now }
    ensures here { slot area.new.bytes.now place ≡ (G.meaning generator.old).block nonce.now.0 index }
    ensures before { (i : ℕ) → i + 16 ≤ place → slot area.new.bytes.now i ≡ slot area.old.bytes.now i }
    ensures same { Same (G.meaning generator.old) (G.meaning generator.new) }
{
    match generator.block(nonce, index) {
        Ok(block) => area.put(place, block),
        Err(_) => unreachable!(),
    }
}

/// Writes so many bits of text plus the keystream under a nonce, which is within the reach. The spare bits are cleared.
#[tactic(auto, unfolding(units::specs::Lengths::begun, units::specs::Lengths::filled))]
pub(crate) fn cover<G: Generator>(
    generator: &mut G,
    nonce: &Nonce,
    area: &mut WorkArea<'_>,
    text: BitString<'_>,
    out: &mut [u8],
)
    requires nonce { IsNonce nonce.now.0 }
    requires within { begun text.bits.0 ≤ (G.meaning generator.now).reach nonce.now.0 }
    requires room { length area.now.bytes.now ≡ 64 }
    requires text { length text.bytes.now ≡ filled text.bits.0 }
    requires out { length out.now ≡ filled text.bits.0 }
    ensures name { area.new.bytes.ghost_name ≡ area.old.bytes.ghost_name }
    ensures room { length area.new.bytes.now ≡ 64 }
    ensures same { Same (G.meaning generator.old) (G.meaning generator.new) }
    ensures out { out.new ≡ covered (G.meaning generator.old) nonce.now.0 text.entry.bits.0 text.entry.bytes.now }
{
    let (whole, left) = text.bits.split();
    let whole = u64::from(whole);
    for index in 0..whole {
        let at = BLOCK * index as usize;
        let to = at + BLOCK;
        cover_block(
            generator,
            nonce,
            index,
            area,
            &text.bytes[at..to],
            &mut out[at..to],
        );
    }
    if left.0 > 0 {
        let at = BLOCK * whole as usize;
        cover_block(
            generator,
            nonce,
            whole,
            area,
            &text.bytes[at..],
            &mut out[at..],
        );
    }
    clear_spare(text.bits, out);
}

/// Writes a block of text, or less, plus the block of keystream at an index, which is within the reach.
fn cover_block<G: Generator>(
    generator: &mut G,
    nonce: &Nonce,
    index: u64,
    area: &mut WorkArea<'_>,
    text: &[u8],
    out: &mut [u8],
)
    requires nonce { IsNonce nonce.now.0 }
    requires within { index < (G.meaning generator.now).reach nonce.now.0 }
    requires room { length area.now.bytes.now ≡ 64 }
    requires short { length text.now ≤ 16 }
    requires alike { length out.now ≡ length text.now }
    ensures name { area.new.bytes.ghost_name ≡ area.old.bytes.ghost_name }
    ensures room { length area.new.bytes.now ≡ 64 }
    ensures same { Same (G.meaning generator.old) (G.meaning generator.new) }
    ensures out { out.new ≡ sums text.now ((G.meaning generator.old).block nonce.now.0 index) }
{
    fetch(generator, nonce, index, area, CURRENT);
    area.add_current(text, out);
}
