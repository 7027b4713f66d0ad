//! Keystream: the blocks that a generator gives one after another.
ghost use Rattle.std.specs.Prelude.{◌≡◌, length};
ghost use Rattle.generator.specs.Generators.{Answers, Same};
ghost use Rattle.generator.specs.Keystreams.{answer, written};

use super::generators::{Generator, Nonce, short};
use field::Block;
use units::Refusal;

/// Writes the blocks under a nonce into `out`, from the index `first` on. Where they are not all below the reach, it is
/// refused with the reach as place, and nothing is written.
pub fn keystream<G: Generator>(
    generator: &mut G,
    nonce: &Nonce,
    first: u64,
    out: &mut [Block],
) -> Result<(), Refusal>
    ensures value { result ≡ answer (G.meaning generator.old) nonce.now.0 first (length out.old) }
    ensures after { out.new ≡ written (G.meaning generator.old) nonce.now.0 first out.old }
    ensures same { Same (G.meaning generator.old) (G.meaning generator.new) }
    ensures answers { Answers (G.meaning generator.old) }
{
    nonce.twelve_bytes();
    let reach = generator.reach(nonce);
    let end = first.checked_add(out.len() as u64);
    if !out.is_empty() && end.is_none_or(|end| end > reach) {
        return Err(short(reach));
    }
    for (k, block) in out.iter_mut().enumerate() {
        *block = generator.block(nonce, first + k as u64)?;
    }
    Ok(())
}
