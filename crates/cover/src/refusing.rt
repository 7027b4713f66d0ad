//! What the calls of the cover test before they write to an output, each test in the order of the refusals' numbers.
ghost use Rattle.std.specs.Prelude.{◌≡◌, length};
ghost use Rattle.units.specs.Refusals.{told};
ghost use Rattle.units.specs.Lengths.{filled, unlike};
ghost use Rattle.generator.specs.Generators.{Same};
ghost use Rattle.cover.specs.Answers.{refused_here, too_short};

use generator::generators::short;
use generator::{Generator, Nonce};
use nonces::refuse;
use units::{Bits, Reason, Refusal};

/// Refuses for a reason, where a test is met.
pub(crate) fn refuse_if(met: bool, reason: Reason) -> Result<(), Refusal>
    ensures { result ≡ told (refused_here met reason) }
{
    if met { Err(refuse(reason)) } else { Ok(()) }
}

/// Whether a number of bytes is another than so many bits fill.
pub(crate) fn unfilled(bits: Bits, bytes: &[u8]) -> bool
    ensures { result ≡ unlike (length bytes.now) (filled bits.0) }
{
    bytes.len() != bits.bytes().0
}

/// Refuses where the reach under a nonce is below the blocks that are needed.
pub(crate) fn refuse_short<G: Generator>(
    generator: &mut G,
    nonce: &Nonce,
    need: u64,
) -> Result<(), Refusal>
    ensures value { result ≡ told (too_short (G.meaning generator.old) nonce.now.0 need) }
    ensures same { Same (G.meaning generator.old) (G.meaning generator.new) }
{
    let reach = generator.reach(nonce);
    if reach < need {
        Err(short(reach))
    } else {
        Ok(())
    }
}
