//! NEA5: a message plus the keystream.
ghost use Rattle.std.specs.Prelude.{◌≡◌, length};
ghost use Rattle.generator.specs.Generators.{Same};
ghost use Rattle.cover.specs.Answers.{outcome};
ghost use Rattle.cover.specs.Encryption.{Nea5Twice, nea5};
ghost use Rattle.cover.specs.WorkArea.{wiped};

use super::keystream::cover;
use super::laws;
use super::refusing::{refuse_if, refuse_short, unfilled};
use super::work_area::{WORK_AREA, WorkArea};
use generator::Generator;
use nonces::Parameters;
use units::{BitString, Bits, Reason, Refusal};

/// Writes the input plus the keystream, with the spare bits cleared. The same call on what it wrote gives the input
/// back, its spare bits cleared.
///
/// The work area is zero afterwards, whatever the answer. A refusal leaves the output as it was.
pub fn nea5<G: Generator>(
    generator: &mut G,
    work: &mut [u8],
    parameters: &Parameters,
    input: BitString<'_>,
    output: &mut [u8],
) -> Result<(), Refusal>
    ensures outcome { outcome result output.new ≡ nea5 (G.meaning generator.old) (length work.old) parameters.now input.entry.bits.0 input.entry.bytes.now output.old }
    ensures work { work.new ≡ wiped work.old }
    ensures same { Same (G.meaning generator.old) (G.meaning generator.new) }
    ensures twice { Nea5Twice }
{
    twice();
    let mut area = WorkArea::new(work);
    refuse_if(area.len() != WORK_AREA, Reason::WorkArea)?;
    let nonce = parameters.nonce(None, false, false)?;
    refuse_if(input.bits == Bits(0), Reason::BitLength)?;
    refuse_if(unfilled(input.bits, input.bytes), Reason::InputBytes)?;
    refuse_if(unfilled(input.bits, output), Reason::OutputBytes)?;
    refuse_short(generator, &nonce, u64::from(input.bits.blocks()))?;
    cover(generator, &nonce, &mut area, input, output);
    Ok(())
}

/// For a proof alone: what holds of NEA5, and no more, of which the call's proof would have to look at each law.
fn twice()
    ensures { Nea5Twice }
{
    laws();
}
