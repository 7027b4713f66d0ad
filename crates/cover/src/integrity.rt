//! NIA5: a tag over a text, which stands as AAD, with an empty message.
ghost use Rattle.std.specs.Prelude.{◌≡◌, length};
ghost use Rattle.generator.specs.Generators.{Same};
ghost use Rattle.cover.specs.Answers.{outcome};
ghost use Rattle.cover.specs.Integrity.{nia5};
ghost use Rattle.cover.specs.Tags.{TwoTags};
ghost use Rattle.cover.specs.WorkArea.{wiped};

use super::laws;
use super::refusing::{refuse_if, refuse_short, unfilled};
use super::tags::{KEYS, put_tag};
use super::work_area::{WORK_AREA, WorkArea};
use generator::Generator;
use nonces::Parameters;
use units::{BitString, Bits, Reason, Refusal};

/// An empty message.
const NOTHING: BitString<'static> = BitString {
    bits: Bits(0),
    bytes: &[],
};

/// Writes the tag of a text, of `tag_size` bytes. Comparing it with another is left to the caller.
///
/// The work area is zero afterwards, whatever the answer. A refusal leaves the place for the tag as it was.
pub fn nia5<G: Generator>(
    generator: &mut G,
    work: &mut [u8],
    parameters: &Parameters,
    tag_size: u8,
    text: BitString<'_>,
    tag: &mut [u8],
) -> Result<(), Refusal>
    ensures outcome { outcome result tag.new ≡ nia5 (G.meaning generator.old) (length work.old) parameters.now tag_size text.entry.bits.0 text.entry.bytes.now tag.old }
    ensures work { work.new ≡ wiped work.old }
    ensures same { Same (G.meaning generator.old) (G.meaning generator.new) }
    ensures tags { TwoTags }
{
    tags();
    let mut area = WorkArea::new(work);
    refuse_if(area.len() != WORK_AREA, Reason::WorkArea)?;
    let nonce = parameters.nonce(Some(tag_size), false, true)?;
    refuse_if(text.bits == Bits(0), Reason::BitLength)?;
    refuse_if(unfilled(text.bits, text.bytes), Reason::InputBytes)?;
    refuse_if(tag.len() != usize::from(tag_size), Reason::OutputBytes)?;
    refuse_short(generator, &nonce, KEYS)?;
    put_tag(generator, &nonce, &mut area, text, NOTHING);
    area.copy_to(tag);
    Ok(())
}

/// For a proof alone: what holds of two tags, and no more, of which the call's proof would have to look at each law.
fn tags()
    ensures { TwoTags }
{
    laws();
}
