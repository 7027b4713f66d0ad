//! NCA5: a message covered, with a tag over AAD and ciphertext.
ghost use Rattle.std.specs.Prelude.{◌≡◌, length};
ghost use Rattle.generator.specs.Generators.{Same};
ghost use Rattle.cover.specs.Answers.{outcome};
ghost use Rattle.cover.specs.Combined.{Nca5Stands, covering, nca5_cover, nca5_open};
ghost use Rattle.cover.specs.WorkArea.{Holds, held, wiped};

use super::keystream::cover;
use super::laws;
use super::refusing::{refuse_if, refuse_short, unfilled};
use super::tags::{KEYS, put_tag};
use super::work_area::{WORK_AREA, WorkArea};
use generator::Generator;
use nonces::Parameters;
use units::{BitString, Reason, Refusal};

/// Writes the ciphertext of a message, with the spare bits cleared, and its tag of `tag_size` bytes.
///
/// The work area is zero afterwards, whatever the answer. A refusal leaves ciphertext and tag as they were.
pub fn nca5_cover<G: Generator>(
    generator: &mut G,
    work: &mut [u8],
    parameters: &Parameters,
    tag_size: u8,
    aad: BitString<'_>,
    message: BitString<'_>,
    ciphertext: &mut [u8],
    tag: &mut [u8],
) -> Result<(), Refusal>
    ensures outcome { covering result ciphertext.new tag.new ≡ nca5_cover (G.meaning generator.old) (length work.old) parameters.now tag_size aad.entry.bits.0 aad.entry.bytes.now message.entry.bits.0 message.entry.bytes.now ciphertext.old tag.old }
    ensures work { work.new ≡ wiped work.old }
    ensures same { Same (G.meaning generator.old) (G.meaning generator.new) }
    ensures stands { Nca5Stands }
{
    stands();
    WorkArea::new(work).nca5_cover(
        generator, parameters, tag_size, aad, message, ciphertext, tag,
    )
}

/// Writes the message of a ciphertext, if the tag of `tag_size` bytes is that of AAD and ciphertext. The whole tag is
/// compared before a byte of the message is written.
///
/// The work area is zero afterwards, whatever the answer. A refusal leaves the place for the message as it was.
pub fn nca5_open<G: Generator>(
    generator: &mut G,
    work: &mut [u8],
    parameters: &Parameters,
    tag_size: u8,
    aad: BitString<'_>,
    ciphertext: BitString<'_>,
    tag: &[u8],
    message: &mut [u8],
) -> Result<(), Refusal>
    ensures outcome { outcome result message.new ≡ nca5_open (G.meaning generator.old) (length work.old) parameters.now tag_size aad.entry.bits.0 aad.entry.bytes.now ciphertext.entry.bits.0 ciphertext.entry.bytes.now tag.now message.old }
    ensures work { work.new ≡ wiped work.old }
    ensures same { Same (G.meaning generator.old) (G.meaning generator.new) }
    ensures stands { Nca5Stands }
{
    stands();
    WorkArea::new(work).nca5_open(
        generator, parameters, tag_size, aad, ciphertext, tag, message,
    )
}

impl WorkArea<'_> {
    /// `nca5_cover` in a work area that a caller guards already, and that is zero once the guard is dropped.
    pub fn nca5_cover<G: Generator>(
        &mut self,
        generator: &mut G,
        parameters: &Parameters,
        tag_size: u8,
        aad: BitString<'_>,
        message: BitString<'_>,
        ciphertext: &mut [u8],
        tag: &mut [u8],
    ) -> Result<(), Refusal>
        ensures outcome { covering result ciphertext.new tag.new ≡ nca5_cover (G.meaning generator.old) (length (held self.old)) parameters.now tag_size aad.entry.bits.0 aad.entry.bytes.now message.entry.bits.0 message.entry.bytes.now ciphertext.old tag.old }
        ensures holds { Holds self.old self.new }
        ensures same { Same (G.meaning generator.old) (G.meaning generator.new) }
    {
        let bits = message.bits;
        refuse_if(self.len() != WORK_AREA, Reason::WorkArea)?;
        let keys = parameters.nonce(Some(tag_size), true, true)?;
        let stream = parameters.nonce(Some(tag_size), true, false)?;
        refuse_if(
            unfilled(aad.bits, aad.bytes) | unfilled(bits, message.bytes),
            Reason::InputBytes,
        )?;
        let other_size = tag.len() != usize::from(tag_size);
        refuse_if(unfilled(bits, ciphertext) | other_size, Reason::OutputBytes)?;
        refuse_short(generator, &keys, KEYS)?;
        refuse_short(generator, &stream, u64::from(bits.blocks()))?;
        cover(generator, &stream, self, message, ciphertext);
        put_tag(
            generator,
            &keys,
            self,
            aad,
            BitString {
                bits,
                bytes: ciphertext,
            },
        );
        self.copy_to(tag);
        Ok(())
    }

    /// `nca5_open` in a work area that a caller guards already, and that is zero once the guard is dropped.
    pub fn nca5_open<G: Generator>(
        &mut self,
        generator: &mut G,
        parameters: &Parameters,
        tag_size: u8,
        aad: BitString<'_>,
        ciphertext: BitString<'_>,
        tag: &[u8],
        message: &mut [u8],
    ) -> Result<(), Refusal>
        ensures outcome { outcome result message.new ≡ nca5_open (G.meaning generator.old) (length (held self.old)) parameters.now tag_size aad.entry.bits.0 aad.entry.bytes.now ciphertext.entry.bits.0 ciphertext.entry.bytes.now tag.now message.old }
        ensures holds { Holds self.old self.new }
        ensures same { Same (G.meaning generator.old) (G.meaning generator.new) }
    {
        let bits = ciphertext.bits;
        refuse_if(self.len() != WORK_AREA, Reason::WorkArea)?;
        let keys = parameters.nonce(Some(tag_size), true, true)?;
        let stream = parameters.nonce(Some(tag_size), true, false)?;
        let other_size = tag.len() != usize::from(tag_size);
        let unfilled_input = unfilled(aad.bits, aad.bytes) | unfilled(bits, ciphertext.bytes);
        refuse_if(unfilled_input | other_size, Reason::InputBytes)?;
        refuse_if(unfilled(bits, message), Reason::OutputBytes)?;
        refuse_if(!ciphertext.spare_clear(), Reason::SpareBits)?;
        refuse_short(generator, &keys, KEYS)?;
        refuse_short(generator, &stream, u64::from(bits.blocks()))?;
        put_tag(generator, &keys, self, aad, ciphertext);
        let right = self.begins_with(tag);
        refuse_if(!right, Reason::WrongTag)?;
        cover(generator, &stream, self, ciphertext, message);
        Ok(())
    }
}

/// For a proof alone: what holds of NCA5, and no more, of which the calls' proofs would have to look at each law.
fn stands()
    ensures { Nca5Stands }
{
    laws();
}
