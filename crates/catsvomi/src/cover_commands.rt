//! The commands of the cover: a message covered or uncovered, a tag over a text, and both at once.
use super::answers::Covered;
use super::errors::Unreadable;
use super::fields::{BitField, Fields};
use super::sources::LineGenerator;
use cover::WORK_AREA;
use nonces::Parameters;
use units::Refusal;

/// What each call of the cover takes beside its texts and its buffers.
#[derive(Drop)]
struct Setting {
    generator: LineGenerator,
    parameters: Parameters,
    work: Vec<u8>,
}

impl Setting {
    /// Takes it from the fields, or answers which key text is none.
    fn take<'a>(fields: &mut Fields<'a>) -> Result<Result<Setting, Refusal>, Unreadable<'a>> {
        let generator = fields.generator()?;
        let parameters = message_parameters(fields)?;
        let work = fields.room("work", WORK_AREA)?;
        Ok(generator.map(|generator| Setting {
            generator,
            parameters,
            work,
        }))
    }
}

/// Takes the parameters of a message from the fields.
fn message_parameters<'a>(fields: &mut Fields<'a>) -> Result<Parameters, Unreadable<'a>> {
    Ok(Parameters {
        count: fields.number("count", 0..=u32::MAX)?,
        bearer: fields.byte("bearer")?,
        direction: fields.byte("direction")?,
        extra_iv: fields.extra_iv("extra")?,
    })
}

/// A message covered by NEA5, or a ciphertext uncovered.
pub fn nea5<'a>(fields: &mut Fields<'a>) -> Result<Result<Vec<u8>, Refusal>, Unreadable<'a>> {
    let setting = Setting::take(fields)?;
    let data = fields.any_bit_string("bits", "data")?;
    let out = fields.room("room", data.byte_length())?;
    Ok(setting.and_then(|setting| cover_data(setting, data, out)))
}

/// Fills the buffer with data covered.
fn cover_data(mut setting: Setting, data: BitField, mut out: Vec<u8>) -> Result<Vec<u8>, Refusal> {
    cover::nea5(
        &mut setting.generator,
        setting.work.as_mut_slice(),
        &setting.parameters,
        data.as_bit_string(),
        out.as_mut_slice(),
    )?;
    Ok(out)
}

/// The tag of NIA5 over a text.
pub fn nia5<'a>(fields: &mut Fields<'a>) -> Result<Result<Vec<u8>, Refusal>, Unreadable<'a>> {
    let setting = Setting::take(fields)?;
    let size = fields.byte("t")?;
    let text = fields.any_bit_string("bits", "data")?;
    let tag = fields.room("room", usize::from(size))?;
    Ok(setting.and_then(|setting| tag_text(setting, size, text, tag)))
}

/// Fills the buffer with the tag over a text.
fn tag_text(
    mut setting: Setting,
    size: u8,
    text: BitField,
    mut tag: Vec<u8>,
) -> Result<Vec<u8>, Refusal> {
    cover::nia5(
        &mut setting.generator,
        setting.work.as_mut_slice(),
        &setting.parameters,
        size,
        text.as_bit_string(),
        tag.as_mut_slice(),
    )?;
    Ok(tag)
}

/// What a message with a tag is made of: the size of the tag, the AAD, and the message or the ciphertext.
#[derive(Drop)]
struct Parts {
    size: u8,
    aad: BitField,
    data: BitField,
}

impl Parts {
    /// Takes them from the fields.
    fn take<'a>(fields: &mut Fields<'a>) -> Result<Parts, Unreadable<'a>> {
        Ok(Parts {
            size: fields.byte("t")?,
            aad: fields.any_bit_string("aad_bits", "aad")?,
            data: fields.any_bit_string("bits", "data")?,
        })
    }
}

/// A message covered by NCA5, with its tag.
pub fn nca5<'a>(fields: &mut Fields<'a>) -> Result<Result<Covered, Refusal>, Unreadable<'a>> {
    let setting = Setting::take(fields)?;
    let parts = Parts::take(fields)?;
    let covered = Covered {
        ciphertext: fields.room("room", parts.data.byte_length())?,
        tag: fields.room("tag_room", usize::from(parts.size))?,
    };
    Ok(setting.and_then(|setting| cover_parts(setting, parts, covered)))
}

/// Fills the two buffers with a message covered and its tag.
fn cover_parts(
    mut setting: Setting,
    parts: Parts,
    mut covered: Covered,
) -> Result<Covered, Refusal> {
    cover::nca5_cover(
        &mut setting.generator,
        setting.work.as_mut_slice(),
        &setting.parameters,
        parts.size,
        parts.aad.as_bit_string(),
        parts.data.as_bit_string(),
        covered.ciphertext.as_mut_slice(),
        covered.tag.as_mut_slice(),
    )?;
    Ok(covered)
}

/// The message of a ciphertext that NCA5 opens, if the tag is right.
pub fn nca5_open<'a>(fields: &mut Fields<'a>) -> Result<Result<Vec<u8>, Refusal>, Unreadable<'a>> {
    let setting = Setting::take(fields)?;
    let parts = Parts::take(fields)?;
    let tag = fields.bytes("tag")?;
    let message = fields.room("room", parts.data.byte_length())?;
    Ok(setting.and_then(|setting| open_parts(setting, parts, tag, message)))
}

/// Fills the buffer with the message of a ciphertext, if the tag is right.
fn open_parts(
    mut setting: Setting,
    parts: Parts,
    tag: Vec<u8>,
    mut message: Vec<u8>,
) -> Result<Vec<u8>, Refusal> {
    cover::nca5_open(
        &mut setting.generator,
        setting.work.as_mut_slice(),
        &setting.parameters,
        parts.size,
        parts.aad.as_bit_string(),
        parts.data.as_bit_string(),
        tag.as_slice(),
        message.as_mut_slice(),
    )?;
    Ok(message)
}
