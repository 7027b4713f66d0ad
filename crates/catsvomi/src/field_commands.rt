//! The commands of the field: products, folds and tags.
use super::errors::Unreadable;
use super::fields::Fields;
use field::{Block, TagKeys};

/// The product of two blocks.
pub fn dot<'a>(fields: &mut Fields<'a>) -> Result<Block, Unreadable<'a>> {
    let a = fields.block("a")?;
    let b = fields.block("b")?;
    Ok(field::pdot(a, b))
}

/// Whole bytes folded from zero.
pub fn polyval<'a>(fields: &mut Fields<'a>) -> Result<Block, Unreadable<'a>> {
    let h = fields.block("h")?;
    let data = fields.whole_bytes("data")?;
    Ok(field::fold(h, Block::ZERO, data.as_bit_string()))
}

/// The tag of an AAD and a ciphertext.
pub fn tag<'a>(fields: &mut Fields<'a>) -> Result<Vec<u8>, Unreadable<'a>> {
    let keys = tag_keys(fields)?;
    let size = fields.number("t", 4..=16)?;
    let aad = fields.bit_string("aad_bits", "aad")?;
    let ciphertext = fields.bit_string("bits", "data")?;
    let mut out = fields.buffer(size as usize)?;
    keys.tag(
        aad.as_bit_string(),
        ciphertext.as_bit_string(),
        out.as_mut_slice(),
    );
    Ok(out)
}

fn tag_keys<'a>(fields: &mut Fields<'a>) -> Result<TagKeys, Unreadable<'a>> {
    Ok(TagKeys {
        h: fields.block("h")?,
        q: fields.block("q")?,
        p: fields.block("p")?,
    })
}
