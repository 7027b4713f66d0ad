//! The commands of AES-256 and of the generators: encryptions, keys and keystream.
use super::errors::Unreadable;
use super::fields::Fields;
use super::sources::LineGenerator;
use aes::Aes256;
use field::Block;
use generator::{Key, Nonce, keystream};
use units::Refusal;

/// The most blocks that are asked for at a time.
const MOST_BLOCKS: u32 = 65_536;

/// The encryption of one block.
pub fn aes256<'a>(fields: &mut Fields<'a>) -> Result<Result<Block, Refusal>, Unreadable<'a>> {
    let key = fields.key("key")?;
    let block = fields.block("block")?;
    Ok(key.map(|key| encrypt(&key, block)))
}

fn encrypt(key: &Key, block: Block) -> Block {
    let mut blocks = [block.to_bytes()];
    Aes256::new(&key.0).encrypt(&mut blocks);
    Block::from_bytes(&blocks[0])
}

/// Whether a text is a key's.
pub fn key<'a>(fields: &mut Fields<'a>) -> Result<Result<(), Refusal>, Unreadable<'a>> {
    Ok(fields.key("text")?.map(|_| ()))
}

/// Keystream of a key, of a recording, or of a pair of two such.
pub fn blocks<'a>(fields: &mut Fields<'a>) -> Result<Result<Vec<Block>, Refusal>, Unreadable<'a>> {
    let generator = fields.generator()?;
    let nonce = fields.nonce("nonce")?;
    let first = fields.index("first")?;
    let count = fields.number("count", 0..=MOST_BLOCKS)?;
    let mut out = fields.block_buffer(count as usize)?;
    Ok(fill(generator, &nonce, first, out.as_mut_slice()).map(|()| out))
}

/// Fills a buffer with keystream from an index on.
fn fill(
    generator: Result<LineGenerator, Refusal>,
    nonce: &Nonce,
    first: u64,
    out: &mut [Block],
) -> Result<(), Refusal> {
    keystream(&mut generator?, nonce, first, out)
}
