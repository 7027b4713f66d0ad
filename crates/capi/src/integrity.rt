//! NIA5 for C.
ghost use Rattle.std.specs.Prelude.{◌≡◌, length};
ghost use Rattle.cover.specs.WorkArea.{wiped};
ghost use Rattle.capi.specs.Calls.{called, nia5_called};

use super::answering::tell;
use super::details::Details;
use super::messages::{bit_string, parameters};
use aes_generator::AesGenerator;
use cover::nia5;
use generator::Key;

/// Writes the tag of a text, of `tag_size` bytes.
#[unsafe(no_mangle)]
pub extern "C" fn catsvomi_nia5(
    key: &[u8; 32],
    work: &mut [u8],
    bearer: u8,
    direction: u8,
    extra_iv: &[u8; 6],
    count: u32,
    tag_size: u8,
    bits: u32,
    text: &[u8],
    tag: &mut [u8],
    details: &mut Details,
) -> u32
    ensures outcome { called result details.new tag.new ≡ nia5_called key.now (length work.old) bearer direction extra_iv.now count tag_size bits text.now tag.old }
    ensures work { work.new ≡ wiped work.old }
{
    let answer = nia5(
        &mut AesGenerator::new(&Key(*key)),
        work,
        &parameters(bearer, direction, extra_iv, count),
        tag_size,
        bit_string(bits, text),
        tag,
    );
    tell(answer, details)
}
