//! NCA5 for C.
ghost use Rattle.std.specs.Prelude.{◌≡◌, length};
ghost use Rattle.cover.specs.WorkArea.{wiped};
ghost use Rattle.capi.specs.Calls.{called, cover_called, nca5_cover_called, nca5_open_called};

use super::answering::tell;
use super::details::Details;
use super::messages::{bit_string, parameters};
use aes_generator::AesGenerator;
use cover::{nca5_cover, nca5_open};
use generator::Key;

/// Writes the ciphertext of a message, with the spare bits cleared, and its tag of `tag_size` bytes.
#[unsafe(no_mangle)]
pub extern "C" fn catsvomi_nca5_cover(
    key: &[u8; 32],
    work: &mut [u8],
    bearer: u8,
    direction: u8,
    extra_iv: &[u8; 6],
    count: u32,
    tag_size: u8,
    aad_bits: u32,
    aad: &[u8],
    bits: u32,
    message: &[u8],
    ciphertext: &mut [u8],
    tag: &mut [u8],
    details: &mut Details,
) -> u32
    ensures outcome { cover_called result details.new ciphertext.new tag.new ≡ nca5_cover_called key.now (length work.old) bearer direction extra_iv.now count tag_size aad_bits aad.now bits message.now ciphertext.old tag.old }
    ensures work { work.new ≡ wiped work.old }
{
    let answer = nca5_cover(
        &mut AesGenerator::new(&Key(*key)),
        work,
        &parameters(bearer, direction, extra_iv, count),
        tag_size,
        bit_string(aad_bits, aad),
        bit_string(bits, message),
        ciphertext,
        tag,
    );
    tell(answer, details)
}

/// Writes the message of a ciphertext, if the tag of `tag_size` bytes is that of AAD and ciphertext.
#[unsafe(no_mangle)]
pub extern "C" fn catsvomi_nca5_open(
    key: &[u8; 32],
    work: &mut [u8],
    bearer: u8,
    direction: u8,
    extra_iv: &[u8; 6],
    count: u32,
    tag_size: u8,
    aad_bits: u32,
    aad: &[u8],
    bits: u32,
    ciphertext: &[u8],
    tag: &[u8],
    message: &mut [u8],
    details: &mut Details,
) -> u32
    ensures outcome { called result details.new message.new ≡ nca5_open_called key.now (length work.old) bearer direction extra_iv.now count tag_size aad_bits aad.now bits ciphertext.now tag.now message.old }
    ensures work { work.new ≡ wiped work.old }
{
    let answer = nca5_open(
        &mut AesGenerator::new(&Key(*key)),
        work,
        &parameters(bearer, direction, extra_iv, count),
        tag_size,
        bit_string(aad_bits, aad),
        bit_string(bits, ciphertext),
        tag,
        message,
    );
    tell(answer, details)
}
