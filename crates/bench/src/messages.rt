//! The calls that cover and open a message many times over, for C. Their generator, AES, is made once from the key, so that the
//! time of a message can be told from that of a key.
ghost use Rattle.std.specs.Prelude.{◌≡◌};
ghost use Rattle.bench.specs.Turns.{covered_turns, encrypted_turns, opened_turns, parameters, tag_size};

use super::bit_string;
use aes_generator::AesGenerator;
use cover::{WORK_AREA, nca5_cover, nca5_open, nea5};
use generator::Key;
use nonces::Parameters;

/// Encrypts an input by NEA5 as often as `turns` says, with one generator of the key. Each turn goes under the count after
/// that of the turn before it, the count 0 after the last: under the same count a generator that keeps the blocks it made
/// would encrypt none for a short input.
#[unsafe(no_mangle)]
pub extern "C" fn bench_nea5(
    key: &[u8; 32],
    count: u32,
    turns: u32,
    bits: u32,
    input: &[u8],
    output: &mut [u8],
)
    ensures { output.new ≡ encrypted_turns turns key.now count bits input.now output.old }
{
    cover::laws();
    let mut generator = AesGenerator::new(&Key(*key));
    let mut work = [0; WORK_AREA];
    for turn in 0..turns {
        let parameters = parameters(count.wrapping_add(turn));
        let _ = nea5(
            &mut generator,
            &mut work,
            &parameters,
            bit_string(bits, input),
            output,
        );
    }
}

/// Covers a message by NCA5 as often as `turns` says, with one generator of the key and under the same count each time. The
/// tag size is the length of `tag`, or 255 where that is longer, which is refused as every size above 16 is.
#[unsafe(no_mangle)]
pub extern "C" fn bench_nca5_cover(
    key: &[u8; 32],
    count: u32,
    turns: u32,
    aad_bits: u32,
    aad: &[u8],
    bits: u32,
    message: &[u8],
    ciphertext: &mut [u8],
    tag: &mut [u8],
)
    ensures ciphertext { ciphertext.new ≡ (covered_turns turns key.now count aad_bits aad.now bits message.now ciphertext.old tag.old).ciphertext }
    ensures tag { tag.new ≡ (covered_turns turns key.now count aad_bits aad.now bits message.now ciphertext.old tag.old).tag }
{
    cover::laws();
    let mut generator = AesGenerator::new(&Key(*key));
    let mut work = [0; WORK_AREA];
    let parameters = parameters(count);
    let size = tag_size(tag.len());
    for _ in 0..turns {
        let _ = nca5_cover(
            &mut generator,
            &mut work,
            &parameters,
            size,
            bit_string(aad_bits, aad),
            bit_string(bits, message),
            ciphertext,
            tag,
        );
    }
}

/// Opens a ciphertext by NCA5 as often as `turns` says, with one generator of the key and under the same count each time. The
/// tag size is that of `bench_nca5_cover`.
#[unsafe(no_mangle)]
pub extern "C" fn bench_nca5_open(
    key: &[u8; 32],
    count: u32,
    turns: u32,
    aad_bits: u32,
    aad: &[u8],
    bits: u32,
    ciphertext: &[u8],
    tag: &[u8],
    message: &mut [u8],
)
    ensures { message.new ≡ opened_turns turns key.now count aad_bits aad.now bits ciphertext.now tag.now message.old }
{
    cover::laws();
    let mut generator = AesGenerator::new(&Key(*key));
    let mut work = [0; WORK_AREA];
    let parameters = parameters(count);
    let size = tag_size(tag.len());
    for _ in 0..turns {
        let _ = nca5_open(
            &mut generator,
            &mut work,
            &parameters,
            size,
            bit_string(aad_bits, aad),
            bit_string(bits, ciphertext),
            tag,
            message,
        );
    }
}

/// What the measured messages go under, each with its count.
fn parameters(count: u32) -> Parameters
    ensures { result ≡ parameters count }
{
    Parameters {
        bearer: 5,
        direction: 0,
        extra_iv: None,
        count,
    }
}

/// The size of a tag of so many bytes.
fn tag_size(bytes: usize) -> u8
    ensures { result ≡ tag_size bytes }
{
    bytes.min(255) as u8
}
