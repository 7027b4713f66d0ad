//! NEA5 for C.
ghost use Rattle.std.specs.Prelude.{◌≡◌, length};
ghost use Rattle.cover.specs.WorkArea.{wiped};
ghost use Rattle.capi.specs.Calls.{called, nea5_called};
ghost use Rattle.capi.specs.Reach.{Reached};

use super::answering::tell;
use super::details::Details;
use super::messages::{bit_string, parameters};
use aes_generator::AesGenerator;
use cover::nea5;
use generator::Key;

/// Writes the input plus the keystream of the key, with the spare bits cleared.
#[tactic(auto, using(crate::proofs::ReachLaws::reached))]
#[unsafe(no_mangle)]
pub extern "C" fn catsvomi_nea5(
    key: &[u8; 32],
    work: &mut [u8],
    bearer: u8,
    direction: u8,
    extra_iv: &[u8; 6],
    count: u32,
    bits: u32,
    input: &[u8],
    output: &mut [u8],
    details: &mut Details,
) -> u32
    ensures outcome { called result details.new output.new ≡ nea5_called key.now (length work.old) bearer direction extra_iv.now count bits input.now output.old }
    ensures work { work.new ≡ wiped work.old }
    ensures reached { Reached }
{
    let answer = nea5(
        &mut AesGenerator::new(&Key(*key)),
        work,
        &parameters(bearer, direction, extra_iv, count),
        bit_string(bits, input),
        output,
    );
    tell(answer, details)
}
