//! What C passes of a message, as the cover takes it.
ghost use Rattle.std.specs.Prelude.{◌≡◌};
ghost use Rattle.capi.specs.Messages.{parameters};

use nonces::{ExtraIv, Parameters};
use units::{BitString, Bits};

/// What a message goes under, beside the key.
pub(crate) fn parameters(bearer: u8, direction: u8, extra_iv: &[u8; 6], count: u32) -> Parameters
    ensures { result ≡ parameters bearer direction extra_iv.now count }
{
    let [b0, b1, b2, b3, b4, b5] = *extra_iv;
    Parameters {
        bearer,
        direction,
        extra_iv: Some(ExtraIv {
            b0,
            b1,
            b2,
            b3,
            b4,
            b5,
        }),
        count,
    }
}

/// Bytes with their number of bits.
pub(crate) fn bit_string(bits: u32, bytes: &[u8]) -> BitString<'_>
    ensures bits { result.bits.0 ≡ bits }
    ensures bytes { result.bytes.now ≡ bytes.now }
{
    BitString {
        bits: Bits(bits),
        bytes,
    }
}
