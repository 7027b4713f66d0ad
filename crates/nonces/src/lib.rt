//! The nonce of a message: the twelve bytes under which a generator gives its keystream.
//!
//! Byte 0 has the tag size, the combined flag and the instance bit; byte 1 BEARER and DIRECTION; bytes 2 to 7 are
//! EXTRA_IV; bytes 8 to 11 are COUNT, the most significant first. LK, the bit between the combined flag and the instance
//! bit, is 0.
#![tactic(auto)]

ghost use Rattle.std.specs.Prelude.{◌≡◌, IfOk};
ghost use Rattle.generator.specs.Generators.{IsNonce};
ghost use Rattle.nonces.specs.Nonces.{NoncesDiffer, NoncesStand, extra_bytes, given};
ghost use Rattle.units.specs.Refusals.{refusal};
ghost use Rattle.units.specs.declared.refusals.Layer.TheVariants.{Cover};

use generator::Nonce;
use units::{Layer, Reason, Refusal};

/// The highest BEARER.
pub const HIGHEST_BEARER: u8 = 31;

/// The highest DIRECTION.
pub const HIGHEST_DIRECTION: u8 = 1;

/// The smallest tag, in bytes.
pub const SMALLEST_TAG: u8 = 4;

/// The largest tag, in bytes.
pub const LARGEST_TAG: u8 = 16;

/// The six bytes of EXTRA_IV.
#[derive(Clone, Copy, Debug, PartialEq, Eq)]
pub struct ExtraIv {
    pub b0: u8,
    pub b1: u8,
    pub b2: u8,
    pub b3: u8,
    pub b4: u8,
    pub b5: u8,
}

/// What a message goes under, beside the key. An EXTRA_IV that is absent counts as six zero bytes.
#[derive(Clone, Copy, Debug, PartialEq, Eq)]
pub struct Parameters {
    pub bearer: u8,
    pub direction: u8,
    pub extra_iv: Option<ExtraIv>,
    pub count: u32,
}

impl Parameters {
    /// The nonce of a message with a tag of so many bytes, or without a tag. `combined` is the combined flag, and
    /// `instance` the instance bit. A bearer above 31 or a direction above 1 is refused, and then a tag size outside 4 to
    /// 16.
    #[tactic(auto, using(crate::proofs::NonceLaws::nonces_differ), unfolding(crate::specs::Nonces::nonce, units::specs::Strings::four))]
    pub fn nonce(
        &self,
        tag_size: Option<u8>,
        combined: bool,
        instance: bool,
    ) -> Result<Nonce, Refusal>
        ensures value { result ≡ given tag_size combined instance self.now }
        ensures twelve { IfOk result (λ nonce. IsNonce nonce.0) }
        ensures differ { NoncesDiffer }
    {
        if self.bearer > HIGHEST_BEARER || self.direction > HIGHEST_DIRECTION {
            return Err(refuse(Reason::BearerDirection));
        }
        if tag_size.is_some_and(|size| !(SMALLEST_TAG..=LARGEST_TAG).contains(&size)) {
            return Err(refuse(Reason::TagSize));
        }
        let size = tag_size.unwrap_or(0);
        let [e0, e1, e2, e3, e4, e5] = extra_bytes(self.extra_iv);
        let [c0, c1, c2, c3] = self.count.to_be_bytes();
        let nonce = Nonce([
            size * 8 + u8::from(combined) * 4 + u8::from(instance),
            self.bearer * 2 + self.direction,
            e0,
            e1,
            e2,
            e3,
            e4,
            e5,
            c0,
            c1,
            c2,
            c3,
        ]);
        nonce.twelve_bytes();
        Ok(nonce)
    }
}

/// EXTRA_IV as bytes.
fn extra_bytes(extra_iv: Option<ExtraIv>) -> [u8; 6]
    ensures { result ≡ extra_bytes extra_iv }
{
    match extra_iv {
        Some(
            ExtraIv {
                b0,
                b1,
                b2,
                b3,
                b4,
                b5,
            },
        ) => [b0, b1, b2, b3, b4, b5],
        None => [0; 6],
    }
}

/// The refusal of the cover for a reason.
pub fn refuse(reason: Reason) -> Refusal
    ensures { result ≡ refusal reason Cover 0 }
{
    Refusal {
        reason,
        layer: Layer::Cover,
        place: 0,
    }
}

/// What the layers above rest on. It does nothing: a caller's proof has the laws from its contract.
#[tactic(auto, using(crate::proofs::NonceLaws::nonces_stand))]
pub fn laws()
    ensures { NoncesStand }
{}
