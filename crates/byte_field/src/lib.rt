//! The field of the bytes that FIPS 197 computes in, on the bytes of eight states at a time.
//!
//! `sub_bytes` takes each byte through the S-box, and `doubled` multiplies each byte by x. Both work on planes, so that
//! neither has a branch or an address that depends on a byte.
#![tactic(auto)]

ghost use Rattle.byte_field.specs.Laws.{ByteFieldLaws};

pub mod doubling;
pub mod sbox;

pub use doubling::doubled;
pub use sbox::sub_bytes;

/// What the layers above rest on. It does nothing: a caller's proof has the laws from its contract.
#[tactic(auto, using(crate::proofs::SboxLaws::byte_field_laws))]
pub fn laws()
    ensures { ByteFieldLaws }
{}
