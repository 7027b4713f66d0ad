//! Polynomials over bits: bit k of a number is the coefficient of x^k.
//!
//! `product` multiplies two of them, and `pdot` is the product of the field of the polynomials below x^128 modulo
//! x^128 + x^127 + x^126 + x^121 + 1. Neither has a branch or an index that depends on what it multiplies.
#![tactic(auto)]

ghost use Rattle.polynomials.specs.Field.{FieldStands};

pub mod dot;
pub mod words;

pub use dot::pdot;
pub use words::product;

/// What the layers above rest on. It does nothing: a caller's proof has the laws from its contract.
#[tactic(auto, using(crate::proofs::FieldLaws::field_stands))]
pub fn laws()
    ensures { FieldStands }
{}
