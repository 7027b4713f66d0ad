//! The product of the field, `a * b * x^-128`.
ghost use Rattle.std.specs.Prelude.{◌≡◌, ◌*◌, ◌/◌, ◌%◌, ◌^◌};
ghost use Rattle.polynomials.specs.Polynomials.{RemainderStands, remainder};
ghost use Rattle.polynomials.specs.Field.{FieldStands, Quotient, pdot};

use super::words::product;

/// The mask of the low word.
const LOW: u128 = 0xFFFF_FFFF_FFFF_FFFF;

/// The product of two polynomials below x^128, times x^-128, modulo x^128 + x^127 + x^126 + x^121 + 1.
///
/// With three products of words for four, and with the low half of the product divided by x^64 twice.
pub fn pdot(a: u128, b: u128) -> u128
    ensures value { result ≡ pdot a b }
    ensures quotient { Quotient a b result }
    ensures remainder { RemainderStands }
    ensures stands { FieldStands }
{
    let (a_low, a_high) = halves(a);
    let (b_low, b_high) = halves(b);
    let low = product(a_low, b_low);
    let high = product(a_high, b_high);
    let middle = product(a_low ^ a_high, b_low ^ b_high) ^ low ^ high;
    let bottom = low ^ (middle << 64);
    let top = high ^ (middle >> 64);
    top ^ divided(divided(bottom))
}

/// The low word of a polynomial, and the high one.
fn halves(v: u128) -> (u64, u64)
    ensures low { result.0 ≡ v % 2 ^ 64 }
    ensures high { result.1 ≡ v / 2 ^ 64 }
{
    ((v & LOW) as u64, (v >> 64) as u64)
}

/// Division by x^64. What stands below x^64 is multiplied by x^-64, which is x^64 + x^63 + x^62 + x^57.
#[tactic(auto, using(crate::proofs::ReductionLaws::divided_is))]
fn divided(v: u128) -> u128
    ensures { remainder (result * 2 ^ 64) ≡ remainder v }
{
    let low = v & LOW;
    (v >> 64) ^ (low << 64) ^ (low << 63) ^ (low << 62) ^ (low << 57)
}
