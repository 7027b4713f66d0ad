//! Bytes as hexadecimal text: two characters to a byte, the high digit first.
#![tactic(auto)]

ghost use Rattle.std.specs.Prelude.{◌≡◌, ◌<◌, ◌↔◌, ℕ, List, All, Some, None, is_some, IsSome, IfOk, MatchResult, IsErrOf, codes, length};
ghost use Rattle.hexadecimal.specs.Hex.{byte, decoded, digit, shown, written};
ghost use Rattle.hexadecimal.specs.declared.Fault.TheVariants.{Text, Memory};

use std::alloc::{AllocFailed, Global};
use std::error::Error;
use std::fmt;

/// Why a text gives no bytes.
#[derive(Clone, Copy, Debug, PartialEq, Eq)]
pub enum Fault {
    /// It is not pairs of the characters 0 to 9, a to f and A to F.
    Text,
    /// There is no memory for the bytes.
    Memory,
}

impl fmt::Display for Fault {
    ghost output = { λ fault. elim fault [
      | Text ↦ Some (codes "not hexadecimal text")
      | Memory ↦ Some (codes "out of memory")
    ] };

    fn fmt<W: fmt::Write>(&self, f: &mut fmt::Formatter<W>) -> fmt::Result {
        match self {
            Fault::Text => write!(f, "not hexadecimal text"),
            Fault::Memory => write!(f, "out of memory"),
        }
    }
}

impl Error for Fault {}

impl<T: Drop> From<AllocFailed<T>> for Fault {
    ghost from_gives = { λ _ fault. fault ≡ Memory };

    fn from(_failed: AllocFailed<T>) -> Fault {
        Fault::Memory
    }
}

/// The value of a hexadecimal digit.
fn digit_value(character: u8) -> Option<u8>
    ensures { result ≡ digit character }
{
    let digit = char::from(character).to_digit(16)?;
    u8::try_from(digit).ok()
}

/// The byte that two digits stand for.
fn byte_value(high: u8, low: u8) -> Option<u8>
    ensures { result ≡ byte high low }
{
    let high = digit_value(high)?;
    let low = digit_value(low)?;
    Some(high * 16 + low)
}

/// Whether a text stands for bytes.
fn is_hexadecimal(text: &str) -> bool
    ensures { result ≡ is_some (decoded text.now) }
{
    let (pairs, rest) = text.as_bytes().as_chunks::<2>();
    rest.is_empty()
        && pairs
            .iter()
            .all(|[high, low]| byte_value(*high, *low).is_some())
}

/// The bytes that a text stands for, read in one go. Where memory fails, what comes after is not read, so that the text may
/// still stand for none.
#[tactic(auto, using(crate::proofs::HexLaws::decoding))]
fn read(heap: Global, text: &str) -> Result<Vec<u8>, Fault>
    ensures bytes { IfOk result (λ bytes. decoded text.now ≡ Some bytes.items) }
    ensures text { IsErrOf result Text → decoded text.now ≡ None }
    ensures memory { IsErrOf result Memory → 0 < length text.now }
{
    let (pairs, rest) = text.as_bytes().as_chunks::<2>();
    if !rest.is_empty() {
        return Err(Fault::Text);
    }
    let mut bytes = Vec::new(heap);
    for [high, low] in pairs {
        let byte = byte_value(*high, *low).ok_or(Fault::Text)?;
        bytes.push(byte)?;
    }
    Ok(bytes)
}

/// The bytes that a text stands for. Want of memory is told only of a text that stands for some, and never of the empty one.
#[tactic(auto, using(crate::proofs::HexLaws::decoding))]
pub fn decode(heap: Global, text: &str) -> Result<Vec<u8>, Fault>
    ensures bytes { IfOk result (λ bytes. decoded text.now ≡ Some bytes.items) }
    ensures text { IsErrOf result Text ↔ (decoded text.now ≡ None) }
    ensures memory { IsErrOf result Memory → IsSome (decoded text.now) × (0 < length text.now) }
    // Pairs of digits as `Hex` writes them give back the bytes, unless memory fails.
    ensures round_trip { (bytes : List ℕ) → All (λ b. b < 256) bytes → text.now ≡ written bytes
        → MatchResult result (λ read. read.items ≡ bytes) (λ fault. fault ≡ Memory) }
{
    match read(heap, text) {
        // Only here has the text to be read again, to its end.
        Err(Fault::Memory) if !is_hexadecimal(text) => Err(Fault::Text),
        answer => answer,
    }
}

/// Bytes shown in hexadecimal, or `-` for none.
#[derive(Clone, Copy, Debug)]
pub struct Hex<'a>(pub &'a [u8]);

impl fmt::Display for Hex<'_> {
    ghost output = { λ hex. Some (shown hex.0.now) };

    fn fmt<W: fmt::Write>(&self, f: &mut fmt::Formatter<W>) -> fmt::Result {
        if self.0.is_empty() {
            return f.write_str("-");
        }
        for &byte in self.0 {
            write!(f, "{byte:02x}")?;
        }
        Ok(())
    }
}
