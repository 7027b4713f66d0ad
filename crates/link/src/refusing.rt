//! What the calls of the link test before they write.
ghost use Rattle.std.specs.Prelude.{◌≡◌, length};
ghost use Rattle.units.specs.Lengths.{filled, unlike};
ghost use Rattle.units.specs.Refusals.{told};
ghost use Rattle.link.specs.Answers.{refused_here};

use units::{BitString, Reason, Refusal};
use windows::refuse;

/// Refuses for a reason, where a test is met.
pub(crate) fn refuse_if(met: bool, reason: Reason) -> Result<(), Refusal>
    ensures { result ≡ told (refused_here met reason) }
{
    if met { Err(refuse(reason)) } else { Ok(()) }
}

/// Whether a byte string has another number of bytes than its bits fill.
pub(crate) fn unfilled(string: BitString<'_>) -> bool
    ensures { result ≡ unlike (length string.entry.bytes.now) (filled string.entry.bits.0) }
{
    string.bytes.len() != string.bits.bytes().0
}
