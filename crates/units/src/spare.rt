//! Spare bits. A length in bits is counted from the most significant bit of the first byte on; the bits of a byte
//! string past that length are spare, and count as zero.
ghost use Rattle.std.specs.Prelude.{◌≡◌, ℕ, ◌<◌, ◌≤◌, if◌then◌else◌, Decides, nat_lt};
ghost use Rattle.units.specs.Spare.{bit_at, clear, cleared, high};

use super::lengths::Bits;
use super::strings::octets;

/// The first `count` bits of a byte; the others as zero.
#[tactic(auto, using(crate::proofs::SpareLaws::high_mask))]
fn high_bits(count: u32, byte: u8) -> u8
    requires { count < 8 }
    ensures { result ≡ high count byte }
{
    byte & !(0xff >> count)
}

/// Clears the spare bits of `bytes`, if its length is `bits`.
pub fn clear_spare(bits: Bits, bytes: &mut [u8])
    ensures after { bytes.new ≡ cleared bits.0 bytes.old }
    ensures bits { (i : ℕ) → bit_at bytes.new i ≡ (if nat_lt i bits.0 then bit_at bytes.old i else 0) }
{
    // For the proof alone: it tells that each byte is below 256, which no type tells of bytes that are written.
    octets(bytes);
    let whole = (bits.0 / 8) as usize;
    if whole < bytes.len() {
        bytes[whole] = high_bits(bits.0 % 8, bytes[whole]);
        bytes[whole + 1..].fill(0);
    }
}

/// A byte string and its length in bits. Where there are more bytes than the bits fill, all bits of the further bytes are
/// spare; where there are fewer, no bit is. It may hold a message, which is secret, so it has neither `Debug` nor equality.
#[derive(Clone, Copy)]
pub struct BitString<'a> {
    pub bits: Bits,
    pub bytes: &'a [u8],
}

impl BitString<'_> {
    /// Whether the spare bits are clear. It reads every byte from that in which the length ends, whatever it finds.
    pub fn spare_clear(self) -> bool
        ensures value { result ≡ clear self.entry.bits.0 self.entry.bytes.now }
        ensures tells { Decides result ((i : ℕ) → self.entry.bits.0 ≤ i → bit_at self.entry.bytes.now i ≡ 0) }
    {
        let BitString { bits, bytes } = self;
        let whole = (bits.0 / 8) as usize;
        if whole >= bytes.len() {
            return true;
        }
        let last = bytes[whole];
        let spare = last ^ high_bits(bits.0 % 8, last);
        (spare | octets(&bytes[whole + 1..])) == 0
    }
}
