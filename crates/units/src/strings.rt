//! Byte strings.
ghost use Rattle.std.specs.Prelude.{◌≡◌, ℕ, ◌↔◌, slice_index};
ghost use Rattle.units.specs.Strings.{Octets, united};

/// The bits that are set in some byte. It reads every byte, whatever it finds.
pub fn octets(bytes: &[u8]) -> u8
    ensures bytes { Octets bytes.now }
    ensures value { result ≡ united bytes.now }
    ensures none { result ≡ 0 ↔ ((k : ℕ) → slice_index bytes.now k ≡ 0) }
{
    bytes.iter().fold(0, |all, byte| all | *byte)
}
