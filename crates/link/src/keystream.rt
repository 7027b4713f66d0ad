//! How much keystream a frame uses.
ghost use Rattle.std.specs.Prelude.{◌≡◌};
ghost use Rattle.link.specs.Keystream.{places};

use units::Bits;

/// How many places of keystream are for H, Q and P.
const KEYS: u32 = 3;

/// How many places of keystream a sealed frame uses whose message has so many bits: 3 for H, Q and P, and one for each 128
/// bits begun.
#[tactic(auto, unfolding(units::specs::Lengths::begun))]
pub fn places(bits: Bits) -> u32
    ensures { result ≡ places bits.0 }
{
    KEYS + bits.blocks()
}
