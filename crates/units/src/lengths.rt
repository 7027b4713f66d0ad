//! Lengths in bits and lengths in bytes, as two types, so that a call that takes one is not handed the other by mistake.
//!
//! `Bits::bytes` is the conversion that has a contract. The fields are public, so that callers can make lengths and read
//! them: nothing keeps a caller from making a length of one type with the number of one of the other.
ghost use Rattle.std.specs.Prelude.{◌≡◌, ℕ, ◌+◌, ◌*◌, ◌<◌, ◌≤◌};
ghost use Rattle.units.specs.Lengths.{begun, filled, split};

/// A length in bits.
#[derive(Clone, Copy, Debug, PartialEq, Eq, PartialOrd, Ord)]
pub struct Bits(pub u32);

/// A length in bytes.
#[derive(Clone, Copy, Debug, PartialEq, Eq, PartialOrd, Ord)]
pub struct Bytes(pub usize);

impl Bits {
    /// The bytes that these bits fill: the smallest number of bytes that holds them.
    #[tactic(auto, unfolding(crate::specs::Lengths::filled))]
    pub fn bytes(self) -> Bytes
        ensures value { result.0 ≡ filled self.0 }
        ensures holds { self.0 ≤ 8 * result.0 }
        ensures smallest { (k : ℕ) → self.0 ≤ 8 * k → result.0 ≤ k }
    {
        Bytes(self.0.div_ceil(8) as usize)
    }

    /// Whole blocks of 128 bits, and the bits left over.
    #[tactic(auto, unfolding(crate::specs::Lengths::split))]
    pub fn split(self) -> (u32, Bits)
        ensures whole { result.0 ≡ (split self.0).whole }
        ensures left { result.1.0 ≡ (split self.0).left }
        ensures all { self.0 ≡ 128 * result.0 + result.1.0 }
        ensures less { result.1.0 < 128 }
    {
        (self.0 / BLOCK.0, Bits(self.0 % BLOCK.0))
    }

    /// How many blocks these bits begin: the smallest number of blocks that holds them.
    #[tactic(auto, unfolding(crate::specs::Lengths::begun, crate::specs::Lengths::split))]
    pub fn blocks(self) -> u32
        ensures value { result ≡ begun self.0 }
        ensures holds { self.0 ≤ 128 * result }
        ensures smallest { (k : ℕ) → self.0 ≤ 128 * k → result ≤ k }
    {
        let (whole, left) = self.split();
        whole + u32::from(left.0 > 0)
    }
}

/// The length of a block.
pub const BLOCK: Bits = Bits(128);
