//! What a generator of keystream is. Under each nonce it has so many blocks, its reach, and gives each by its index.
ghost use Rattle.std.specs.Prelude.{◌≡◌};
ghost use Rattle.generator.specs.Generators.{IsNonce, Meaning, Same, Sound, answered, short};

use field::Block;
use units::{Layer, Reason, Refusal, octets};

/// A nonce. Under the same nonce a generator always gives the same blocks.
#[derive(Clone, Copy, Debug, PartialEq, Eq)]
pub struct Nonce(pub [u8; 12]);

impl Nonce {
    /// For a proof alone: a nonce is twelve bytes, which no type tells of one that is behind a reference.
    pub fn twelve_bytes(&self)
        ensures { IsNonce self.now.0 }
    {
        let Nonce(bytes) = *self;
        prove!(bytes.len() == 12);
        octets(&bytes);
    }
}

/// A generator of keystream. A call may change what an implementation remembers, and never what the generator means.
pub trait Generator {
    /// The reach under each nonce, and the blocks below it.
    ghost meaning: { Self → Meaning };

    /// How many blocks there are under a nonce.
    fn reach(&mut self, nonce: &Nonce) -> u64
        ensures value { result ≡ (meaning self.old).reach nonce.now.0 }
        ensures same { Same (meaning self.old) (meaning self.new) };

    /// The block at an index. From the reach on it is refused, with the reach as place.
    fn block(&mut self, nonce: &Nonce, index: u64) -> Result<Block, Refusal>
        ensures value { result ≡ answered (meaning self.old) nonce.now.0 index }
        ensures same { Same (meaning self.old) (meaning self.new) };

    /// The reach is at most 2^32, and each block below it is sixteen bytes.
    ghost sound: { (generator : Self) → Sound (meaning generator) };
}

/// A generator that is lent gives what it gives itself.
impl<G: Generator> Generator for &mut G {
    ghost meaning = { λ lent. G.meaning lent.now };

    fn reach(&mut self, nonce: &Nonce) -> u64 {
        (**self).reach(nonce)
    }

    fn block(&mut self, nonce: &Nonce, index: u64) -> Result<Block, Refusal> {
        (**self).block(nonce, index)
    }

    ghost sound = { λ lent. G.sound lent.now };
}

/// The refusal of a generator whose reach is too short for what is asked.
pub fn short(reach: u64) -> Refusal
    ensures { result ≡ short reach }
{
    Refusal {
        reason: Reason::ShortKeystream,
        layer: Layer::Generator,
        place: reach,
    }
}
