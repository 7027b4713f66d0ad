//! A round key as the planes have it.
ghost use Rattle.std.specs.Prelude.{◌≡◌, map, replicate};
ghost use Rattle.planes.specs.Planes.{state, states};
ghost use Rattle.aes.specs.Cipher.{add_round_key};

use planes::Planes;

/// A round key, once for each of eight states.
#[derive(Clone, Copy)]
pub struct RoundKey {
    planes: Planes,
    ghost alike: { states planes ≡ replicate 8 (state planes 0) },
}

impl RoundKey {
    ghost use Rattle.aes.specs.RoundKeys.{key_of};

    /// The round key of sixteen bytes.
    #[tactic(auto, using(crate::proofs::KeyLaws::all_alike, crate::proofs::KeyLaws::first_state))]
    pub fn new(key: [u8; 16]) -> RoundKey
        ensures { key_of result ≡ key }
    {
        RoundKey {
            planes: Planes::from_blocks(&[key; 8]),
        }
    }

    /// AddRoundKey on each of eight states.
    #[tactic(auto, using(crate::proofs::KeyLaws::added_to_each))]
    pub fn add_to(&self, q: Planes) -> Planes
        ensures { states result ≡ map (add_round_key (key_of self.now)) (states q) }
    {
        q ^ self.planes
    }
}
