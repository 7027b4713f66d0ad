//! The cipher of AES-256.
ghost use Rattle.std.specs.Prelude.{◌≡◌, ◌<◌, map};
ghost use Rattle.aes.specs.KeyExpansion.{round_key_of, round_keys_of};
ghost use Rattle.aes.specs.RoundKeys.{key_of};

use super::key_expansion::{WORDS, key_expansion};
use super::round_keys::RoundKey;
use super::steps::{mix_columns, shift_rows};
use byte_field::sub_bytes;
use planes::Planes;

/// How many round keys AES-256 has.
const ROUND_KEYS: usize = 15;

/// The last round, the only one without MixColumns.
const LAST_ROUND: usize = 14;

/// How many blocks are encrypted at a time.
const BATCH: usize = 8;

/// AES-256 under one key. The round keys are made once. All of it is secret, so it has neither `Debug` nor equality.
#[derive(Drop)]
pub struct Aes256 {
    // Kept for the contracts: what blocks are encrypted to is a function of it.
    key: [u8; 32],
    round_keys: [RoundKey; ROUND_KEYS],
    ghost expanded: { map key_of round_keys ≡ round_keys_of key },
}

impl Aes256 {
    ghost use Rattle.aes.specs.Blocks.{EncryptsToBlocks};
    ghost use Rattle.aes.specs.Example.{ExampleStands};
    ghost use Rattle.aes.specs.KeyExpansion.{aes256};

    /// AES-256 under a key.
    #[tactic(auto, using(crate::proofs::ExampleLaws::example_stands))]
    pub fn new(key: &[u8; 32]) -> Aes256
        ensures key { result.key ≡ key.now }
        ensures example { ExampleStands }
        ensures blocks { EncryptsToBlocks result.key }
    {
        byte_field::laws();
        let words = key_expansion(key);
        let mut round_keys = [RoundKey::new([0; 16]); ROUND_KEYS];
        for round in 0..ROUND_KEYS {
            round_keys[round] = RoundKey::new(round_key(&words, round));
        }
        Aes256 {
            key: *key,
            round_keys,
        }
    }

    /// Encrypts blocks where they are, however many there are.
    pub fn encrypt(&self, blocks: &mut [[u8; 16]])
        ensures { blocks.new ≡ map (aes256 self.now.key) blocks.old }
    {
        let mut done = 0;
        while done < blocks.len() {
            let count = (blocks.len() - done).min(BATCH);
            let mut batch = [[0; 16]; BATCH];
            batch[..count].copy_from_slice(&blocks[done..done + count]);
            let batch = self.encrypt_eight(&batch);
            blocks[done..done + count].copy_from_slice(&batch[..count]);
            done += count;
        }
    }

    /// The encryptions of eight blocks.
    pub fn encrypt_eight(&self, blocks: &[[u8; 16]; BATCH]) -> [[u8; 16]; BATCH]
        ensures { result ≡ map (aes256 self.now.key) blocks.now }
    {
        let mut q = self.round_keys[0].add_to(Planes::from_blocks(blocks));
        for round in 1..LAST_ROUND {
            q = self.round_keys[round].add_to(mix_columns(shift_rows(sub_bytes(q))));
        }
        let last = self.round_keys[LAST_ROUND].add_to(shift_rows(sub_bytes(q)));
        last.to_blocks()
    }
}

/// The sixteen bytes of a round key: four words.
fn round_key(words: &[[u8; 4]; WORDS], round: usize) -> [u8; 16]
    requires { round < 15 }
    ensures { result ≡ round_key_of words.now round }
{
    let mut bytes = [0; 16];
    bytes.copy_from_slice(words[4 * round..4 * round + 4].as_flattened());
    bytes
}
