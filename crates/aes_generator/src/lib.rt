//! AES-256 as a generator: block `i` under a nonce is the encryption of the nonce and of `i` as four bytes, the most
//! significant first.
#![tactic(auto)]

ghost use Rattle.std.specs.Prelude.{◌≡◌, ◌≤◌, ◌+◌, ◌^◌};
ghost use Rattle.generator.specs.Generators.{Sound};
ghost use Rattle.aes_generator.specs.AesGenerator.{Right, aes_meaning, counter_block};

use aes::Aes256;
use field::Block;
use generator::generators::short;
use generator::{Generator, Key, Nonce};
use units::Refusal;

/// How many blocks there are under each nonce.
const REACH: u64 = 1 << 32;

/// How many blocks are made at a time.
const BATCH: usize = 8;

/// Blocks that are made and kept: eight in a row under one nonce.
#[derive(Clone, Copy)]
struct Batch {
    nonce: Nonce,
    first: u64,
    blocks: [[u8; 16]; BATCH],
}

/// AES-256 as a generator. Blocks are made eight at a time, and the last eight are kept. All of it is secret, so it has
/// neither `Debug` nor equality.
#[derive(Drop)]
pub struct AesGenerator {
    aes: Aes256,
    kept: Batch,
    ghost sound: { Sound (aes_meaning aes.key) },
    ghost right: { Right aes.key kept },
}

impl AesGenerator {
    /// The generator of a key.
    pub fn new(key: &Key) -> AesGenerator
        ensures { result.aes.key ≡ key.now.0 }
    {
        let aes = Aes256::new(&key.0);
        // Those of some nonce, so that there always are blocks that are kept.
        let kept = Batch::new(&aes, &Nonce([0; 12]), 0);
        AesGenerator { aes, kept }
    }
}

impl Generator for AesGenerator {
    ghost meaning = { λ generator. aes_meaning generator.aes.key };

    fn reach(&mut self, _nonce: &Nonce) -> u64 {
        REACH
    }

    fn block(&mut self, nonce: &Nonce, index: u64) -> Result<Block, Refusal> {
        if index >= REACH {
            return Err(short(REACH));
        }
        let place = index % BATCH as u64;
        let first = index - place;
        if self.kept.nonce != *nonce || self.kept.first != first {
            self.kept = Batch::new(&self.aes, nonce, first);
        }
        Ok(Block::from_bytes(&self.kept.blocks[place as usize]))
    }

    ghost sound = { λ generator. generator.sound };
}

impl Batch {
    /// The blocks under a nonce from an index on.
    fn new(aes: &Aes256, nonce: &Nonce, first: u64) -> Batch
        requires { first + 8 ≤ 2 ^ 32 }
        ensures nonce { result.nonce ≡ nonce.now }
        ensures first { result.first ≡ first }
        ensures right { Right aes.now.key result }
    {
        let mut counters = [[0; 16]; BATCH];
        for i in 0..BATCH {
            counters[i] = counter_block(nonce, first as u32 + i as u32);
        }
        Batch {
            nonce: *nonce,
            first,
            blocks: aes.encrypt_eight(&counters),
        }
    }
}

/// The block that is encrypted for an index.
fn counter_block(nonce: &Nonce, index: u32) -> [u8; 16]
    ensures { result ≡ counter_block nonce.now.0 index }
{
    let mut block = [0; 16];
    block[..12].copy_from_slice(&nonce.0);
    block[12..].copy_from_slice(&index.to_be_bytes());
    block
}
