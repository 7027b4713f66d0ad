//! The calls that the programs of the folder `bench` measure and watch, exported for C. Nothing checks a declaration in C.
#![tactic(auto)]

mod messages;

ghost use Rattle.std.specs.Prelude.{◌≡◌, ◌++◌, length, drop};
ghost use Rattle.field.specs.Blocks.{block_bytes, polynomial};
ghost use Rattle.field.specs.Folds.{fold};
ghost use Rattle.field.specs.Tags.{tag};
ghost use Rattle.polynomials.specs.Words.{sum_of};
ghost use Rattle.aes.specs.KeyExpansion.{aes256};
ghost use Rattle.aes_generator.specs.AesGenerator.{counter_block};
ghost use Rattle.bench.specs.Turns.{again};

use aes::Aes256;
use aes_generator::AesGenerator;
use field::{Block, TagKeys, fold};
use generator::{Generator, Key, Nonce};
use units::{BitString, Bits};

/// Folds so many bits of data with the block `h`, from the block `value` and into it.
#[unsafe(no_mangle)]
pub extern "C" fn bench_fold(h: &[u8; 16], value: &mut [u8; 16], bits: u32, bytes: &[u8])
    ensures { value.new ≡ block_bytes (fold (polynomial h.now) (polynomial value.old) bits bytes.now) }
{
    let input = bit_string(bits, bytes);
    let folded = fold(Block::from_bytes(h), Block::from_bytes(value), input);
    *value = folded.to_bytes();
}

/// Writes the tag that the blocks `h`, `q` and `p` make, as many of its bytes as `out` has.
#[unsafe(no_mangle)]
pub extern "C" fn bench_tag(
    h: &[u8; 16],
    q: &[u8; 16],
    p: &[u8; 16],
    aad_bits: u32,
    aad: &[u8],
    bits: u32,
    ciphertext: &[u8],
    out: &mut [u8],
)
    ensures { out.new ≡ tag (polynomial h.now) (polynomial q.now) (polynomial p.now) (length out.old) aad_bits aad.now bits ciphertext.now ++ drop 16 out.old }
{
    let keys = TagKeys {
        h: Block::from_bytes(h),
        q: Block::from_bytes(q),
        p: Block::from_bytes(p),
    };
    keys.tag(bit_string(aad_bits, aad), bit_string(bits, ciphertext), out);
}

/// Encrypts a block as often as `turns` says, eight copies of it at a time.
#[unsafe(no_mangle)]
pub extern "C" fn bench_aes256(key: &[u8; 32], block: &mut [u8; 16], turns: u32)
    ensures { block.new ≡ again turns key.now block.old }
{
    let aes = Aes256::new(key);
    let mut blocks = [*block; 8];
    for _ in 0..turns {
        blocks = aes.encrypt_eight(&blocks);
    }
    *block = blocks[0];
}

/// Writes the sum of the first blocks of keystream under a key and a nonce, so many as `count` says.
#[unsafe(no_mangle)]
pub extern "C" fn bench_keystream(key: &[u8; 32], nonce: &[u8; 12], count: u32, out: &mut [u8; 16])
    ensures { out.new ≡ block_bytes (sum_of count (λ i. polynomial (aes256 key.now (counter_block nonce.now i)))) }
{
    let mut generator = AesGenerator::new(&Key(*key));
    let nonce = Nonce(*nonce);
    let mut sum = Block::ZERO;
    for index in 0..count {
        if let Ok(block) = generator.block(&nonce, u64::from(index)) {
            sum = sum + block;
        }
    }
    *out = sum.to_bytes();
}

fn bit_string(bits: u32, bytes: &[u8]) -> BitString<'_>
    ensures bits { result.bits.0 ≡ bits }
    ensures bytes { result.bytes.now ≡ bytes.now }
{
    BitString {
        bits: Bits(bits),
        bytes,
    }
}
