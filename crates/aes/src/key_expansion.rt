//! KeyExpansion: the words of a key, and those that are made of them.
ghost use Rattle.std.specs.Prelude.{◌≡◌, ◌≤◌, ◌<◌};
ghost use Rattle.units.specs.Sums.{sums};
ghost use Rattle.aes.specs.KeyExpansion.{addend, key_expansion, sub_word};

use byte_field::sub_bytes;
use planes::Planes;

/// How many words a key of AES-256 has.
const KEY_WORDS: usize = 8;

/// How many words there are for fifteen round keys.
pub const WORDS: usize = 60;

/// The powers of x that go into each eighth word from the eighth on.
const ROUND_CONSTANTS: [u8; 7] = [1, 2, 4, 8, 16, 32, 64];

/// The sixty words of a key.
#[tactic(auto, using(crate::proofs::KeyLaws::no_words, crate::proofs::KeyLaws::not_expanded))]
pub fn key_expansion(key: &[u8; 32]) -> [[u8; 4]; WORDS]
    ensures { result ≡ key_expansion key.now }
{
    let mut words = [[0; 4]; WORDS];
    for i in 0..KEY_WORDS {
        words[i] = [key[4 * i], key[4 * i + 1], key[4 * i + 2], key[4 * i + 3]];
    }
    for i in KEY_WORDS..WORDS {
        words[i] = sum(words[i - KEY_WORDS], addend(i, words[i - 1]));
    }
    words
}

/// What is added to the word eight places before word `i` to make word `i`, from the word before it.
#[tactic(auto, using(crate::proofs::KeyLaws::addend_eighth))]
fn addend(i: usize, word: [u8; 4]) -> [u8; 4]
    requires from { 8 ≤ i }
    requires below { i < 60 }
    ensures { result ≡ addend i word }
{
    match i % KEY_WORDS {
        0 => {
            let [a, b, c, d] = word;
            let constant = ROUND_CONSTANTS[i / KEY_WORDS - 1];
            sum(sub_word([b, c, d, a]), [constant, 0, 0, 0])
        }
        4 => sub_word(word),
        _ => word,
    }
}

/// SubWord, through the same circuit as SubBytes.
fn sub_word(word: [u8; 4]) -> [u8; 4]
    ensures { result ≡ sub_word word }
{
    let [a, b, c, d] = word;
    let block = [a, b, c, d, 0, 0, 0, 0, 0, 0, 0, 0, 0, 0, 0, 0];
    let [first, ..] = sub_bytes(Planes::from_blocks(&[block; 8])).to_blocks();
    [first[0], first[1], first[2], first[3]]
}

/// The sum of two words.
fn sum(a: [u8; 4], b: [u8; 4]) -> [u8; 4]
    ensures { result ≡ sums a b }
{
    [a[0] ^ b[0], a[1] ^ b[1], a[2] ^ b[2], a[3] ^ b[3]]
}
