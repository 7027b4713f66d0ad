//! Keys, and how one is read from its text.
ghost use Rattle.std.specs.Prelude.{◌≡◌};
ghost use Rattle.generator.specs.Keys.{OwnText, digit, faulty, key_read};

use units::{Layer, Reason, Refusal};

/// How many characters a key text has.
const TEXT_LENGTH: usize = 64;

/// A key. It is secret, so it has neither `Debug` nor equality.
#[derive(Clone, Copy)]
pub struct Key(pub [u8; 32]);

impl Key {
    /// The key that a text is: exactly 64 characters 0 to 9 or a to f, two to a byte, the high digit first. A fault is
    /// refused with the number of good characters before it as place; what comes past the 64th is a fault.
    pub fn from_text(text: &str) -> Result<Key, Refusal>
        ensures value { result ≡ key_read text.now }
        ensures own { OwnText text.now result }
    {
        let mut characters = text.chars();
        let mut key = [0; 32];
        for (place, byte) in key.iter_mut().enumerate() {
            let high = characters.next().and_then(digit).ok_or(refuse(2 * place))?;
            let low = characters
                .next()
                .and_then(digit)
                .ok_or(refuse(2 * place + 1))?;
            *byte = 16 * high + low;
        }
        match characters.next() {
            None => Ok(Key(key)),
            Some(_) => Err(refuse(TEXT_LENGTH)),
        }
    }
}

/// The value of a digit of a key text.
fn digit(character: char) -> Option<u8>
    ensures { result ≡ digit character }
{
    match character {
        '0'..='9' => Some(character as u8 - b'0'),
        'a'..='f' => Some(character as u8 - b'a' + 10),
        _ => None,
    }
}

/// A fault of a key text after so many good characters.
fn refuse(good: usize) -> Refusal
    ensures { result ≡ faulty good }
{
    Refusal {
        reason: Reason::FaultyKey,
        layer: Layer::KeyText,
        place: good as u64,
    }
}
