//! A command line taken apart: a word and then fields as `key=value`.
use super::errors::Unreadable;
use super::sources::{LineGenerator, SourceGenerator};
use field::Block;
use generator::{Key, Nonce};
use hexadecimal::Fault;
use nonces::ExtraIv;
use std::alloc::{AllocError, Global};
use std::collections::BTreeMap;
use std::num::ParseIntError;
use std::ops::RangeInclusive;
use std::str::{FromStr, SplitWhitespace};
use units::{BitString, Bits, Refusal};

/// The most bytes of a buffer whose size a field names.
const MOST_ROOM: u32 = 65_536;

/// The value of a field, and how many fields stand before it in the line.
#[derive(Clone, Copy)]
struct Field<'a> {
    place: usize,
    value: &'a str,
}

/// The fields of a command that have not been taken yet, by their keys.
#[derive(Drop)]
pub struct Fields<'a> {
    heap: Global,
    left: BTreeMap<&'a str, Field<'a>>,
}

impl<'a> Fields<'a> {
    /// Reads the words after the command's own; no key may be given twice.
    pub fn read(heap: Global, words: SplitWhitespace<'a>) -> Result<Fields<'a>, Unreadable<'a>> {
        let mut left = BTreeMap::new(heap);
        for (place, word) in words.enumerate() {
            let (key, value) = word.split_once('=').ok_or(Unreadable::NoField(word))?;
            if left.insert(key, Field { place, value })?.is_some() {
                return Err(Unreadable::Twice(key));
            }
        }
        Ok(Fields { heap, left })
    }

    /// Takes the value of a field.
    fn take(&mut self, key: &'static str) -> Result<&'a str, Unreadable<'a>> {
        let field = self.left.remove(key).ok_or(Unreadable::Missing(key))?;
        Ok(field.value)
    }

    /// Whether a field is there and has not been taken.
    fn has(&self, key: &'static str) -> bool {
        self.left.contains_key(key)
    }

    /// Takes a field of bytes: hexadecimal, or `-` for none.
    pub fn bytes(&mut self, key: &'static str) -> Result<Vec<u8>, Unreadable<'a>> {
        let value = self.take(key)?;
        if value == "-" {
            return Ok(Vec::new(self.heap));
        }
        hexadecimal::decode(self.heap, value).map_err(|fault| match fault {
            Fault::Text => Unreadable::NoHex(key),
            Fault::Memory => Unreadable::NoMemory(AllocError),
        })
    }

    /// Takes a field of sixteen bytes.
    pub fn block(&mut self, key: &'static str) -> Result<Block, Unreadable<'a>> {
        match self.bytes(key)?.as_slice().as_chunks::<16>() {
            ([block], []) => Ok(Block::from_bytes(block)),
            _ => Err(Unreadable::NoBlock(key)),
        }
    }

    /// Takes a field of twelve bytes.
    pub fn nonce(&mut self, key: &'static str) -> Result<Nonce, Unreadable<'a>> {
        match self.bytes(key)?.as_slice().as_chunks::<12>() {
            ([nonce], []) => Ok(Nonce(*nonce)),
            _ => Err(Unreadable::NoNonce(key)),
        }
    }

    /// Takes a field of the six bytes of EXTRA_IV, or of none.
    pub fn extra_iv(&mut self, key: &'static str) -> Result<Option<ExtraIv>, Unreadable<'a>> {
        match self.bytes(key)?.as_slice() {
            [] => Ok(None),
            [b0, b1, b2, b3, b4, b5] => Ok(Some(ExtraIv {
                b0: *b0,
                b1: *b1,
                b2: *b2,
                b3: *b3,
                b4: *b4,
                b5: *b5,
            })),
            _ => Err(Unreadable::NoExtraIv(key)),
        }
    }

    /// Takes a key text, and answers its key or why it is none.
    pub fn key(&mut self, key: &'static str) -> Result<Result<Key, Refusal>, Unreadable<'a>> {
        Ok(Key::from_text(self.take(key)?))
    }

    /// Takes what a generator is made of, and makes it: of a key text or a recording, whichever is there.
    fn source(
        &mut self,
        key: &'static str,
        recording: &'static str,
    ) -> Result<Result<SourceGenerator, Refusal>, Unreadable<'a>> {
        match (self.has(key), self.has(recording)) {
            (true, true) => Err(Unreadable::Both(key, recording)),
            (false, true) => Ok(Ok(SourceGenerator::of_recording(self.bytes(recording)?))),
            _ => Ok(self.key(key)?.map(|key| SourceGenerator::of_key(&key))),
        }
    }

    /// The same, if either is there.
    fn optional_source(
        &mut self,
        key: &'static str,
        recording: &'static str,
    ) -> Result<Result<Option<SourceGenerator>, Refusal>, Unreadable<'a>> {
        if self.has(key) || self.has(recording) {
            return Ok(self.source(key, recording)?.map(Some));
        }
        Ok(Ok(None))
    }

    /// Takes what the generator of a line is made of, and makes it: of one source, or of two for a pair. Answers why there
    /// is none if a key text is none.
    pub fn generator(&mut self) -> Result<Result<LineGenerator, Refusal>, Unreadable<'a>> {
        let first = self.source("key", "recording")?;
        let second = self.optional_source("with_key", "with_recording")?;
        Ok(LineGenerator::new(first, second))
    }

    /// Takes a field that is a decimal number within a range.
    pub fn number(
        &mut self,
        key: &'static str,
        range: RangeInclusive<u32>,
    ) -> Result<u32, Unreadable<'a>> {
        let text = self.take(key)?;
        match decimal(text) {
            Some(number) if range.contains(&number) => Ok(number),
            _ => Err(Unreadable::NoNumber {
                key,
                least: u64::from(*range.start()),
                most: u64::from(*range.end()),
            }),
        }
    }

    /// Takes a field that is a decimal number of up to 8 bits.
    pub fn byte(&mut self, key: &'static str) -> Result<u8, Unreadable<'a>> {
        decimal(self.take(key)?).ok_or(Unreadable::NoNumber {
            key,
            least: 0,
            most: u64::from(u8::MAX),
        })
    }

    /// Takes a field that is a decimal number of up to 64 bits.
    pub fn index(&mut self, key: &'static str) -> Result<u64, Unreadable<'a>> {
        decimal(self.take(key)?).ok_or(Unreadable::NoNumber {
            key,
            least: 0,
            most: u64::MAX,
        })
    }

    /// Takes a number of bits and exactly the bytes that they fill.
    pub fn bit_string(
        &mut self,
        bits_key: &'static str,
        key: &'static str,
    ) -> Result<BitField, Unreadable<'a>> {
        let string = self.any_bit_string(bits_key, key)?;
        if string.byte_length() != string.bits.bytes().0 {
            return Err(Unreadable::NotFilled { key, bits_key });
        }
        Ok(string)
    }

    /// Takes a number of bits and any number of bytes, whether the bits fill them or not.
    pub fn any_bit_string(
        &mut self,
        bits_key: &'static str,
        key: &'static str,
    ) -> Result<BitField, Unreadable<'a>> {
        let bits = Bits(self.number(bits_key, 0..=u32::MAX)?);
        let bytes = self.bytes(key)?;
        Ok(BitField { bits, bytes })
    }

    /// Takes a field of bytes, all bits of which count.
    pub fn whole_bytes(&mut self, key: &'static str) -> Result<BitField, Unreadable<'a>> {
        let bytes = self.bytes(key)?;
        let bits = bytes
            .len()
            .checked_mul(8)
            .and_then(|bits| u32::try_from(bits).ok())
            .ok_or(Unreadable::TooLong(key))?;
        Ok(BitField {
            bits: Bits(bits),
            bytes,
        })
    }

    /// A buffer of so many bytes for an answer.
    pub fn buffer(&self, count: usize) -> Result<Vec<u8>, Unreadable<'a>> {
        Ok(Vec::from_elem(self.heap, 0, count)?)
    }

    /// A buffer of as many bytes as a field says, or of so many where that field is not there.
    pub fn room(&mut self, key: &'static str, otherwise: usize) -> Result<Vec<u8>, Unreadable<'a>> {
        if !self.has(key) {
            return self.buffer(otherwise);
        }
        let count = self.number(key, 0..=MOST_ROOM)?;
        self.buffer(count as usize)
    }

    /// A buffer of so many blocks for an answer.
    pub fn block_buffer(&self, count: usize) -> Result<Vec<Block>, Unreadable<'a>> {
        Ok(Vec::from_elem(self.heap, Block::ZERO, count)?)
    }

    /// Ends the reading: no field may be left; the first of the line that is left is named. What changes an end of the link does
    /// so only after this.
    pub fn end(&self) -> Result<(), Unreadable<'a>> {
        match self.left.iter().min_by_key(|(_, field)| field.place) {
            Some((key, _)) => Err(Unreadable::Unexpected(*key)),
            None => Ok(()),
        }
    }
}

/// A decimal number; `parse` would take a plus sign as well.
fn decimal<T: FromStr<Err = ParseIntError>>(text: &str) -> Option<T> {
    if text.starts_with('+') {
        return None;
    }
    text.parse::<T>().ok()
}

/// A bit string as a line gives it, with bytes of its own.
#[derive(Drop)]
pub struct BitField {
    bits: Bits,
    bytes: Vec<u8>,
}

impl BitField {
    /// How many bytes there are, whether the bits fill them or not.
    pub fn byte_length(&self) -> usize {
        self.bytes.len()
    }

    pub fn as_bit_string(&self) -> BitString<'_> {
        BitString {
            bits: self.bits,
            bytes: self.bytes.as_slice(),
        }
    }
}
