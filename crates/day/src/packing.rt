//! Numbers of a few bits each, packed one after another with the most significant bit first.
use std::alloc::{AllocError, Global};
use units::{BitString, Bits};

/// Numbers that have been packed.
#[derive(Drop)]
pub struct Packed {
    pub bits: Bits,
    pub bytes: Vec<u8>,
}

impl Packed {
    pub fn new(heap: Global) -> Packed {
        Packed {
            bits: Bits(0),
            bytes: Vec::new(heap),
        }
    }

    /// Adds a number of so many bits, at most 16.
    pub fn put(&mut self, width: u32, number: u16) -> Result<(), AllocError> {
        for place in (0..width.min(16)).rev() {
            self.put_bit((number >> place) & 1 == 1)?;
        }
        Ok(())
    }

    fn put_bit(&mut self, bit: bool) -> Result<(), AllocError> {
        let place = self.bits.0 % 8;
        if place == 0 {
            self.bytes.push(0)?;
        }
        if let Some(last) = self.bytes.last_mut() {
            *last |= u8::from(bit) << (7 - place);
        }
        self.bits = Bits(self.bits.0.saturating_add(1));
        Ok(())
    }
}

/// The numbers of a bit string that are still to be taken.
#[derive(Clone, Copy)]
pub struct Unpacking<'a> {
    string: BitString<'a>,
    place: u32,
}

impl<'a> Unpacking<'a> {
    pub fn new(string: BitString<'a>) -> Unpacking<'a> {
        Unpacking { string, place: 0 }
    }

    /// Takes a number of so many bits, at most 16, as long as there are so many.
    pub fn take(&mut self, width: u32) -> Option<u16> {
        let mut number = 0u16;
        for _ in 0..width {
            number = number << 1 | u16::from(self.take_bit()?);
        }
        Some(number)
    }

    fn take_bit(&mut self) -> Option<bool> {
        if self.place >= self.string.bits.0 {
            return None;
        }
        let byte = *self.string.bytes.get((self.place / 8) as usize)?;
        let bit = (byte >> (7 - self.place % 8)) & 1;
        self.place += 1;
        Some(bit == 1)
    }

    /// Whether each bit has been taken.
    pub fn is_done(&self) -> bool {
        self.place == self.string.bits.0
    }
}
