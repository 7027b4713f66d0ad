//! A listener near the junction, who hears each frame, and forges: frames of bytes of its own, and old frames as they were or
//! changed.
use super::chance::Chance;
use super::counters::count;
use frames::{HEAD, frame_length, head};
use replay::Offered;
use std::alloc::{AllocError, Global};
use std::fmt;
use units::Bits;

/// How many of the last frames the listener plays with, mostly.
const RECENT: usize = 40;

/// A frame that was sealed: which call of the list sealed it, and how many bytes it has.
#[derive(Clone, Copy)]
pub struct SealedFrame {
    pub call: usize,
    pub length: usize,
}

/// What is the same in the head of each frame of the link, as anyone can hear.
#[derive(Clone, Copy)]
pub struct Look {
    pub line: u8,
    pub tag_size: u8,
}

/// The length of the AAD in a frame that the listener makes.
const AAD_BITS: Bits = Bits(24);

/// What the listener did in a day.
#[derive(Clone, Copy)]
pub struct Forgeries {
    pub played_again: u64,
    pub changed: u64,
    pub made: u64,
}

#[derive(Drop)]
pub struct Listener {
    chance: Chance,
    look: Look,
    pub forgeries: Forgeries,
}

impl Listener {
    pub fn new(seed: u64, look: Look) -> Listener {
        Listener {
            chance: Chance::new(seed),
            look,
            forgeries: Forgeries {
                played_again: 0,
                changed: 0,
                made: 0,
            },
        }
    }

    /// What the listener offers in a minute, if anything: it knows the frames so far, and the next count.
    pub fn offers(
        &mut self,
        heap: Global,
        heard: &[SealedFrame],
        next: u32,
    ) -> Result<Option<Offered>, AllocError> {
        if !self.chance.happens(60) {
            return Ok(None);
        }
        match self.chance.below(8) {
            0..=1 => Ok(self.play_again(heard, heard.len())),
            2..=3 => Ok(self.play_again(heard, RECENT)),
            4..=6 => Ok(self.change(heard)),
            _ => {
                count(&mut self.forgeries.made);
                Ok(Some(Offered::Bytes(self.make(heap, next)?)))
            }
        }
    }

    /// One of so many frames that were heard last.
    fn pick(&mut self, heard: &[SealedFrame], among: usize) -> Option<SealedFrame> {
        let back = self.chance.below(among.min(heard.len()).max(1));
        heard.iter().rev().nth(back).copied()
    }

    fn play_again(&mut self, heard: &[SealedFrame], among: usize) -> Option<Offered> {
        let frame = self.pick(heard, among)?;
        count(&mut self.forgeries.played_again);
        Some(Offered::Sealed(frame.call))
    }

    /// A frame with one byte changed.
    fn change(&mut self, heard: &[SealedFrame]) -> Option<Offered> {
        let frame = self.pick(heard, RECENT)?;
        count(&mut self.forgeries.changed);
        let (place, sum) = match self.chance.below(6) {
            // The direction.
            0 => (2, 1),
            // The count.
            1 => (7, self.chance.sum()),
            // The kind of message, and the spare bits behind it.
            2 => (HEAD + 2, 0x30),
            3 => (HEAD + 2, 0x01),
            // The message or the tag.
            _ => (
                HEAD + 3
                    + self
                        .chance
                        .below(frame.length.saturating_sub(HEAD + 3).max(1)),
                self.chance.sum(),
            ),
        };
        Some(Offered::Damaged {
            call: frame.call,
            place,
            sum,
        })
    }

    /// A frame of bytes of its own: noise, or what looks like a frame of the link with a count that has not been used yet.
    fn make(&mut self, heap: Global, next: u32) -> Result<Vec<u8>, AllocError> {
        let mut frame = Vec::new(heap);
        let mut length = 1 + self.chance.below(60);
        if self.chance.happens(600) {
            let count = next.saturating_add(self.chance.below(1000) as u32);
            let bits = Bits(length as u32 * 8);
            let Look { line, tag_size } = self.look;
            frame.extend_from_slice(&head(line, tag_size, count, AAD_BITS, bits))?;
            length = frame_length(tag_size, AAD_BITS, bits).0;
        }
        for _ in frame.len()..length {
            frame.push(self.chance.byte())?;
        }
        Ok(frame)
    }
}

impl Forgeries {
    pub fn total(&self) -> u64 {
        self.made
            .saturating_add(self.changed)
            .saturating_add(self.played_again)
    }
}

impl fmt::Display for Forgeries {
    fn fmt<W: fmt::Write>(&self, f: &mut fmt::Formatter<W>) -> fmt::Result {
        let total = self.total();
        let made = self.made;
        write!(
            f,
            "  frames of a listener: {total}\n    of its own bytes: {made}\n"
        )?;
        let changed = self.changed;
        let played_again = self.played_again;
        write!(
            f,
            "    heard and changed: {changed}\n    heard and played again: {played_again}"
        )
    }
}
