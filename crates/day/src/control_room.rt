//! What the control room has of a frame that it opened.
//!
//! The parts are taken by `get`: an event of the journal does not carry the bounds that `open` promises. A part out of bounds
//! would be counted as not understood, which the account shows as 0.
use super::messages::{Label, Message};
use frames::Frame;
use link::Opened;
use replay::{OpenEvent, SealEvent};
use units::BitString;

/// What an opened frame said.
#[derive(Clone, Copy)]
pub struct Reading {
    pub label: Label,
    pub message: Message,
}

/// What an opened frame said, if that can be read.
pub fn read_opened(event: &OpenEvent, opened: Opened) -> Option<Reading> {
    let label = Label::read(aad_of(event, opened)?)?;
    let message = Message::read(label.kind, message_of(event, opened)?)?;
    Some(Reading { label, message })
}

/// The AAD of an opened frame.
fn aad_of(event: &OpenEvent, opened: Opened) -> Option<BitString<'_>> {
    let (_, rest) = event.frame.as_slice().split_at_checked(opened.aad_place.0)?;
    let bytes = rest.get(..opened.aad_bits.bytes().0)?;
    Some(BitString {
        bits: opened.aad_bits,
        bytes,
    })
}

/// The message of an opened frame.
fn message_of(event: &OpenEvent, opened: Opened) -> Option<BitString<'_>> {
    let bytes = event.buffer.as_slice().get(..opened.bits.bytes().0)?;
    Some(BitString {
        bits: opened.bits,
        bytes,
    })
}

/// Whether an opened frame is that of a seal, byte for byte, and gave the message of that seal.
pub fn is_as_sealed(event: &OpenEvent, opened: Opened, seal: &SealEvent) -> bool {
    frame_of(seal).is_some_and(|frame| frame == event.frame.as_slice())
        && opened.bits == seal.asked.bits
        && message_of(event, opened).is_some_and(|message| message.bytes
            == seal.asked.message.as_slice())
}

/// The count in the frame of a seal, if it was accepted.
pub fn count_of(seal: &SealEvent) -> Option<u32> {
    let frame = Frame::parse(frame_of(seal)?).ok()?;
    Some(frame.count)
}

/// The frame of a seal, if it was accepted.
fn frame_of(seal: &SealEvent) -> Option<&[u8]> {
    let length = seal.answer.ok()?;
    seal.buffer.as_slice().get(..length.0)
}
