//! Calls, and what comes of them.
use link::Opened;
use units::{Bits, Bytes, Refusal};

/// All that the caller of a seal chooses. The work area is given by its length; `buffer` is what the frame buffer holds
/// before the call.
#[derive(Drop)]
pub struct Sealing {
    pub work: Bytes,
    pub aad_bits: Bits,
    pub aad: Vec<u8>,
    pub bits: Bits,
    pub message: Vec<u8>,
    pub buffer: Vec<u8>,
}

/// The frame that is offered to an open.
#[derive(Drop)]
pub enum Offered {
    /// These bytes.
    Bytes(Vec<u8>),
    /// The frame that the call at this place of the list sealed; no bytes if it sealed none.
    Sealed(usize),
    /// The same, with the byte at a place changed by a bitwise sum.
    Damaged { call: usize, place: usize, sum: u8 },
}

/// All that the caller of an open chooses. `buffer` is what the message buffer holds before the call.
#[derive(Drop)]
pub struct Opening {
    pub work: Bytes,
    pub frame: Offered,
    pub buffer: Vec<u8>,
}

/// A call on one of the two ends.
#[derive(Drop)]
pub enum Call {
    Seal(Sealing),
    Open(Opening),
    Loss,
}

/// A seal that was made, its answer, and what the frame buffer then held.
#[derive(Drop)]
pub struct SealEvent {
    pub asked: Sealing,
    pub answer: Result<Bytes, Refusal>,
    pub buffer: Vec<u8>,
}

/// An open that was made: the length of its work area, the frame that was offered and what the message buffer held before;
/// its answer, and what the message buffer then held.
#[derive(Drop)]
pub struct OpenEvent {
    pub work: Bytes,
    pub frame: Vec<u8>,
    pub before: Vec<u8>,
    pub answer: Result<Opened, Refusal>,
    pub buffer: Vec<u8>,
}

/// What came of a call.
#[derive(Drop)]
pub enum Event {
    Seal(SealEvent),
    Open(OpenEvent),
    Loss(u8),
}
