//! A recording and its records, listed, and a frame and its parts.
use frames::Frame;
use hexadecimal::Hex;
use recording::{Reader, Record, check};
use std::fmt;
use units::Refusal;

/// The bytes of a recording, and the verdict on the whole of it.
#[derive(Drop)]
pub struct Listing {
    data: Vec<u8>,
    pub verdict: Result<(), Refusal>,
}

impl Listing {
    pub fn new(data: Vec<u8>) -> Listing {
        let verdict = check(data.as_slice());
        Listing { data, verdict }
    }
}

/// The records up to the first fault, each with its offset, and then the verdict.
impl fmt::Display for Listing {
    fn fmt<W: fmt::Write>(&self, f: &mut fmt::Formatter<W>) -> fmt::Result {
        for (offset, record) in Reader::new(self.data.as_slice()).record_indices() {
            write!(f, "  {} ", offset.0)?;
            write_record(f, record)?;
            writeln!(f)?;
        }
        match self.verdict {
            Ok(()) => f.write_str("ok"),
            Err(refusal) => write!(f, "{refusal}"),
        }
    }
}

/// A record's kind and what there is to say of it. A remark is shown as text where each byte is a printable character.
fn write_record<W: fmt::Write>(f: &mut fmt::Formatter<W>, record: Record<'_>) -> fmt::Result {
    match record {
        Record::Keystream { nonce, blocks } => {
            let nonce = Hex(nonce);
            let count = blocks.len();
            write!(f, "keystream nonce={nonce} blocks={count}")
        }
        Record::Remark { text } => {
            let length = text.len();
            match printable(text) {
                Some(text) => write!(f, "remark length={length} text={text}"),
                None => {
                    let bytes = Hex(text);
                    write!(f, "remark length={length} bytes={bytes}")
                }
            }
        }
    }
}

/// The bytes as text, if each is a printable character of ASCII.
fn printable(bytes: &[u8]) -> Option<&str> {
    let text = std::str::from_utf8(bytes).ok()?;
    text.bytes()
        .all(|byte| matches!(byte, b' '..=b'~'))
        .then_some(text)
}

/// The bytes of a frame.
#[derive(Drop)]
pub struct FrameListing {
    data: Vec<u8>,
}

impl FrameListing {
    pub fn new(data: Vec<u8>) -> FrameListing {
        FrameListing { data }
    }

    /// The refusal, if the bytes are no frame.
    pub fn refusal(&self) -> Option<Refusal> {
        Frame::parse(self.data.as_slice()).err()
    }
}

/// The parts of the frame, or why it is none.
impl fmt::Display for FrameListing {
    fn fmt<W: fmt::Write>(&self, f: &mut fmt::Formatter<W>) -> fmt::Result {
        match Frame::parse(self.data.as_slice()) {
            Ok(frame) => write_frame(f, frame),
            Err(refusal) => write!(f, "{refusal}"),
        }
    }
}

/// The parts, each length before what it is of. The bytes are shown as they stand in the frame.
fn write_frame<W: fmt::Write>(f: &mut fmt::Formatter<W>, frame: Frame<'_>) -> fmt::Result {
    let bearer = frame.line / 2;
    let direction = frame.line % 2;
    let size = frame.tag_size;
    let count = frame.count;
    write!(
        f,
        "bearer={bearer} direction={direction} t={size} count={count} "
    )?;
    let aad_bits = frame.aad.bits.0;
    let aad = Hex(frame.aad.bytes);
    write!(f, "aad_bits={aad_bits} aad={aad} ")?;
    let bits = frame.ciphertext.bits.0;
    let ciphertext = Hex(frame.ciphertext.bytes);
    let tag = Hex(frame.tag);
    write!(f, "bits={bits} ciphertext={ciphertext} tag={tag}")
}
