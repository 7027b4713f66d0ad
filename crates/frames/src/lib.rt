//! Frames: what goes on the radio for a message.
//!
//! A frame is the mark 54 46; one byte BEARER * 2 + DIRECTION; one byte of tag size; COUNT in four bytes; the length of the
//! AAD in bits in two bytes, and that of the message; then AAD, ciphertext and tag. Numbers have the most significant byte
//! first.
#![tactic(auto)]

ghost use Rattle.std.specs.Prelude.{◌≡◌, ℕ, ◌+◌, ◌≤◌, IfOk, length};
ghost use Rattle.units.specs.Lengths.{filled};
ghost use Rattle.units.specs.Refusals.{told};
ghost use Rattle.units.specs.Strings.{four_at, two_at};
ghost use Rattle.frames.specs.Frames.{FitsIn, FramesStand, broken, frame_length, head, parsed, viewed};

use nonces::{LARGEST_TAG, SMALLEST_TAG};
use units::{BitString, Bits, Bytes, Layer, Reason, Refusal};

/// The two bytes with which a frame begins.
const MARK: [u8; 2] = [0x54, 0x46];

/// The bytes before the AAD.
pub const HEAD: usize = 12;

/// The longest AAD.
pub const AAD_LIMIT: Bits = Bits(512);

/// The longest message.
pub const MESSAGE_LIMIT: Bits = Bits(11_200);

/// The length of a buffer that holds every message.
pub const MESSAGE_BUFFER: Bytes = Bytes(1_400);

/// The length of a buffer that holds every frame.
pub const FRAME_BUFFER: Bytes = Bytes(1_492);

// The two lengths follow from the limits.
const _: () = prove!(MESSAGE_BUFFER.0 * 8 == MESSAGE_LIMIT.0 as usize);

const _: () = prove!(
    FRAME_BUFFER.0 == HEAD + AAD_LIMIT.0 as usize / 8 + MESSAGE_BUFFER.0 + LARGEST_TAG as usize
);

/// The highest BEARER * 2 + DIRECTION.
const HIGHEST_LINE: u8 = 63;

/// The parts of a frame. `line` is BEARER * 2 + DIRECTION.
#[derive(Clone, Copy)]
pub struct Frame<'a> {
    pub line: u8,
    pub tag_size: u8,
    pub count: u32,
    pub aad: BitString<'a>,
    pub ciphertext: BitString<'a>,
    pub tag: &'a [u8],
}

impl<'a> Frame<'a> {
    /// The parts of a frame, as parts of its bytes. Bytes that break the layout are refused; the place is their length if
    /// that is under 12, else the smallest place that fails: 0 or 1 (the mark), 2 (above 63), 3 (outside 4 to 16), 8 (above
    /// 512), 10 (above 11,200) or, for a wrong total, 12.
    #[tactic(auto, unfolding(crate::specs::Frames::parts, crate::specs::Frames::frame_length))]
    pub fn parse(bytes: &'a [u8]) -> Result<Frame<'a>, Refusal>
        ensures parts { viewed result ≡ parsed bytes.entry.now }
        ensures fits { FitsIn result }
        ensures within { IfOk result (λ p. 12 + filled p.aad.bits.0 ≤ length bytes.entry.now) }
    {
        broken_if(bytes.len() < HEAD, bytes.len() as u64)?;
        broken_if(bytes[0] != MARK[0], 0)?;
        broken_if(bytes[1] != MARK[1], 1)?;
        let line = bytes[2];
        broken_if(line > HIGHEST_LINE, 2)?;
        let tag_size = bytes[3];
        broken_if(!(SMALLEST_TAG..=LARGEST_TAG).contains(&tag_size), 3)?;
        let aad_bits = two_at(bytes, 8);
        broken_if(aad_bits > AAD_LIMIT, 8)?;
        let bits = two_at(bytes, 10);
        broken_if(bits > MESSAGE_LIMIT, 10)?;
        let length = frame_length(tag_size, aad_bits, bits);
        broken_if(Bytes(bytes.len()) != length, 12)?;
        let (_, body) = bytes.split_at(HEAD);
        let (aad, rest) = body.split_at(aad_bits.bytes().0);
        let (ciphertext, tag) = rest.split_at(bits.bytes().0);
        Ok(Frame {
            line,
            tag_size,
            count: four_at(bytes, 4),
            aad: BitString {
                bits: aad_bits,
                bytes: aad,
            },
            ciphertext: BitString {
                bits,
                bytes: ciphertext,
            },
            tag,
        })
    }
}

/// The length of a frame.
#[tactic(auto, unfolding(crate::specs::Frames::frame_length, units::specs::Lengths::filled))]
pub fn frame_length(tag_size: u8, aad_bits: Bits, bits: Bits) -> Bytes
    ensures { result.0 ≡ frame_length tag_size aad_bits.0 bits.0 }
{
    Bytes(HEAD + aad_bits.bytes().0 + bits.bytes().0 + usize::from(tag_size))
}

/// The bytes of a frame before its AAD. Of the two lengths it holds the sixteen low bits.
#[tactic(auto, using(crate::proofs::FrameLaws::frames_stand), unfolding(crate::specs::Frames::head, units::specs::Strings::four, units::specs::Strings::two))]
pub fn head(line: u8, tag_size: u8, count: u32, aad_bits: Bits, bits: Bits) -> [u8; HEAD]
    ensures value { result ≡ head line tag_size count aad_bits.0 bits.0 }
    ensures stand { FramesStand }
{
    let [c0, c1, c2, c3] = count.to_be_bytes();
    let [_, _, a0, a1] = aad_bits.0.to_be_bytes();
    let [_, _, b0, b1] = bits.0.to_be_bytes();
    [
        MARK[0], MARK[1], line, tag_size, c0, c1, c2, c3, a0, a1, b0, b1,
    ]
}

/// The length in bits that two bytes say, the most significant first.
#[tactic(auto, unfolding(units::specs::Strings::two_at))]
fn two_at(bytes: &[u8], place: usize) -> Bits
    requires { place + 2 ≤ length bytes.now }
    ensures value { result.0 ≡ two_at bytes.now place }
    ensures small { result.0 ≤ 65535 }
{
    Bits(u32::from(bytes[place]) * 256 + u32::from(bytes[place + 1]))
}

/// The number that four bytes say, the most significant first.
#[tactic(auto, using(units::proofs::StringLaws::four_at_halves))]
fn four_at(bytes: &[u8], place: usize) -> u32
    requires { place + 4 ≤ length bytes.now }
    ensures { result ≡ four_at bytes.now place }
{
    two_at(bytes, place).0 * 65_536 + two_at(bytes, place + 2).0
}

/// Refuses bytes that are no frame, where a test is met. The place is the one that fails.
fn broken_if(met: bool, place: u64) -> Result<(), Refusal>
    ensures { result ≡ told (broken met place) }
{
    if met {
        Err(Refusal {
            reason: Reason::Layout,
            layer: Layer::Link,
            place,
        })
    } else {
        Ok(())
    }
}

/// What the layers above rest on. It does nothing: a caller's proof has the laws from its contract.
#[tactic(auto, using(crate::proofs::FrameLaws::frames_stand))]
pub fn laws()
    ensures { FramesStand }
{}
