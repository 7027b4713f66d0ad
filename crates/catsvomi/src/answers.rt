//! What a command answers, and how that is written.
use super::listings::{FrameListing, Listing};
use field::Block;
use hexadecimal::Hex;
use link::Opened;
use std::fmt;
use units::Refusal;

#[derive(Drop)]
pub enum Answer {
    Help,
    Recording(Listing),
    Block(Block),
    Bytes(Vec<u8>),
    Blocks(Vec<Block>),
    Covered(Covered),
    Parts(FrameListing),
    Received(Received),
    Figure(u8),
    Ok,
    Refused(Refusal),
}

/// A ciphertext and the tag that goes with it.
#[derive(Drop)]
pub struct Covered {
    pub ciphertext: Vec<u8>,
    pub tag: Vec<u8>,
}

/// A message that an end opened, and what the end says of it.
#[derive(Drop)]
pub struct Received {
    pub opened: Opened,
    pub message: Vec<u8>,
}

impl Answer {
    /// The answer to a command that may be refused.
    pub fn of(answer: Result<Answer, Refusal>) -> Answer {
        answer.unwrap_or_else(Answer::Refused)
    }

    /// The refusal, if the command was refused.
    pub fn refusal(&self) -> Option<Refusal> {
        match self {
            Answer::Recording(listing) => listing.verdict.err(),
            Answer::Parts(listing) => listing.refusal(),
            Answer::Refused(refusal) => Some(*refusal),
            _ => None,
        }
    }
}

impl fmt::Display for Answer {
    fn fmt<W: fmt::Write>(&self, f: &mut fmt::Formatter<W>) -> fmt::Result {
        match self {
            Answer::Help => f.write_str(HELP),
            Answer::Recording(listing) => write!(f, "{listing}"),
            Answer::Block(block) => write_bytes(f, &block.to_bytes()),
            Answer::Bytes(bytes) => write_bytes(f, bytes.as_slice()),
            Answer::Blocks(blocks) => write_blocks(f, blocks.as_slice()),
            Answer::Covered(covered) => write_covered(f, covered),
            Answer::Parts(listing) => write!(f, "{listing}"),
            Answer::Received(received) => write_received(f, received),
            Answer::Figure(figure) => write!(f, "{figure}"),
            Answer::Ok => f.write_str("ok"),
            Answer::Refused(refusal) => write!(f, "{refusal}"),
        }
    }
}

fn write_bytes<W: fmt::Write>(f: &mut fmt::Formatter<W>, bytes: &[u8]) -> fmt::Result {
    let shown = Hex(bytes);
    write!(f, "{shown}")
}

/// Blocks one after another, or `-` for none.
fn write_blocks<W: fmt::Write>(f: &mut fmt::Formatter<W>, blocks: &[Block]) -> fmt::Result {
    if blocks.is_empty() {
        return f.write_str("-");
    }
    for block in blocks {
        write_bytes(f, &block.to_bytes())?;
    }
    Ok(())
}

/// A ciphertext, a space and a tag.
fn write_covered<W: fmt::Write>(f: &mut fmt::Formatter<W>, covered: &Covered) -> fmt::Result {
    write_bytes(f, covered.ciphertext.as_slice())?;
    f.write_str(" ")?;
    write_bytes(f, covered.tag.as_slice())
}

/// What the end says, and the message.
fn write_received<W: fmt::Write>(f: &mut fmt::Formatter<W>, received: &Received) -> fmt::Result {
    let Opened {
        count,
        bits,
        aad_place,
        aad_bits,
    } = received.opened;
    let bits = bits.0;
    let aad_at = aad_place.0;
    let aad_bits = aad_bits.0;
    let message = Hex(received.message.as_slice());
    write!(
        f,
        "count={count} bits={bits} aad_at={aad_at} aad_bits={aad_bits} message={message}"
    )
}

const HELP: &str = "catsvomi reads commands, one a line: a word, and then fields as key=value.
Bytes, HEX, are hexadecimal, two digits to a byte, and - stands for none; a
BLOCK is 16 bytes. Other numbers are decimal. Empty lines and lines that begin
with # are passed over. The answer to any command but help ends in one line: its
figures, ok, or refused NUMBER LAYER PLACE. A line that cannot be read gets
error: line N: and why, and the run goes on. An account comes at the end.

  help
      This text.
  recording data=HEX
      Lists the records of a recording, one a line and each with its offset, up
      to the first fault, and then says whether the whole recording is sound.
  dot a=BLOCK b=BLOCK
      The product of two blocks in the field, a block.
  polyval h=BLOCK data=HEX
      The bytes of data folded with h, from zero, a block.
  tag h=BLOCK q=BLOCK p=BLOCK t=SIZE aad_bits=BITS aad=HEX bits=BITS data=HEX
      The tag of SIZE bytes, 4 to 16, of an AAD and a ciphertext, data. Each has
      exactly the bytes that its bits fill.
  aes256 key=TEXT block=BLOCK
      The encryption of a block under a key, a block.
  key text=TEXT
      Says whether a text is that of a key, 64 digits 0 to 9 or a to f.
  blocks key=TEXT nonce=HEX first=INDEX count=COUNT
      COUNT blocks of keystream, at most 65536, under a nonce of 12 bytes, from an
      index on. With recording=HEX in the place of key=, those of a recording;
      with_key=TEXT or with_recording=HEX besides makes a pair of the two.
  nea5 FROM bits=BITS data=HEX
      The ciphertext of a message, data, or the message of a ciphertext.
  nia5 FROM t=SIZE bits=BITS data=HEX
      The tag of SIZE bytes over data.
  nca5 FROM t=SIZE aad_bits=BITS aad=HEX bits=BITS data=HEX
      The ciphertext of a message, data, a space, and the tag of SIZE bytes over
      the AAD and the ciphertext.
  nca5-open FROM t=SIZE aad_bits=BITS aad=HEX bits=BITS data=HEX tag=HEX
      The message of a ciphertext, data, whose tag is right.
  frame FROM t=SIZE aad_bits=BITS aad=HEX bits=BITS data=HEX
      The frame of a message, data, as the link seals it with COUNT. The AAD has
      at most 512 bits, the message 11200.
  In the last five FROM stands for
      key=TEXT count=COUNT bearer=BEARER direction=DIRECTION extra=HEX
  with key= replaced or paired as for blocks. COUNT is 0 to 4294967295; BEARER,
  DIRECTION and SIZE are 0 to 255, and what is out of range is refused, as are
  bytes that the bits do not fill; extra is six bytes or -. Three more fields
  may be given, each 0 to 65536: work=LENGTH of the work area, else 64;
  room=LENGTH of the buffer for the result, of nca5 for the ciphertext; and
  tag_room=LENGTH of the buffer for the tag of nca5. Without them a buffer has
  as many bytes as data, that of a tag SIZE, and that of a frame 1492.
  parts frame=HEX
      The parts of a frame, each as a field.
  sender key=TEXT bearer=BEARER direction=DIRECTION t=SIZE extra=HEX first=COUNT
      Makes the sending end of a link, which uses the counts from COUNT on, and
      gives up the one before. key= is replaced or paired as for blocks.
  receiver, with the fields of sender
      Makes the receiving end, which opens no count below COUNT, and gives up
      the one before.
  seal aad_bits=BITS aad=HEX bits=BITS data=HEX
      The frame of a message, data, that the sending end seals with its next
      count.
  open frame=HEX
      What a frame holds that the receiving end opens: the count, the bits of
      the message, where the AAD begins in the frame, its bits, and the message.
  loss
      How many in a hundred of the last counts up to the highest opened, at most
      64 of them, the receiving end has not opened.
  seal and open take work= and room= as well. Without room= the buffer for a
  frame has 1492 bytes, and that for a message 1400.";
