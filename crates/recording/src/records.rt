//! One record of a recording. It is begun by one of two marks:
//!
//! - `4B 53`, then a nonce of 12 bytes, a block count as two bytes, most significant first, from 1 to 1,024, and the
//!   blocks of 16 bytes;
//! - `52 4D`, then one length byte and so many bytes of remark, perhaps none.
ghost use Rattle.std.specs.Prelude.{◌≡◌};
ghost use Rattle.std.specs.Option.{option_map};
ghost use Rattle.recording.specs.Records.{Faithful, first, first_keystream, first_remark, parsed};

/// What begins a keystream record.
const KEYSTREAM_MARK: &[u8; 2] = b"KS";

/// What begins a remark.
const REMARK_MARK: &[u8; 2] = b"RM";

/// The fewest blocks that a keystream record has.
const FEWEST_BLOCKS: usize = 1;

/// The most blocks that a keystream record has.
const MOST_BLOCKS: usize = 1_024;

/// One of the two kinds of record. Its parts are parts of the recording. Keystream is secret, so it has neither `Debug`
/// nor equality.
#[derive(Clone, Copy)]
pub enum Record<'a> {
    /// Blocks of keystream under a nonce.
    Keystream {
        nonce: &'a [u8; 12],
        blocks: &'a [[u8; 16]],
    },
    /// A remark, perhaps empty.
    Remark {
        text: &'a [u8],
    },
}

impl<'a> Record<'a> {
    /// The record with which `bytes` begins, and the bytes after it; nothing where `bytes` begins with no record.
    pub fn first(bytes: &'a [u8]) -> Option<(Record<'a>, &'a [u8])>
        ensures value { option_map parsed result ≡ first bytes.now }
        ensures faithful { Faithful bytes.now (option_map parsed result) }
    {
        let (mark, rest) = bytes.split_first_chunk::<2>()?;
        match mark {
            KEYSTREAM_MARK => keystream(rest),
            REMARK_MARK => remark(rest),
            _ => None,
        }
    }
}

/// The keystream record whose bytes after the mark `bytes` begins with, and the bytes after it.
#[tactic(auto, unfolding(units::specs::Strings::two_at))]
fn keystream(bytes: &[u8]) -> Option<(Record<'_>, &[u8])>
    ensures { option_map parsed result ≡ first_keystream bytes.now }
{
    let (nonce, rest) = bytes.split_first_chunk::<12>()?;
    let (count, rest) = rest.split_first_chunk::<2>()?;
    let count = usize::from(u16::from_be_bytes(*count));
    if !(FEWEST_BLOCKS..=MOST_BLOCKS).contains(&count) {
        return None;
    }
    let (body, rest) = rest.split_at_checked(16 * count)?;
    let (blocks, _) = body.as_chunks::<16>();
    Some((Record::Keystream { nonce, blocks }, rest))
}

/// The remark whose bytes after the mark `bytes` begins with, and the bytes after it.
fn remark(bytes: &[u8]) -> Option<(Record<'_>, &[u8])>
    ensures { option_map parsed result ≡ first_remark bytes.now }
{
    let (length, rest) = bytes.split_first()?;
    let (text, rest) = rest.split_at_checked(usize::from(*length))?;
    Some((Record::Remark { text }, rest))
}
