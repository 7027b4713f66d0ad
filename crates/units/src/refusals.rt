//! How a call says no: a reason, which has a number, the layer that it names, and a place.
ghost use Rattle.std.specs.Prelude.{◌≡◌, Some};
ghost use Rattle.units.specs.Refusals.{line, number, word};
ghost use Rattle.units.specs.InWords.{explained, words};

use std::error::Error;
use std::fmt;

/// Why a call says no. The discriminant is the number by which people and programs know the reason.
#[derive(Clone, Copy, Debug, PartialEq, Eq, PartialOrd, Ord)]
pub enum Reason {
    /// The work area has not exactly 64 bytes.
    WorkArea = 1,
    /// BEARER is above 31 or DIRECTION above 1.
    BearerDirection = 2,
    /// The tag size is outside 4 to 16 bytes.
    TagSize = 3,
    /// A bit length is outside its range.
    BitLength = 4,
    /// An input buffer has not exactly the bytes that its bits fill, or a tag to be compared has another size.
    InputBytes = 5,
    /// An output buffer has not the size that the call asks for.
    OutputBytes = 6,
    /// The sending end has used its last count.
    CountsUsed = 7,
    /// A frame breaks the layout.
    Layout = 8,
    /// A frame has another bearer, direction or tag size than the end.
    OtherLink = 9,
    /// Spare bits are set in ciphertext to be opened or in a frame's AAD.
    SpareBits = 10,
    /// A count is below the first count, or 64 or more below the highest opened.
    OldCount = 11,
    /// A count has been opened before.
    OpenedBefore = 12,
    /// The generator's reach is too short.
    ShortKeystream = 13,
    /// The tag does not match.
    WrongTag = 14,
    /// A recording has a fault or is too long.
    FaultyRecording = 15,
    /// A key text is not 64 characters 0 to 9 or a to f.
    FaultyKey = 16,
}

/// The layer that a refusal names.
#[derive(Clone, Copy, Debug, PartialEq, Eq)]
pub enum Layer {
    Cover,
    Link,
    Generator,
    Recording,
    KeyText,
}

/// A call's no. The place is 0 unless the rule names one.
#[derive(Clone, Copy, Debug, PartialEq, Eq)]
pub struct Refusal {
    pub reason: Reason,
    pub layer: Layer,
    pub place: u64,
}

/// A refusal with its reason in words.
#[derive(Clone, Copy, Debug, PartialEq, Eq)]
pub struct Explained(pub Refusal);

impl Reason {
    /// The number of the reason.
    pub fn number(self) -> u8
        ensures { result ≡ number self }
    {
        self as u8
    }
}

impl Layer {
    /// The layer as one word.
    pub fn word(self) -> &'static str
        ensures { result.now ≡ word self }
    {
        match self {
            Layer::Cover => "cover",
            Layer::Link => "link",
            Layer::Generator => "generator",
            Layer::Recording => "recording",
            Layer::KeyText => "key-text",
        }
    }
}

/// The layer as its word.
impl fmt::Display for Layer {
    ghost output = { λ l. Some (word l) };

    fn fmt<W: fmt::Write>(&self, f: &mut fmt::Formatter<W>) -> fmt::Result {
        f.write_str(self.word())
    }
}

/// The reason in a few words, for people.
impl fmt::Display for Reason {
    ghost output = { λ r. Some (words r) };

    fn fmt<W: fmt::Write>(&self, f: &mut fmt::Formatter<W>) -> fmt::Result {
        f.write_str(match self {
            Reason::WorkArea => "work area is not 64 bytes",
            Reason::BearerDirection => "bearer or direction out of range",
            Reason::TagSize => "tag size out of range",
            Reason::BitLength => "bit length out of range",
            Reason::InputBytes => "input has not the bytes its bits fill",
            Reason::OutputBytes => "output buffer has the wrong size",
            Reason::CountsUsed => "all counts are used",
            Reason::Layout => "frame layout is broken",
            Reason::OtherLink => "frame of another link",
            Reason::SpareBits => "spare bits are set",
            Reason::OldCount => "count is too old",
            Reason::OpenedBefore => "count was opened before",
            Reason::ShortKeystream => "keystream is too short",
            Reason::WrongTag => "tag does not match",
            Reason::FaultyRecording => "recording is faulty",
            Reason::FaultyKey => "key text is faulty",
        })
    }
}

/// A refusal as programs read it: `refused NUMBER LAYER PLACE`.
impl fmt::Display for Refusal {
    ghost output = { λ r. Some (line r) };

    fn fmt<W: fmt::Write>(&self, f: &mut fmt::Formatter<W>) -> fmt::Result {
        let number = self.reason.number();
        let layer = self.layer;
        let place = self.place;
        write!(f, "refused {number} {layer} {place}")
    }
}

impl Error for Refusal {}

/// The same, and after it the reason in words.
impl fmt::Display for Explained {
    ghost output = { λ e. Some (explained e.0) };

    fn fmt<W: fmt::Write>(&self, f: &mut fmt::Formatter<W>) -> fmt::Result {
        let refusal = self.0;
        let reason = refusal.reason;
        write!(f, "{refusal}: {reason}")
    }
}

impl Error for Explained {}
