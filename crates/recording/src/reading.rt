//! Reading a recording record by record. Nothing is copied, and at a fault the reading stays where it is.
ghost use Rattle.std.specs.Prelude.{◌≡◌, ◌≤◌, length};
ghost use Rattle.units.specs.Strings.{Octets};
ghost use Rattle.recording.specs.Reading.{Lawful, RecordingStands, answered, fault, step, stepped};

use super::records::Record;
use units::{Bytes, Layer, Reason, Refusal};

/// The most bytes that a recording has.
pub const LONGEST: usize = 65_536;

/// A reading of recorded bytes, and the offset of the record that comes next. Recorded keystream is secret, so it has
/// neither `Debug` nor equality.
#[derive(Clone, Copy)]
pub struct Reader<'a> {
    bytes: &'a [u8],
    offset: usize,
    ghost within: { offset ≤ length bytes.now },
    ghost octets: { Octets bytes.now },
}

impl<'a> Reader<'a> {
    /// A reading that begins with the first record.
    pub fn new(bytes: &'a [u8]) -> Reader<'a>
        ensures bytes { result.bytes ≡ bytes.entry }
        ensures offset { result.offset ≡ 0 }
    {
        Reader { bytes, offset: 0 }
    }

    /// The offset of the record that comes next.
    pub fn offset(&self) -> Bytes
        ensures { result.0 ≡ self.now.offset }
    {
        Bytes(self.offset)
    }

    /// The next record, or nothing at the end. A fault is refused with the record's offset as place; a recording that
    /// is too long is refused before anything else, with its limit as place.
    pub fn next_record(&mut self) -> Result<Option<Record<'a>>, Refusal>
        ensures step { step (answered result) self.new.offset ≡ stepped self.old.bytes.now self.old.offset }
        ensures same { self.new.bytes ≡ self.old.bytes }
        ensures lawful { Lawful self.old.bytes.now self.old.offset (answered result) self.new.offset }
    {
        if self.bytes.len() > LONGEST {
            return Err(refuse(LONGEST));
        }
        if self.offset == self.bytes.len() {
            return Ok(None);
        }
        let (record, rest) = Record::first(&self.bytes[self.offset..]).ok_or(refuse(self.offset))?;
        self.offset = self.bytes.len() - rest.len();
        Ok(Some(record))
    }

    /// The records from the next one on, each with its offset, up to the end or the first fault.
    pub fn record_indices(self) -> RecordIndices<'a>
        ensures { result.reader ≡ self.entry }
    {
        RecordIndices { reader: self }
    }
}

/// The result of [`Reader::record_indices`]. As the reader, it has neither `Debug` nor equality.
#[derive(Clone, Copy)]
pub struct RecordIndices<'a> {
    reader: Reader<'a>,
}

impl<'a> Iterator for RecordIndices<'a> {
    ghost use Rattle.std.specs.Iterator.{YieldsFirstBy, item_count};
    ghost use Rattle.recording.specs.Reading.{ahead};
    ghost use Rattle.recording.specs.Records.{entry};

    type Item = (Bytes, Record<'a>);

    ghost next_gives = { YieldsFirstBy (λ p. (p.0.0, entry p.1)) (λ s. ahead s.reader.bytes.now s.reader.offset) };

    ghost remaining = { item_count (λ s. ahead s.reader.bytes.now s.reader.offset) };

    fn next(&mut self) -> Option<(Bytes, Record<'a>)> {
        let offset = self.reader.offset();
        let record = self.reader.next_record().ok()??;
        Some((offset, record))
    }
}

/// The laws of the records of every byte string, which the layers above rest on. It does nothing: a caller's proof has
/// the laws from its contract.
pub fn laws()
    ensures { RecordingStands }
{}

/// A fault of the recording at a place.
fn refuse(place: usize) -> Refusal
    ensures { result ≡ fault place }
{
    Refusal {
        reason: Reason::FaultyRecording,
        layer: Layer::Recording,
        place: place as u64,
    }
}
