//! The check of a whole recording.
ghost use Rattle.std.specs.Prelude.{◌≡◌, true, is_ok, Decides};
ghost use Rattle.std.specs.List.{flat_map};
ghost use Rattle.recording.specs.Checking.{Refuses, Sound, checked};
ghost use Rattle.recording.specs.Reading.{records};
ghost use Rattle.recording.specs.Records.{written};

use super::reading::Reader;
use units::Refusal;

/// Whether the bytes are a recording: at most 65,536 of them, and a run of records from end to end.
pub fn check(bytes: &[u8]) -> Result<(), Refusal>
    ensures value { result ≡ checked bytes.now }
    ensures exact { Decides (is_ok result) (Sound bytes.now) }
    ensures refuses { Refuses bytes.now result }
    ensures rewritten { is_ok result ≡ true → flat_map written (records bytes.now) ≡ bytes.now }
{
    let mut reader = Reader::new(bytes);
    while let Some(_record) = reader.next_record()? {}
    Ok(())
}
