//! Playing a recording back: a generator that gives the keystream that was recorded.
#![tactic(auto)]

ghost use Rattle.std.specs.Prelude.{◌≡◌};
ghost use Rattle.std.specs.Option.{ForSome};
ghost use Rattle.generator.specs.Generators.{Sound};
ghost use Rattle.playing.specs.Playing.{PlaybackStands, blocks_under, played, readable};

use field::Block;
use generator::generators::short;
use generator::{Generator, Nonce};
use recording::{Reader, Record};
use units::Refusal;

/// A recording played back. Under a nonce it has the blocks of the first keystream record with that nonce, among the
/// records before the first fault; it has none where there is no such record, or the recording is too long. Recorded
/// keystream is secret, so it has neither `Debug` nor equality.
#[derive(Clone, Copy)]
pub struct Playback<'a> {
    bytes: &'a [u8],
    // The nonce that was asked for last and its blocks: the blocks of one keystream are asked for one after another.
    last: Option<(Nonce, &'a [[u8; 16]])>,
    ghost sound: { Sound (played bytes.now) },
    ghost found: { ForSome last (λ found. found.1.now ≡ blocks_under found.0.0 (readable bytes.now)) },
}

impl<'a> Playback<'a> {
    /// The playback of recorded bytes.
    pub fn new(bytes: &'a [u8]) -> Playback<'a>
        ensures bytes { result.bytes ≡ bytes.entry }
        ensures stands { PlaybackStands }
    {
        recording::laws();
        Playback { bytes, last: None }
    }

    /// The recorded blocks under a nonce.
    fn blocks(&mut self, nonce: &Nonce) -> &'a [[u8; 16]]
        ensures value { result.now ≡ blocks_under nonce.now.0 (readable self.old.bytes.now) }
        ensures same { self.new.bytes ≡ self.old.bytes }
    {
        if let Some((last, found)) = self.last
            && last == *nonce
        {
            return found;
        }
        let blocks = recorded(self.bytes, nonce);
        self.last = Some((*nonce, blocks));
        blocks
    }
}

/// The recorded blocks, as many as there are under a nonce.
impl Generator for Playback<'_> {
    ghost meaning = { λ playback. played playback.bytes.now };

    fn reach(&mut self, nonce: &Nonce) -> u64 {
        self.blocks(nonce).len() as u64
    }

    fn block(&mut self, nonce: &Nonce, index: u64) -> Result<Block, Refusal> {
        let blocks = self.blocks(nonce);
        let bytes = blocks
            .get(index as usize)
            .ok_or(short(blocks.len() as u64))?;
        Ok(Block::from_bytes(bytes))
    }

    ghost sound = { λ playback. playback.sound };
}

/// The blocks under a nonce in recorded bytes.
#[tactic(auto, using(crate::proofs::PlayingLaws::searching))]
fn recorded<'a>(bytes: &'a [u8], nonce: &Nonce) -> &'a [[u8; 16]]
    ensures { result.now ≡ blocks_under nonce.now.0 (readable bytes.now) }
{
    for (_, record) in Reader::new(bytes).record_indices() {
        if let Record::Keystream { nonce: of, blocks } = record
            && *of == nonce.0
        {
            return blocks;
        }
    }
    &[]
}
