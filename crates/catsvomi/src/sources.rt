//! The generators that a line names: that of a key, that of a recording, or a pair of two such. Each has all that it is made
//! of, so that it can live from line to line.
ghost use Rattle.std.specs.Vec.{vec_items};
ghost use Rattle.generator.specs.Generators.{Sound};
ghost use Rattle.playing.specs.Playing.{played};

use aes_generator::AesGenerator;
use field::Block;
use generator::{Generator, Key, Nonce, Pair};
use playing::Playback;
use units::Refusal;

/// The playback of a recording with bytes of its own.
#[derive(Drop)]
pub struct OwnPlayback {
    bytes: Vec<u8>,
    ghost sound: { Sound (played (vec_items bytes)) },
}

impl OwnPlayback {
    pub fn new(bytes: Vec<u8>) -> OwnPlayback {
        // That it can be played says that it is sound.
        let _lent = Playback::new(bytes.as_slice());
        OwnPlayback { bytes }
    }
}

/// What a `Playback` of its bytes gives.
impl Generator for OwnPlayback {
    ghost meaning = { λ playback. played (vec_items playback.bytes) };

    fn reach(&mut self, nonce: &Nonce) -> u64 {
        Playback::new(self.bytes.as_slice()).reach(nonce)
    }

    fn block(&mut self, nonce: &Nonce, index: u64) -> Result<Block, Refusal> {
        Playback::new(self.bytes.as_slice()).block(nonce, index)
    }

    ghost sound = { λ playback. playback.sound };
}

/// The generator of a key or of a recording.
#[derive(Drop)]
pub enum SourceGenerator {
    Aes(AesGenerator),
    Playback(OwnPlayback),
}

impl SourceGenerator {
    pub fn of_key(key: &Key) -> SourceGenerator {
        SourceGenerator::Aes(AesGenerator::new(key))
    }

    pub fn of_recording(bytes: Vec<u8>) -> SourceGenerator {
        SourceGenerator::Playback(OwnPlayback::new(bytes))
    }
}

impl Generator for SourceGenerator {
    ghost use Rattle.catsvomi.specs.Sources.{source_meaning, source_sound};

    ghost meaning = { source_meaning };

    fn reach(&mut self, nonce: &Nonce) -> u64 {
        match self {
            SourceGenerator::Aes(generator) => generator.reach(nonce),
            SourceGenerator::Playback(generator) => generator.reach(nonce),
        }
    }

    fn block(&mut self, nonce: &Nonce, index: u64) -> Result<Block, Refusal> {
        match self {
            SourceGenerator::Aes(generator) => generator.block(nonce, index),
            SourceGenerator::Playback(generator) => generator.block(nonce, index),
        }
    }

    ghost sound = { source_sound };
}

/// The generator of a line: that of one source, or the pair of two.
#[derive(Drop)]
pub enum LineGenerator {
    One(SourceGenerator),
    Two(Pair<SourceGenerator, SourceGenerator>),
}

impl LineGenerator {
    /// The generator of the sources of a line, unless a key text is none. The first that is none is named.
    pub fn new(
        first: Result<SourceGenerator, Refusal>,
        second: Result<Option<SourceGenerator>, Refusal>,
    ) -> Result<LineGenerator, Refusal> {
        let first = first?;
        Ok(match second? {
            None => LineGenerator::One(first),
            Some(second) => LineGenerator::Two(Pair::new(first, second)),
        })
    }
}

impl Generator for LineGenerator {
    ghost use Rattle.catsvomi.specs.Sources.{line_meaning, line_sound};

    ghost meaning = { line_meaning };

    fn reach(&mut self, nonce: &Nonce) -> u64 {
        match self {
            LineGenerator::One(generator) => generator.reach(nonce),
            LineGenerator::Two(generator) => generator.reach(nonce),
        }
    }

    fn block(&mut self, nonce: &Nonce, index: u64) -> Result<Block, Refusal> {
        match self {
            LineGenerator::One(generator) => generator.block(nonce, index),
            LineGenerator::Two(generator) => generator.block(nonce, index),
        }
    }

    ghost sound = { line_sound };
}
