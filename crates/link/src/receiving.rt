//! The receiving end.
ghost use Rattle.std.specs.Prelude.{◌≡◌, ◌≤◌, ◌+◌, IfOk, MatchResult, Some, false, length};
ghost use Rattle.generator.specs.Generators.{Same};
ghost use Rattle.cover.specs.Answers.{outcome, written};
ghost use Rattle.cover.specs.WorkArea.{Holds, held, wiped};
ghost use Rattle.units.specs.Lengths.{filled};
ghost use Rattle.windows.specs.Windows.{loss, new_window};
ghost use Rattle.frames.specs.Frames.{Fits, FitsIn, parts, view};
ghost use Rattle.link.specs.Answers.{over};
ghost use Rattle.link.specs.Opens.{WellFormed, frame_refusal, open_outcome, opened, opened_message, other_link, spare_set, tag_refusal};
ghost use Rattle.link.specs.Settings.{Lawful};

use super::refusing::refuse_if;
use super::settings::{Settings, Terms};
use cover::{WORK_AREA, WorkArea};
use frames::{Frame, HEAD, MESSAGE_BUFFER};
use generator::Generator;
use nonces::refuse as refuse_by_cover;
use units::{Bits, Bytes, Reason, Refusal};
use windows::Window;

/// What an accepted open answers: the count, the message's length, and where the AAD begins in the frame and how long it is.
#[derive(Clone, Copy, Debug, PartialEq, Eq)]
pub struct Opened {
    pub count: u32,
    pub bits: Bits,
    pub aad_place: Bytes,
    pub aad_bits: Bits,
}

/// The end that opens. It opens each count once.
#[derive(Drop)]
pub struct Receiver<G> {
    generator: G,
    settings: Settings,
    window: Window,
    ghost first_kept: { window.first ≡ settings.first },
}

impl<G: Generator> Receiver<G> {
    /// An end that has opened nothing.
    pub fn new(generator: G, settings: Settings) -> Receiver<G>
        ensures generator { result.generator ≡ generator }
        ensures settings { result.settings ≡ settings }
        ensures window { result.window ≡ new_window settings.first }
    {
        Receiver {
            generator,
            settings,
            window: Window::new(settings.first),
        }
    }

    /// The highest count opened, if one has been.
    pub fn highest(&self) -> Option<u32>
        ensures { result ≡ self.now.window.highest }
    {
        self.window.highest()
    }

    /// Opens a frame: writes its message at the start of a buffer of at least 1,400 bytes. Later bytes of the buffer stay.
    ///
    /// The work area is zero afterwards, whatever the answer. A refusal marks no count, and leaves the buffer as it was.
    #[tactic(auto, using(crate::proofs::OpenLaws::first_after))]
    pub fn open(
        &mut self,
        work: &mut [u8],
        frame: &[u8],
        message: &mut [u8],
    ) -> Result<Opened, Refusal>
        ensures outcome { open_outcome result message.new self.new.window ≡ opened (G.meaning self.old.generator) self.old.settings.terms self.old.window (record { work = length work.old; frame = frame.now; buffer = message.old }) }
        ensures message_within { IfOk result (λ frame_opened. filled frame_opened.bits.0 ≤ length message.new) }
        ensures aad_within { IfOk result (λ frame_opened. frame_opened.aad_place.0 + filled frame_opened.aad_bits.0 ≤ length frame.now) }
        ensures work { work.new ≡ wiped work.old }
        ensures settings { self.new.settings ≡ self.old.settings }
        ensures same { Same (G.meaning self.old.generator) (G.meaning self.new.generator) }
    {
        let mut area = WorkArea::new(work);
        refuse_if(area.len() != WORK_AREA, Reason::WorkArea)?;
        refuse_if(message.len() < MESSAGE_BUFFER.0, Reason::OutputBytes)?;
        let terms = self.settings.terms;
        let parts = well_formed(&terms, frame)?;
        self.window.judge(parts.count)?;
        uncover(&mut self.generator, &mut area, &terms, &parts, message)?;
        self.window.mark(parts.count);
        Ok(Opened {
            count: parts.count,
            bits: parts.ciphertext.bits,
            aad_place: Bytes(HEAD),
            aad_bits: parts.aad.bits,
        })
    }

    /// How many in a hundred of the last counts have not been opened: see `Window::loss`.
    pub fn loss(&self) -> u8
        ensures { result ≡ loss self.now.window }
    {
        self.window.loss()
    }
}

/// The parts of a frame that is well formed for an end: its layout is whole, it is of the end's link, and no spare bit is set.
fn well_formed<'a>(terms: &Terms, frame: &'a [u8]) -> Result<Frame<'a>, Refusal>
    requires { Lawful terms.now }
    ensures tests { MatchResult result (λ _. WellFormed terms.now frame.entry.now) (λ r. frame_refusal terms.now frame.entry.now ≡ Some r) }
    ensures parts { IfOk result (λ p. view p ≡ parts frame.entry.now) }
    ensures fits { FitsIn result }
    ensures aad { IfOk result (λ p. 12 + filled p.aad.bits.0 ≤ length frame.entry.now) }
{
    let parts = Frame::parse(frame)?;
    refuse_if(
        parts.line != terms.line() || parts.tag_size != terms.tag_size,
        Reason::OtherLink,
    )?;
    if !(parts.aad.spare_clear() & parts.ciphertext.spare_clear()) {
        return Err(refuse_by_cover(Reason::SpareBits));
    }
    Ok(parts)
}

/// Writes the message of a frame that is well formed for an end at the start of a buffer, unless the generator's reach is too
/// short or the tag does not match.
#[tactic(auto, unfolding(units::specs::Lengths::filled))]
fn uncover<G: Generator>(
    generator: &mut G,
    area: &mut WorkArea<'_>,
    terms: &Terms,
    parts: &Frame<'_>,
    message: &mut [u8],
) -> Result<(), Refusal>
    requires lawful { Lawful terms.now }
    requires fits { Fits (view parts.now) }
    requires link { other_link terms.now (view parts.now) ≡ false }
    requires spare { spare_set (view parts.now) ≡ false }
    requires work { length (held area.now) ≡ 64 }
    requires room { 1400 ≤ length message.now }
    ensures outcome { outcome result message.new ≡ written (tag_refusal (G.meaning generator.old) terms.now (view parts.now)) message.old (over (opened_message (G.meaning generator.old) terms.now (view parts.now)) message.old) }
    ensures holds { Holds area.old area.new }
    ensures same { Same (G.meaning generator.old) (G.meaning generator.new) }
{
    let end = parts.ciphertext.bits.bytes().0;
    area.nca5_open(
        generator,
        &terms.parameters(parts.count),
        terms.tag_size,
        parts.aad,
        parts.ciphertext,
        parts.tag,
        &mut message[..end],
    )
}
