//! The sending end.
ghost use Rattle.std.specs.Prelude.{◌≡◌, ◌+◌, ◌-◌, ◌^◌, ◌≤◌, IfOk, [], ◌++◌, length, slice_range};
ghost use Rattle.generator.specs.Generators.{Same};
ghost use Rattle.cover.specs.Answers.{outcome, written};
ghost use Rattle.cover.specs.Combined.{too_short_for};
ghost use Rattle.cover.specs.WorkArea.{Holds, held, wiped};
ghost use Rattle.frames.specs.Frames.{frame_length};
ghost use Rattle.units.specs.Lengths.{filled};
ghost use Rattle.units.specs.Spare.{cleared};
ghost use Rattle.link.specs.Seals.{count_left, seal_outcome, sealed, sealed_frame};
ghost use Rattle.link.specs.Settings.{parameters};

use super::refusing::{refuse_if, unfilled};
use super::settings::Settings;
use cover::{WORK_AREA, WorkArea};
use frames::{AAD_LIMIT, HEAD, MESSAGE_LIMIT, frame_length, head};
use generator::Generator;
use nonces::LARGEST_TAG;
use units::{BitString, Bytes, Reason, Refusal, clear_spare};

/// The end that seals. It uses each count for one frame; `next` is 2^32 once the last one has been used.
#[derive(Drop)]
pub struct Sender<G> {
    generator: G,
    settings: Settings,
    next: u64,
    ghost within: { settings.first ≤ next × next ≤ 2 ^ 32 },
}

impl<G: Generator> Sender<G> {
    /// An end that has sealed nothing.
    pub fn new(generator: G, settings: Settings) -> Sender<G>
        ensures generator { result.generator ≡ generator }
        ensures settings { result.settings ≡ settings }
        ensures next { result.next ≡ settings.first }
    {
        Sender {
            generator,
            settings,
            next: u64::from(settings.first),
        }
    }

    /// The count that the next accepted seal uses, as long as one is left.
    pub fn next_count(&self) -> Option<u32>
        ensures { result ≡ count_left self.now.next }
    {
        u32::try_from(self.next).ok()
    }

    /// Seals a message: writes its frame at the start of a buffer, and answers the frame's length. Later bytes of the buffer
    /// stay.
    ///
    /// The work area is zero afterwards, whatever the answer. A refusal uses no count, and leaves the buffer as it was.
    pub fn seal(
        &mut self,
        work: &mut [u8],
        aad: BitString<'_>,
        message: BitString<'_>,
        frame: &mut [u8],
    ) -> Result<Bytes, Refusal>
        ensures outcome { seal_outcome result frame.new self.new.next ≡ sealed (G.meaning self.old.generator) self.old.settings.terms self.old.next (record { work = length work.old; aad_bits = aad.entry.bits.0; aad = aad.entry.bytes.now; bits = message.entry.bits.0; message = message.entry.bytes.now; buffer = frame.old }) }
        ensures frame_within { IfOk result (λ sealed. sealed.0 ≤ length frame.new) }
        ensures work { work.new ≡ wiped work.old }
        ensures settings { self.new.settings ≡ self.old.settings }
        ensures same { Same (G.meaning self.old.generator) (G.meaning self.new.generator) }
    {
        let mut area = WorkArea::new(work);
        refuse_if(area.len() != WORK_AREA, Reason::WorkArea)?;
        refuse_if(
            aad.bits > AAD_LIMIT || message.bits > MESSAGE_LIMIT,
            Reason::BitLength,
        )?;
        refuse_if(unfilled(aad) | unfilled(message), Reason::InputBytes)?;
        let total = frame_length(self.settings.terms.tag_size, aad.bits, message.bits);
        refuse_if(frame.len() < total.0, Reason::OutputBytes)?;
        refuse_if(self.next > u64::from(u32::MAX), Reason::CountsUsed)?;
        self.write(
            &mut area,
            self.next as u32,
            aad,
            message,
            &mut frame[..total.0],
        )?;
        self.next += 1;
        Ok(total)
    }

    /// Writes the frame of a message under a count over the whole of a buffer that is as long as the frame. A refusal leaves
    /// the buffer as it was.
    #[tactic(auto, unfolding(frames::specs::Frames::frame_length))]
    fn write(
        &mut self,
        area: &mut WorkArea<'_>,
        count: u32,
        aad: BitString<'_>,
        message: BitString<'_>,
        frame: &mut [u8],
    ) -> Result<(), Refusal>
        requires work { length (held area.old) ≡ 64 }
        requires aad { length aad.bytes.now ≡ filled aad.bits.0 }
        requires message { length message.bytes.now ≡ filled message.bits.0 }
        requires frame { length frame.old ≡ frame_length self.old.settings.terms.tag_size aad.bits.0 message.bits.0 }
        ensures outcome { outcome result frame.new ≡ written (too_short_for (G.meaning self.old.generator) (parameters self.old.settings.terms count) self.old.settings.terms.tag_size message.entry.bits.0) frame.old (sealed_frame (G.meaning self.old.generator) self.old.settings.terms count (record { work = 64; aad_bits = aad.entry.bits.0; aad = aad.entry.bytes.now; bits = message.entry.bits.0; message = message.entry.bytes.now; buffer = [] })) }
        ensures holds { Holds area.old area.new }
        ensures settings { self.new.settings ≡ self.old.settings }
        ensures next { self.new.next ≡ self.old.next }
        ensures same { Same (G.meaning self.old.generator) (G.meaning self.new.generator) }
    {
        let terms = self.settings.terms;
        let text = HEAD + aad.bytes.len();
        let end = text + message.bytes.len();
        let mut tag = [0; LARGEST_TAG as usize];
        let tag = &mut tag[..usize::from(terms.tag_size)];
        area.nca5_cover(
            &mut self.generator,
            &terms.parameters(count),
            terms.tag_size,
            aad,
            message,
            &mut frame[text..end],
            tag,
        )?;
        let head = head(terms.line(), terms.tag_size, count, aad.bits, message.bits);
        write_around(&head, aad, tag, frame);
        Ok(())
    }
}

/// Writes what stands around the ciphertext of a frame: head and AAD, its spare bits cleared, before it, and the tag after it.
#[tactic(auto, using(crate::proofs::SealLaws::put_around))]
fn write_around(head: &[u8; HEAD], aad: BitString<'_>, tag: &[u8], frame: &mut [u8])
    requires { 12 + length aad.bytes.now + length tag.now ≤ length frame.old }
    ensures { frame.new ≡ head.now ++ (cleared aad.entry.bits.0 aad.entry.bytes.now ++ (slice_range frame.old (12 + length aad.entry.bytes.now) (length frame.old - length tag.now) ++ tag.now)) }
{
    let text = HEAD + aad.bytes.len();
    let end = frame.len() - tag.len();
    frame[..HEAD].copy_from_slice(head);
    frame[HEAD..text].copy_from_slice(aad.bytes);
    clear_spare(aad.bits, &mut frame[HEAD..text]);
    frame[end..].copy_from_slice(tag);
}
