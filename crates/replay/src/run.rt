//! A run: calls made one after another on the two ends of a link.
ghost use Rattle.std.specs.Prelude.{◌≡◌, IfOk, OnErr, OnOk, [], map, vec_items};
ghost use Rattle.generator.specs.Generators.{Same};
ghost use Rattle.link.specs.Seals.{sealed};
ghost use Rattle.link.specs.Opens.{opened};
ghost use Rattle.replay.specs.Asked.{CallOctets, CallsOctets, OctetsOffered};
ghost use Rattle.replay.specs.EveryRun.{LinkLaws};
ghost use Rattle.replay.specs.Layers.{Layers};
ghost use Rattle.replay.specs.Journals.{named, open_told, played, seal_call, seal_told, told};
ghost use Rattle.replay.specs.Laws.{DifferentTies, PlacesCounted};
ghost use Rattle.replay.specs.Runs.{LeftBySome, asked, changed, ends, frame_at, frame_offered, left, open_event, play, seal_event, sealed_by, stepped};

use super::calls::{Call, Event, Offered, OpenEvent, Opening, SealEvent, Sealing};
use generator::Generator;
use link::{Receiver, Sender};
use std::alloc::{AllocError, Global};
use units::{BitString, octets};

/// Makes each call in turn on the two ends, and returns what came of each. Where memory runs out, the first calls have been
/// made and the others have not.
///
/// Of the two ends of a link the laws hold whatever is called on them, and whether or not memory runs out.
#[tactic(auto, using(crate::proofs::PlaceLaws::different_ties, crate::proofs::PlaceLaws::places_counted))]
pub fn replay<G: Generator, K: Generator>(
    heap: Global,
    sender: &mut Sender<G>,
    receiver: &mut Receiver<K>,
    calls: &[Call],
) -> Result<Vec<Event>, AllocError>
    ensures journal { IfOk result (λ events. map told (vec_items events) ≡ play (G.meaning sender.old.generator) (K.meaning receiver.old.generator) sender.old.settings.terms receiver.old.settings.terms [] sender.old.next receiver.old.window (map played calls.now)) }
    ensures ends { OnOk result (ends sender.new.next receiver.new.window ≡ left (G.meaning sender.old.generator) (K.meaning receiver.old.generator) sender.old.settings.terms receiver.old.settings.terms [] sender.old.next receiver.old.window (map played calls.now)) }
    ensures stopped { OnErr result (LeftBySome (G.meaning sender.old.generator) (K.meaning receiver.old.generator) sender.old.settings.terms receiver.old.settings.terms sender.old.next receiver.old.window (map played calls.now) (ends sender.new.next receiver.new.window)) }
    ensures sender_settings { sender.new.settings ≡ sender.old.settings }
    ensures receiver_settings { receiver.new.settings ≡ receiver.old.settings }
    ensures sender_same { Same (G.meaning sender.old.generator) (G.meaning sender.new.generator) }
    ensures receiver_same { Same (K.meaning receiver.old.generator) (K.meaning receiver.new.generator) }
    ensures laws { LinkLaws (G.meaning sender.old.generator) (K.meaning receiver.old.generator) sender.old.settings receiver.old.settings sender.old.next receiver.old.window }
    ensures bytes { CallsOctets (map played calls.now) }
    ensures different { DifferentTies }
    ensures places { PlacesCounted }
{
    link_laws(sender, receiver);
    layers();
    octets_asked(calls);
    let mut journal = Vec::new(heap);
    for call in calls {
        let event = step(heap, sender, receiver, journal.as_slice(), call)?;
        journal.push(event)?;
    }
    Ok(journal)
}

/// For a proof alone: what the layers below promise.
fn layers()
    ensures { Layers }
{
    nonces::laws();
    cover::laws();
    windows::laws();
    frames::laws();
}

/// For a proof alone: of the two ends of a link the laws hold, whatever is called on them.
fn link_laws<G: Generator, K: Generator>(sender: &Sender<G>, receiver: &Receiver<K>)
    ensures { LinkLaws (G.meaning sender.now.generator) (K.meaning receiver.now.generator) sender.now.settings receiver.now.settings sender.now.next receiver.now.window }
{
    layers();
}

/// For the proof alone: it tells that what callers hand over is bytes, which no type tells of what a vector holds.
fn octets_asked(calls: &[Call])
    ensures { CallsOctets (map played calls.now) }
{
    for call in calls {
        call.octets_asked();
    }
}

/// Makes one call after those of a journal.
fn step<G: Generator, K: Generator>(
    heap: Global,
    sender: &mut Sender<G>,
    receiver: &mut Receiver<K>,
    journal: &[Event],
    call: &Call,
) -> Result<Event, AllocError>
    ensures event { IfOk result (λ event. told event ≡ (stepped (G.meaning sender.old.generator) (K.meaning receiver.old.generator) sender.old.settings.terms receiver.old.settings.terms (map told journal.now) sender.old.next receiver.old.window (played call.now)).event) }
    ensures next { OnOk result (sender.new.next ≡ (stepped (G.meaning sender.old.generator) (K.meaning receiver.old.generator) sender.old.settings.terms receiver.old.settings.terms (map told journal.now) sender.old.next receiver.old.window (played call.now)).next) }
    ensures window { OnOk result (receiver.new.window ≡ (stepped (G.meaning sender.old.generator) (K.meaning receiver.old.generator) sender.old.settings.terms receiver.old.settings.terms (map told journal.now) sender.old.next receiver.old.window (played call.now)).window) }
    ensures kept { OnErr result (ends sender.new.next receiver.new.window ≡ ends sender.old.next receiver.old.window) }
    ensures sender_settings { sender.new.settings ≡ sender.old.settings }
    ensures receiver_settings { receiver.new.settings ≡ receiver.old.settings }
    ensures sender_same { Same (G.meaning sender.old.generator) (G.meaning sender.new.generator) }
    ensures receiver_same { Same (K.meaning receiver.old.generator) (K.meaning receiver.new.generator) }
{
    match call {
        Call::Seal(asked) => Ok(Event::Seal(seal(heap, sender, asked)?)),
        Call::Open(asked) => Ok(Event::Open(open(heap, receiver, journal, asked)?)),
        Call::Loss => Ok(Event::Loss(receiver.loss())),
    }
}

/// Makes a seal.
fn seal<G: Generator>(
    heap: Global,
    sender: &mut Sender<G>,
    asked: &Sealing,
) -> Result<SealEvent, AllocError>
    ensures event { IfOk result (λ event. seal_told event ≡ seal_event (seal_call asked.now) (sealed (G.meaning sender.old.generator) sender.old.settings.terms sender.old.next (seal_call asked.now))) }
    ensures next { OnOk result (sender.new.next ≡ (sealed (G.meaning sender.old.generator) sender.old.settings.terms sender.old.next (seal_call asked.now)).next) }
    ensures kept { OnErr result (sender.new.next ≡ sender.old.next) }
    ensures settings { sender.new.settings ≡ sender.old.settings }
    ensures same { Same (G.meaning sender.old.generator) (G.meaning sender.new.generator) }
{
    let asked = asked.copy(heap)?;
    let mut work = Vec::from_elem(heap, 0, asked.work.0)?;
    let mut buffer = Vec::from_slice(heap, asked.buffer.as_slice())?;
    let answer = sender.seal(
        work.as_mut_slice(),
        BitString {
            bits: asked.aad_bits,
            bytes: asked.aad.as_slice(),
        },
        BitString {
            bits: asked.bits,
            bytes: asked.message.as_slice(),
        },
        buffer.as_mut_slice(),
    );
    Ok(SealEvent {
        asked,
        answer,
        buffer,
    })
}

/// Makes an open, of a frame that may be named by an earlier call.
fn open<K: Generator>(
    heap: Global,
    receiver: &mut Receiver<K>,
    journal: &[Event],
    call: &Opening,
) -> Result<OpenEvent, AllocError>
    ensures event { IfOk result (λ event. open_told event ≡ open_event (asked (map told journal.now) call.now.work.0 (named call.now.frame) (vec_items call.now.buffer)) (opened (K.meaning receiver.old.generator) receiver.old.settings.terms receiver.old.window (asked (map told journal.now) call.now.work.0 (named call.now.frame) (vec_items call.now.buffer)))) }
    ensures window { OnOk result (receiver.new.window ≡ (opened (K.meaning receiver.old.generator) receiver.old.settings.terms receiver.old.window (asked (map told journal.now) call.now.work.0 (named call.now.frame) (vec_items call.now.buffer))).window) }
    ensures kept { OnErr result (receiver.new.window ≡ receiver.old.window) }
    ensures settings { receiver.new.settings ≡ receiver.old.settings }
    ensures same { Same (K.meaning receiver.old.generator) (K.meaning receiver.new.generator) }
{
    let frame = call.frame.bytes(heap, journal)?;
    let before = Vec::from_slice(heap, call.buffer.as_slice())?;
    let mut work = Vec::from_elem(heap, 0, call.work.0)?;
    let mut buffer = Vec::from_slice(heap, call.buffer.as_slice())?;
    let answer = receiver.open(work.as_mut_slice(), frame.as_slice(), buffer.as_mut_slice());
    Ok(OpenEvent {
        work: call.work,
        frame,
        before,
        answer,
        buffer,
    })
}

impl Call {
    /// For the proof alone, of one call: what its caller hands over is bytes.
    fn octets_asked(&self)
        ensures { CallOctets (played self.now) }
    {
        match self {
            Call::Seal(asked) => {
                octets(asked.aad.as_slice());
                octets(asked.message.as_slice());
            }
            Call::Open(asked) => asked.frame.octets_offered(),
            Call::Loss => {}
        }
    }
}

impl Sealing {
    /// The same again.
    fn copy(&self, heap: Global) -> Result<Sealing, AllocError>
        ensures { IfOk result (λ copy. seal_call copy ≡ seal_call self.now) }
    {
        Ok(Sealing {
            work: self.work,
            aad_bits: self.aad_bits,
            aad: Vec::from_slice(heap, self.aad.as_slice())?,
            bits: self.bits,
            message: Vec::from_slice(heap, self.message.as_slice())?,
            buffer: Vec::from_slice(heap, self.buffer.as_slice())?,
        })
    }
}

impl Offered {
    /// For the proof alone, of what is offered to an open.
    fn octets_offered(&self)
        ensures { OctetsOffered (named self.now) }
    {
        match self {
            Offered::Bytes(frame) => {
                octets(frame.as_slice());
            }
            Offered::Sealed(_) => {}
            Offered::Damaged { sum, .. } => {
                let _sum = *sum;
            }
        }
    }

    /// The bytes of the frame, after the calls of a journal.
    fn bytes(&self, heap: Global, journal: &[Event]) -> Result<Vec<u8>, AllocError>
        ensures { IfOk result (λ frame. vec_items frame ≡ frame_offered (map told journal.now) (named self.now)) }
    {
        match self {
            Offered::Bytes(frame) => Vec::from_slice(heap, frame.as_slice()),
            Offered::Sealed(call) => Vec::from_slice(heap, frame_at(journal, *call)),
            Offered::Damaged { call, place, sum } => {
                let mut frame = Vec::from_slice(heap, frame_at(journal, *call))?;
                change(frame.as_mut_slice(), *place, *sum);
                Ok(frame)
            }
        }
    }
}

/// Changes the byte at a place by a sum. Past the end there is none.
#[tactic(auto, using(crate::proofs::OfferedLaws::changed_at, crate::proofs::OfferedLaws::changed_past))]
fn change(bytes: &mut [u8], place: usize, sum: u8)
    ensures { bytes.new ≡ changed place sum bytes.old }
{
    if place < bytes.len() {
        bytes[place] ^= sum;
    }
}

/// The frame that the call at a place of a journal sealed; no bytes if it sealed none.
#[tactic(auto, using(crate::proofs::OfferedLaws::frame_there, crate::proofs::OfferedLaws::frame_past))]
fn frame_at(journal: &[Event], call: usize) -> &[u8]
    ensures { result.now ≡ frame_at (map told journal.now) call }
{
    match journal.get(call) {
        Some(event) => event.sealed(),
        None => &[],
    }
}

impl Event {
    /// The frame that was sealed, if this is a seal that was accepted.
    #[tactic(auto, using(crate::proofs::OfferedLaws::take_least))]
    fn sealed(&self) -> &[u8]
        ensures { result.now ≡ sealed_by (told self.now) }
    {
        match self {
            Event::Seal(event) => match event.answer {
                Ok(length) => &event.buffer.as_slice()[..length.0.min(event.buffer.len())],
                Err(_) => &[],
            },
            _ => &[],
        }
    }
}
