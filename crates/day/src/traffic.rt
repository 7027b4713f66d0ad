//! The traffic of a day as one list of calls on the two ends.
use super::junction::Junction;
use super::listener::{Forgeries, Listener, Look, SealedFrame};
use super::messages::{Label, Message};
use super::radio::{Fate, Radio, Tally};
use cover::WORK_AREA;
use frames::{FRAME_BUFFER, MESSAGE_BUFFER, frame_length};
use link::Terms;
use replay::{Call, Offered, Opening, Sealing};
use std::alloc::{AllocError, Global};
use std::mem;
use units::Bytes;

/// The minutes of a day.
pub const DAY: u16 = 24 * 60;

/// By then every frame of the day has arrived that arrives at all, in minutes.
const END: u16 = DAY + 6 * 60;

/// The minutes that the junction waits for a sign that the control room has a frame.
const PATIENCE: usize = 5;

/// How often the junction sends a frame, at most.
const TRIES: u8 = 4;

/// Where each of three sequences of chance begins.
const JUNCTION_SEED: u64 = 0x6a75_6e63_7469_6f6e;

const RADIO_SEED: u64 = 0x7261_6469_6f20_3431;

const LISTENER_SEED: u64 = 0x6c69_7374_656e_6572;

/// The calls of a day, and what no call shows.
#[derive(Drop)]
pub struct Traffic {
    pub calls: Vec<Call>,
    pub tally: Tally,
    pub forgeries: Forgeries,
}

impl Traffic {
    /// The traffic of the junction of a number, over a link of some terms and from a first count on.
    pub fn of_a_day(
        heap: Global,
        number: u16,
        terms: Terms,
        first: u32,
    ) -> Result<Traffic, AllocError> {
        let mut gathering = Gathering::new(heap, number, terms, first)?;
        for minute in 0..END {
            gathering.pass(minute)?;
        }
        let Gathering {
            mut calls,
            radio,
            listener,
            ..
        } = gathering;
        calls.push(Call::Loss)?;
        Ok(Traffic {
            calls,
            tally: radio.tally,
            forgeries: listener.forgeries,
        })
    }
}

/// What is still to come at a minute.
#[derive(Clone, Copy)]
enum Errand {
    /// A frame comes to the control room.
    Arrive(SealedFrame),
    /// The junction has had no sign that a frame has come, and sends the same bytes again. It has sent it so often.
    Repeat(SealedFrame, u8),
}

/// The traffic as it is gathered, minute by minute.
#[derive(Drop)]
struct Gathering {
    heap: Global,
    number: u16,
    tag_size: u8,
    first: u32,
    junction: Junction,
    radio: Radio,
    listener: Listener,
    errands: Vec<Vec<Errand>>,
    heard: Vec<SealedFrame>,
    calls: Vec<Call>,
}

impl Gathering {
    fn new(heap: Global, number: u16, terms: Terms, first: u32) -> Result<Gathering, AllocError> {
        let mut errands = Vec::new(heap);
        for _ in 0..END {
            errands.push(Vec::new(heap))?;
        }
        let look = Look {
            line: terms.bearer.wrapping_mul(2).wrapping_add(terms.direction),
            tag_size: terms.tag_size,
        };
        Ok(Gathering {
            heap,
            number,
            tag_size: terms.tag_size,
            first,
            junction: Junction::new(JUNCTION_SEED),
            radio: Radio::new(RADIO_SEED),
            listener: Listener::new(LISTENER_SEED, look),
            errands,
            heard: Vec::new(heap),
            calls: Vec::new(heap),
        })
    }

    /// What happens in a minute. On each full hour the control room first notes how much has been lost.
    fn pass(&mut self, minute: u16) -> Result<(), AllocError> {
        if (60..=DAY).contains(&minute) && minute % 60 == 0 {
            self.calls.push(Call::Loss)?;
        }
        for errand in self.due(minute) {
            match errand {
                Errand::Arrive(frame) => self.offer(Offered::Sealed(frame.call))?,
                Errand::Repeat(frame, sent) => self.send(minute, frame, sent)?,
            }
        }
        if minute < DAY {
            for message in self.junction.reports(self.heap, minute)? {
                self.report(minute, &message)?;
            }
            self.listen()?;
        }
        Ok(())
    }

    /// Seals a message, and sends its frame.
    fn report(&mut self, minute: u16, message: &Message) -> Result<(), AllocError> {
        let label = Label {
            junction: self.number,
            kind: message.kind(),
        };
        let aad = label.pack(self.heap)?;
        let packed = message.pack(self.heap)?;
        let frame = SealedFrame {
            call: self.calls.len(),
            length: frame_length(self.tag_size, aad.bits, packed.bits).0,
        };
        self.calls.push(Call::Seal(Sealing {
            work: Bytes(WORK_AREA),
            aad_bits: aad.bits,
            aad: aad.bytes,
            bits: packed.bits,
            message: packed.bytes,
            buffer: Vec::from_elem(self.heap, 0, FRAME_BUFFER.0)?,
        }))?;
        self.heard.push(frame)?;
        self.send(minute, frame, 0)
    }

    /// Sends a frame that has been sent so often before. What has been sealed is sent again as the same bytes: to seal it
    /// again would use another count, and the control room would act twice.
    fn send(&mut self, minute: u16, frame: SealedFrame, sent: u8) -> Result<(), AllocError> {
        let fate = self.radio.send(minute, frame.length, sent > 0);
        let arrives_soon = match fate {
            Fate::Lost => false,
            Fate::Damaged { place, sum } => {
                self.offer(Offered::Damaged {
                    call: frame.call,
                    place,
                    sum,
                })?;
                false
            }
            Fate::Arrives { after } => {
                self.deliver(minute, after, frame)?;
                after < PATIENCE
            }
            Fate::ArrivesTwice { after } => {
                self.deliver(minute, 0, frame)?;
                self.deliver(minute, after, frame)?;
                true
            }
        };
        let sent = sent.saturating_add(1);
        if sent < TRIES && !(arrives_soon && self.radio.acknowledges()) {
            self.put(usize::from(minute) + PATIENCE, Errand::Repeat(frame, sent))?;
        }
        Ok(())
    }

    /// Brings a frame to the control room after some minutes.
    fn deliver(&mut self, minute: u16, after: usize, frame: SealedFrame) -> Result<(), AllocError> {
        if after == 0 {
            return self.offer(Offered::Sealed(frame.call));
        }
        self.put(
            usize::from(minute).saturating_add(after),
            Errand::Arrive(frame),
        )
    }

    /// Offers a frame to the control room.
    fn offer(&mut self, frame: Offered) -> Result<(), AllocError> {
        self.calls.push(Call::Open(Opening {
            work: Bytes(WORK_AREA),
            frame,
            buffer: Vec::from_elem(self.heap, 0, MESSAGE_BUFFER.0)?,
        }))?;
        Ok(())
    }

    /// Offers what the listener forges.
    fn listen(&mut self) -> Result<(), AllocError> {
        let sealed = u32::try_from(self.heard.len()).unwrap_or(u32::MAX);
        let next = self.first.saturating_add(sealed);
        match self
            .listener
            .offers(self.heap, self.heard.as_slice(), next)?
        {
            Some(frame) => self.offer(frame),
            None => Ok(()),
        }
    }

    /// Keeps an errand for a minute.
    fn put(&mut self, minute: usize, errand: Errand) -> Result<(), AllocError> {
        if let Some(errands) = self.errands.get_mut(minute) {
            errands.push(errand)?;
        }
        Ok(())
    }

    /// The errands of a minute.
    fn due(&mut self, minute: u16) -> Vec<Errand> {
        match self.errands.get_mut(usize::from(minute)) {
            Some(errands) => mem::replace(errands, Vec::new(self.heap)),
            None => Vec::new(self.heap),
        }
    }
}
