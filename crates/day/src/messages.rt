//! What a junction tells its control room, and how that is laid out in bits.
use super::packing::{Packed, Unpacking};
use std::alloc::{AllocError, Global};
use std::fmt;
use units::BitString;

/// How many stages a signal plan has.
pub const STAGES: usize = 6;

/// How many lanes have a detector.
pub const LANES: usize = 12;

/// The kinds of messages, by their numbers.
#[derive(Clone, Copy, PartialEq, Eq, PartialOrd, Ord)]
pub enum Kind {
    SignalPlan = 1,
    DetectorCounts = 2,
    LampFault = 3,
    TramRequest = 4,
}

/// The AAD of a message: where it comes from, and its kind. It is not covered, but the tag is over it too. 20 bits.
#[derive(Clone, Copy)]
pub struct Label {
    pub junction: u16,
    pub kind: Kind,
}

/// The plan that runs from a minute of the day on: its number, the seconds of a cycle, the seconds by which it begins later
/// than at the next junction, and the seconds of green of each stage. 75 bits.
#[derive(Clone, Copy)]
pub struct SignalPlan {
    pub minute: u16,
    pub plan: u16,
    pub cycle: u16,
    pub offset: u16,
    pub greens: [u16; STAGES],
}

/// What the detectors counted up to a minute of the day. 179 bits.
#[derive(Clone, Copy)]
pub struct DetectorCounts {
    pub minute: u16,
    pub lanes: [Lane; LANES],
}

/// The vehicles that crossed a detector, and for how many hundredths of the time it was covered.
#[derive(Clone, Copy)]
pub struct Lane {
    pub vehicles: u16,
    pub covered: u16,
}

/// A lamp of a signal head that does not do what it is told. 19 bits.
#[derive(Clone, Copy)]
pub struct LampFault {
    pub minute: u16,
    pub head: u16,
    pub lamp: Lamp,
}

#[derive(Clone, Copy)]
pub enum Lamp {
    Red,
    Amber,
    Green,
}

/// A tram of a line that comes by an approach, and is at the stop line in so many seconds. 27 bits.
#[derive(Clone, Copy)]
pub struct TramRequest {
    pub minute: u16,
    pub line: u16,
    pub approach: u16,
    pub seconds: u16,
}

#[derive(Clone, Copy)]
pub enum Message {
    Plan(SignalPlan),
    Counts(DetectorCounts),
    Fault(LampFault),
    Tram(TramRequest),
}

/// The bits of a minute of the day, which stands first in each message.
const MINUTE: u32 = 11;

impl Label {
    pub fn pack(self, heap: Global) -> Result<Packed, AllocError> {
        let mut packed = Packed::new(heap);
        packed.put(16, self.junction)?;
        packed.put(4, self.kind as u16)?;
        Ok(packed)
    }

    /// The label that a bit string holds, if it holds one.
    pub fn read(string: BitString<'_>) -> Option<Label> {
        let mut fields = Unpacking::new(string);
        let junction = fields.take(16)?;
        let kind = match fields.take(4)? {
            1 => Kind::SignalPlan,
            2 => Kind::DetectorCounts,
            3 => Kind::LampFault,
            4 => Kind::TramRequest,
            _ => return None,
        };
        fields.is_done().then_some(Label { junction, kind })
    }
}

impl Message {
    pub fn kind(&self) -> Kind {
        match self {
            Message::Plan(_) => Kind::SignalPlan,
            Message::Counts(_) => Kind::DetectorCounts,
            Message::Fault(_) => Kind::LampFault,
            Message::Tram(_) => Kind::TramRequest,
        }
    }

    pub fn pack(&self, heap: Global) -> Result<Packed, AllocError> {
        let mut packed = Packed::new(heap);
        match self {
            Message::Plan(plan) => plan.pack(&mut packed)?,
            Message::Counts(counts) => counts.pack(&mut packed)?,
            Message::Fault(fault) => fault.pack(&mut packed)?,
            Message::Tram(tram) => tram.pack(&mut packed)?,
        }
        Ok(packed)
    }

    /// The message of a kind that a bit string holds, if it holds one.
    pub fn read(kind: Kind, string: BitString<'_>) -> Option<Message> {
        let mut fields = Unpacking::new(string);
        let message = match kind {
            Kind::SignalPlan => Message::Plan(SignalPlan::read(&mut fields)?),
            Kind::DetectorCounts => Message::Counts(DetectorCounts::read(&mut fields)?),
            Kind::LampFault => Message::Fault(LampFault::read(&mut fields)?),
            Kind::TramRequest => Message::Tram(TramRequest::read(&mut fields)?),
        };
        fields.is_done().then_some(message)
    }
}

impl SignalPlan {
    fn pack(&self, packed: &mut Packed) -> Result<(), AllocError> {
        packed.put(MINUTE, self.minute)?;
        packed.put(4, self.plan)?;
        packed.put(8, self.cycle)?;
        packed.put(10, self.offset)?;
        for green in self.greens {
            packed.put(7, green)?;
        }
        Ok(())
    }

    fn read(fields: &mut Unpacking<'_>) -> Option<SignalPlan> {
        let minute = fields.take(MINUTE)?;
        let plan = fields.take(4)?;
        let cycle = fields.take(8)?;
        let offset = fields.take(10)?;
        let mut greens = [0; STAGES];
        for green in greens.iter_mut() {
            *green = fields.take(7)?;
        }
        Some(SignalPlan {
            minute,
            plan,
            cycle,
            offset,
            greens,
        })
    }
}

impl DetectorCounts {
    fn pack(&self, packed: &mut Packed) -> Result<(), AllocError> {
        packed.put(MINUTE, self.minute)?;
        for lane in self.lanes {
            packed.put(7, lane.vehicles)?;
            packed.put(7, lane.covered)?;
        }
        Ok(())
    }

    fn read(fields: &mut Unpacking<'_>) -> Option<DetectorCounts> {
        let minute = fields.take(MINUTE)?;
        let mut lanes = [Lane {
            vehicles: 0,
            covered: 0,
        }; LANES];
        for lane in lanes.iter_mut() {
            lane.vehicles = fields.take(7)?;
            lane.covered = fields.take(7)?;
        }
        Some(DetectorCounts { minute, lanes })
    }

    /// The vehicles on all lanes.
    pub fn vehicles(&self) -> u64 {
        self.lanes.iter().fold(
            0,
            |sum: u64, lane| sum.saturating_add(u64::from(lane.vehicles)),
        )
    }
}

impl LampFault {
    fn pack(&self, packed: &mut Packed) -> Result<(), AllocError> {
        packed.put(MINUTE, self.minute)?;
        packed.put(6, self.head)?;
        packed.put(2, self.lamp as u16)
    }

    fn read(fields: &mut Unpacking<'_>) -> Option<LampFault> {
        let minute = fields.take(MINUTE)?;
        let head = fields.take(6)?;
        let lamp = match fields.take(2)? {
            0 => Lamp::Red,
            1 => Lamp::Amber,
            2 => Lamp::Green,
            _ => return None,
        };
        Some(LampFault { minute, head, lamp })
    }
}

impl TramRequest {
    fn pack(&self, packed: &mut Packed) -> Result<(), AllocError> {
        packed.put(MINUTE, self.minute)?;
        packed.put(7, self.line)?;
        packed.put(2, self.approach)?;
        packed.put(7, self.seconds)
    }

    fn read(fields: &mut Unpacking<'_>) -> Option<TramRequest> {
        Some(TramRequest {
            minute: fields.take(MINUTE)?,
            line: fields.take(7)?,
            approach: fields.take(2)?,
            seconds: fields.take(7)?,
        })
    }
}

/// The kind as it stands in the account.
impl fmt::Display for Kind {
    fn fmt<W: fmt::Write>(&self, f: &mut fmt::Formatter<W>) -> fmt::Result {
        f.write_str(match self {
            Kind::SignalPlan => "signal plans",
            Kind::DetectorCounts => "detector counts",
            Kind::LampFault => "lamp faults",
            Kind::TramRequest => "tram requests",
        })
    }
}

impl fmt::Display for Lamp {
    fn fmt<W: fmt::Write>(&self, f: &mut fmt::Formatter<W>) -> fmt::Result {
        f.write_str(match self {
            Lamp::Red => "red",
            Lamp::Amber => "amber",
            Lamp::Green => "green",
        })
    }
}
