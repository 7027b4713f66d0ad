//! The log of a day, an hour a line.
use super::control_room::read_opened;
use super::counters::count;
use super::messages::{LampFault, Message};
use replay::{Event, OpenEvent};
use std::alloc::{AllocError, Global};
use std::fmt;

/// What the journal tells of an hour: the calls up to a loss figure, and that figure.
#[derive(Drop)]
struct Hour {
    plan: Option<u16>,
    vehicles: u64,
    trams: u64,
    faults: Vec<LampFault>,
    sealed: u64,
    offered: u64,
    opened: u64,
    loss: u8,
}

/// The hours of a day. The last one is what came after midnight.
#[derive(Drop)]
pub struct Log {
    hours: Vec<Hour>,
}

/// The name of the hour of a number, as the log has it.
#[derive(Clone, Copy)]
pub struct HourName(pub usize);

impl Log {
    pub fn of(heap: Global, journal: &[Event]) -> Result<Log, AllocError> {
        let mut hours = Vec::new(heap);
        let mut hour = Hour::new(heap);
        for event in journal {
            match event {
                Event::Seal(seal) if seal.answer.is_ok() => count(&mut hour.sealed),
                Event::Seal(_) => {}
                Event::Open(open) => hour.enter(open)?,
                Event::Loss(loss) => {
                    hour.loss = *loss;
                    hours.push(hour)?;
                    hour = Hour::new(heap);
                }
            }
        }
        Ok(Log { hours })
    }
}

impl Hour {
    fn new(heap: Global) -> Hour {
        Hour {
            plan: None,
            vehicles: 0,
            trams: 0,
            faults: Vec::new(heap),
            sealed: 0,
            offered: 0,
            opened: 0,
            loss: 0,
        }
    }

    /// Enters a frame that was offered, and what the control room did on it.
    fn enter(&mut self, open: &OpenEvent) -> Result<(), AllocError> {
        count(&mut self.offered);
        let Ok(opened) = open.answer else {
            return Ok(());
        };
        count(&mut self.opened);
        match read_opened(open, opened).map(|reading| reading.message) {
            Some(Message::Plan(plan)) => self.plan = Some(plan.plan),
            Some(Message::Counts(counts)) => {
                self.vehicles = self.vehicles.saturating_add(counts.vehicles());
            }
            Some(Message::Fault(fault)) => self.faults.push(fault)?,
            Some(Message::Tram(_)) => count(&mut self.trams),
            None => {}
        }
        Ok(())
    }
}

impl fmt::Display for Log {
    fn fmt<W: fmt::Write>(&self, f: &mut fmt::Formatter<W>) -> fmt::Result {
        f.write_str(HEADING)?;
        for (number, hour) in self.hours.iter().enumerate() {
            let name = HourName(number);
            write!(f, "\n  {name}{hour}")?;
        }
        Ok(())
    }
}

impl fmt::Display for HourName {
    fn fmt<W: fmt::Write>(&self, f: &mut fmt::Formatter<W>) -> fmt::Result {
        let number = self.0;
        if number < 24 {
            write!(f, "{number:02}:00")
        } else {
            f.write_str("later")
        }
    }
}

const HEADING: &str = "  hour   plan  vehicles  trams  sealed  offered  opened  refused  loss";

/// The figures of the hour, and a line for each lamp fault.
impl fmt::Display for Hour {
    fn fmt<W: fmt::Write>(&self, f: &mut fmt::Formatter<W>) -> fmt::Result {
        match self.plan {
            Some(plan) => write!(f, "  {plan:>4}")?,
            None => write!(f, "  {:>4}", "-")?,
        }
        let vehicles = self.vehicles;
        let trams = self.trams;
        write!(f, "  {vehicles:>8}  {trams:>5}")?;
        let sealed = self.sealed;
        let offered = self.offered;
        let opened = self.opened;
        let refused = offered.saturating_sub(opened);
        let loss = self.loss;
        write!(
            f,
            "  {sealed:>6}  {offered:>7}  {opened:>6}  {refused:>7}  {loss:>3}%"
        )?;
        for fault in self.faults.iter() {
            write!(f, "\n         {fault}")?;
        }
        Ok(())
    }
}

impl fmt::Display for LampFault {
    fn fmt<W: fmt::Write>(&self, f: &mut fmt::Formatter<W>) -> fmt::Result {
        let hour = self.minute / 60;
        let minute = self.minute % 60;
        let head = self.head;
        let lamp = self.lamp;
        write!(
            f,
            "{hour:02}:{minute:02} the {lamp} lamp of signal head {head} is out"
        )
    }
}
