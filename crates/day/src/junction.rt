//! What happens at the junction in a day, and what it reports of that.
use super::chance::Chance;
use super::messages::{
    DetectorCounts, LANES, Lamp, LampFault, Lane, Message, SignalPlan, TramRequest,
};
use std::alloc::{AllocError, Global};

/// The minutes from one report of the detectors to the next.
const COUNTING: u16 = 3;

/// The vehicles that cross a detector in that time in each hour of the day, about.
const FLOW: [usize; 24] = [
    2, 1, 1, 1, 2, 5, 14, 26, 24, 15, 12, 12, 14, 13, 15, 20, 27, 29, 22, 14, 9, 7, 5, 3,
];

/// The most vehicles that a report can say.
const MOST_VEHICLES: usize = 127;

/// The lines of the trams.
const LINES: [u16; 4] = [2, 6, 11, 15];

/// How many signal heads there are.
const HEADS: usize = 18;

/// The junction.
#[derive(Drop)]
pub struct Junction {
    chance: Chance,
}

impl Junction {
    pub fn new(seed: u64) -> Junction {
        Junction {
            chance: Chance::new(seed),
        }
    }

    /// What the junction reports at a minute of the day.
    pub fn reports(&mut self, heap: Global, minute: u16) -> Result<Vec<Message>, AllocError> {
        let hour = minute / 60;
        let mut reports = Vec::new(heap);
        if minute % 60 == 0 {
            reports.push(Message::Plan(plan_from(minute)))?;
        }
        if minute % COUNTING == 0 {
            reports.push(Message::Counts(self.counts(minute)))?;
        }
        if matches!(hour, 6..=8 | 15..=18) && self.chance.happens(270) {
            reports.push(Message::Tram(self.tram(minute)))?;
        }
        if self.chance.happens(4) {
            reports.push(Message::Fault(self.fault(minute)))?;
        }
        Ok(reports)
    }

    /// What the detectors counted: half to one and a half times the flow of the hour.
    fn counts(&mut self, minute: u16) -> DetectorCounts {
        let flow = FLOW[usize::from(minute / 60 % 24)];
        let mut lanes = [Lane {
            vehicles: 0,
            covered: 0,
        }; LANES];
        for lane in lanes.iter_mut() {
            let vehicles = self
                .chance
                .below(flow.saturating_add(1))
                .saturating_add(flow / 2)
                .min(MOST_VEHICLES);
            lane.vehicles = vehicles as u16;
            lane.covered = (vehicles + self.chance.below(9)).min(100) as u16;
        }
        DetectorCounts { minute, lanes }
    }

    fn tram(&mut self, minute: u16) -> TramRequest {
        TramRequest {
            minute,
            line: LINES[self.chance.below(LINES.len())],
            approach: self.chance.below(4) as u16,
            seconds: (20 + self.chance.below(70)) as u16,
        }
    }

    fn fault(&mut self, minute: u16) -> LampFault {
        LampFault {
            minute,
            head: (self.chance.below(HEADS) + 1) as u16,
            lamp: match self.chance.below(3) {
                0 => Lamp::Red,
                1 => Lamp::Amber,
                _ => Lamp::Green,
            },
        }
    }
}

/// The plan that runs from a full hour on: 1 at night, 2 and 4 in the rush hours, 3 by day and 5 in the evening.
fn plan_from(minute: u16) -> SignalPlan {
    let (plan, cycle, greens) = match minute / 60 {
        6..=8 => (2, 100, [28, 9, 22, 7, 10, 6]),
        9..=14 => (3, 80, [18, 8, 16, 7, 8, 5]),
        15..=18 => (4, 110, [24, 11, 30, 9, 11, 7]),
        19..=21 => (5, 70, [15, 7, 14, 6, 7, 5]),
        _ => (1, 50, [9, 5, 9, 5, 5, 5]),
    };
    SignalPlan {
        minute,
        plan,
        cycle,
        offset: cycle / 3,
        greens,
    }
}
