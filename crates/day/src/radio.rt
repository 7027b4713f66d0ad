//! The radio between the junction and the control room, which loses, doubles, delays, reorders and damages frames.
use super::chance::Chance;
use super::counters::count;
use std::fmt;

/// How many frames of a thousand are lost, and how many while a lorry stands before the aerial.
const LOST: usize = 140;

const LOST_BEHIND_LORRY: usize = 650;

/// The shortest and the longest time for which a relay holds a frame back, in minutes. By day, even in the shortest more counts
/// go by than a window looks back on.
const SHORTEST_HOLD: usize = 210;

const LONGEST_HOLD: usize = 300;

/// What becomes of a frame that is sent.
#[derive(Clone, Copy)]
pub enum Fate {
    /// It does not arrive.
    Lost,
    /// It arrives with the byte at a place changed by a bitwise sum.
    Damaged { place: usize, sum: u8 },
    /// It arrives after so many minutes.
    Arrives { after: usize },
    /// It arrives at once, and again after so many minutes.
    ArrivesTwice { after: usize },
}

/// What became of the frames of a day.
#[derive(Clone, Copy)]
pub struct Tally {
    pub frames: u64,
    pub repeats: u64,
    pub lost: u64,
    pub behind_lorry: u64,
    pub damaged: u64,
    pub late: u64,
    pub held: u64,
    pub doubled: u64,
}

#[derive(Drop)]
pub struct Radio {
    chance: Chance,
    pub tally: Tally,
}

impl Radio {
    pub fn new(seed: u64) -> Radio {
        Radio {
            chance: Chance::new(seed),
            tally: Tally {
                frames: 0,
                repeats: 0,
                lost: 0,
                behind_lorry: 0,
                damaged: 0,
                late: 0,
                held: 0,
                doubled: 0,
            },
        }
    }

    /// Sends a frame of so many bytes at a minute, for the first time or again.
    pub fn send(&mut self, minute: u16, length: usize, again: bool) -> Fate {
        count(&mut self.tally.frames);
        if again {
            count(&mut self.tally.repeats);
        }
        if self.loses(minute) {
            return Fate::Lost;
        }
        match self.chance.below(1000) {
            0..=29 => self.damage(length),
            30..=49 => self.hold(),
            50..=149 => self.delay(),
            150..=189 => self.double(),
            _ => Fate::Arrives { after: 0 },
        }
    }

    /// Whether a frame is lost. The lorry stands there from 13:20 to 14:20.
    fn loses(&mut self, minute: u16) -> bool {
        let behind_lorry = (800..860).contains(&minute);
        let lost = self.chance.happens(if behind_lorry {
            LOST_BEHIND_LORRY
        } else {
            LOST
        });
        if lost {
            count(&mut self.tally.lost);
        }
        if lost && behind_lorry {
            count(&mut self.tally.behind_lorry);
        }
        lost
    }

    fn damage(&mut self, length: usize) -> Fate {
        count(&mut self.tally.damaged);
        Fate::Damaged {
            place: self.chance.below(length.max(1)),
            sum: self.chance.sum(),
        }
    }

    fn hold(&mut self) -> Fate {
        count(&mut self.tally.held);
        Fate::Arrives {
            after: SHORTEST_HOLD + self.chance.below(LONGEST_HOLD - SHORTEST_HOLD),
        }
    }

    fn delay(&mut self) -> Fate {
        count(&mut self.tally.late);
        Fate::Arrives {
            after: 1 + self.chance.below(9),
        }
    }

    fn double(&mut self) -> Fate {
        count(&mut self.tally.doubled);
        Fate::ArrivesTwice {
            after: self.chance.below(6),
        }
    }

    /// Whether the control room's sign that it has a frame reaches the junction.
    pub fn acknowledges(&mut self) -> bool {
        !self.chance.happens(50)
    }
}

impl Tally {
    /// How many frames came to the control room.
    pub fn arrived(&self) -> u64 {
        self.frames
            .saturating_sub(self.lost)
            .saturating_add(self.doubled)
    }
}

impl fmt::Display for Tally {
    fn fmt<W: fmt::Write>(&self, f: &mut fmt::Formatter<W>) -> fmt::Result {
        let Tally {
            frames,
            repeats,
            lost,
            behind_lorry,
            damaged,
            late,
            held,
            doubled,
        } = *self;
        write!(
            f,
            "  frames sent: {frames}\n    repeats, the same bytes again: {repeats}\n"
        )?;
        write!(f, "    lost on the way: {lost}\n")?;
        write!(f, "      behind a lorry, 13:20 to 14:20: {behind_lorry}\n")?;
        write!(f, "    damaged on the way: {damaged}\n")?;
        write!(
            f,
            "    late by minutes: {late}\n    late by hours: {held}\n"
        )?;
        write!(f, "    doubled on the way: {doubled}")
    }
}
