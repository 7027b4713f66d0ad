//! The account of a day: what the journal of the two ends tells, and what only the radio and the listener know.
use super::control_room::{count_of, is_as_sealed, read_opened};
use super::counters::{count, total};
use super::listener::Forgeries;
use super::log::HourName;
use super::messages::{Kind, Label};
use super::radio::Tally;
use link::{Opened, places};
use replay::{Event, OpenEvent, SealEvent};
use std::alloc::{AllocError, Global};
use std::collections::BTreeMap;
use std::fmt;
use units::{BitString, Reason};

#[derive(Drop)]
pub struct Account {
    first: u32,
    sealed: u64,
    sealed_kinds: BTreeMap<Kind, u64>,
    not_sealed: u64,
    used: Option<Used>,
    places: u64,
    refused: BTreeMap<Numbered, u64>,
    acts: BTreeMap<Act, u64>,
    unread: u64,
    unlike: u64,
    opened: BTreeMap<u32, u64>,
    losses: Vec<u8>,
    tally: Tally,
    forgeries: Forgeries,
}

/// The first and the last count that the frames of the day say.
#[derive(Clone, Copy)]
struct Used {
    first: u32,
    last: u32,
}

/// A reason with its number before it.
#[derive(Clone, Copy, PartialEq, Eq, PartialOrd, Ord)]
struct Numbered(Reason);

/// What the control room does on a message of a kind.
#[derive(Clone, Copy, PartialEq, Eq, PartialOrd, Ord)]
struct Act(Kind);

impl Account {
    pub fn of(
        heap: Global,
        first: u32,
        journal: &[Event],
        tally: Tally,
        forgeries: Forgeries,
    ) -> Result<Account, AllocError> {
        let mut account = Account::new(heap, first, tally, forgeries);
        let mut seals = Vec::new(heap);
        for event in journal {
            match event {
                Event::Seal(seal) => {
                    account.enter_seal(seal)?;
                    if seal.answer.is_ok() {
                        seals.push(seal)?;
                    }
                }
                Event::Open(open) => account.enter_open(open, seals.as_slice())?,
                Event::Loss(loss) => account.losses.push(*loss)?,
            }
        }
        Ok(account)
    }

    fn new(heap: Global, first: u32, tally: Tally, forgeries: Forgeries) -> Account {
        Account {
            first,
            sealed: 0,
            sealed_kinds: BTreeMap::new(heap),
            not_sealed: 0,
            used: None,
            places: 0,
            refused: BTreeMap::new(heap),
            acts: BTreeMap::new(heap),
            unread: 0,
            unlike: 0,
            opened: BTreeMap::new(heap),
            losses: Vec::new(heap),
            tally,
            forgeries,
        }
    }

    fn enter_seal(&mut self, seal: &SealEvent) -> Result<(), AllocError> {
        match seal.answer {
            Ok(_) => self.enter_sealed(seal),
            Err(_) => {
                count(&mut self.not_sealed);
                Ok(())
            }
        }
    }

    /// Enters a seal that was accepted.
    fn enter_sealed(&mut self, seal: &SealEvent) -> Result<(), AllocError> {
        count(&mut self.sealed);
        let places = u64::from(places(seal.asked.bits));
        self.places = self.places.saturating_add(places);
        if let Some(last) = count_of(seal) {
            let first = self.used.map_or(last, |used| used.first);
            self.used = Some(Used { first, last });
        }
        let label = BitString {
            bits: seal.asked.aad_bits,
            bytes: seal.asked.aad.as_slice(),
        };
        if let Some(label) = Label::read(label) {
            count(self.sealed_kinds.entry(label.kind)?.or_insert(0));
        }
        Ok(())
    }

    /// Enters a frame that was offered. `seals` are the seals before it that were accepted.
    fn enter_open(&mut self, open: &OpenEvent, seals: &[&SealEvent]) -> Result<(), AllocError> {
        match open.answer {
            Ok(opened) => self.enter_opened(open, opened, seals),
            Err(refusal) => {
                count(self.refused.entry(Numbered(refusal.reason))?.or_insert(0));
                Ok(())
            }
        }
    }

    fn enter_opened(
        &mut self,
        open: &OpenEvent,
        opened: Opened,
        seals: &[&SealEvent],
    ) -> Result<(), AllocError> {
        count(self.opened.entry(opened.count)?.or_insert(0));
        let seal = opened
            .count
            .checked_sub(self.first)
            .and_then(|number| seals.get(number as usize));
        if !seal.is_some_and(|seal| is_as_sealed(open, opened, seal)) {
            count(&mut self.unlike);
        }
        match read_opened(open, opened) {
            Some(reading) => count(self.acts.entry(Act(reading.label.kind))?.or_insert(0)),
            None => count(&mut self.unread),
        }
        Ok(())
    }
}

impl fmt::Display for Account {
    fn fmt<W: fmt::Write>(&self, f: &mut fmt::Formatter<W>) -> fmt::Result {
        f.write_str("account\n")?;
        self.write_seals(f)?;
        let tally = self.tally;
        let forgeries = self.forgeries;
        write!(f, "{tally}\n{forgeries}\n")?;
        self.write_offers(f)?;
        self.write_acts(f)?;
        self.write_losses(f)
    }
}

impl Account {
    fn write_seals<W: fmt::Write>(&self, f: &mut fmt::Formatter<W>) -> fmt::Result {
        let sealed = self.sealed;
        writeln!(f, "  messages sealed: {sealed}")?;
        write_counts(f, &self.sealed_kinds)?;
        let not_sealed = self.not_sealed;
        writeln!(f, "  seals refused: {not_sealed}")?;
        match self.used {
            Some(Used { first, last }) => writeln!(f, "  counts used: {first} to {last}")?,
            None => f.write_str("  counts used: none\n")?,
        }
        let places = self.places;
        writeln!(f, "  keystream places used: {places}")
    }

    fn write_offers<W: fmt::Write>(&self, f: &mut fmt::Formatter<W>) -> fmt::Result {
        let opened = total(&self.opened);
        let refused = total(&self.refused);
        let offered = opened.saturating_add(refused);
        let arrived = self.tally.arrived();
        write!(
            f,
            "  frames offered: {offered}\n    from the radio: {arrived}\n"
        )?;
        let forged = self.forgeries.total();
        writeln!(f, "    from the listener: {forged}")?;
        write!(
            f,
            "  frames opened: {opened}\n  frames refused: {refused}\n"
        )?;
        write_counts(f, &self.refused)
    }

    fn write_acts<W: fmt::Write>(&self, f: &mut fmt::Formatter<W>) -> fmt::Result {
        let acts = total(&self.acts);
        writeln!(f, "  messages acted on: {acts}")?;
        write_counts(f, &self.acts)?;
        let again = self.opened.values().filter(|times| **times > 1).count();
        let unlike = self.unlike;
        let unread = self.unread;
        write!(
            f,
            "    acted on twice: {again}\n    forged or changed: {unlike}\n"
        )?;
        writeln!(f, "    not understood: {unread}")?;
        let missing = self.sealed.saturating_sub(acts);
        writeln!(f, "  messages never acted on: {missing}")?;
        for (kind, sealed) in self.sealed_kinds.iter() {
            let acts = self.acts.get(&Act(*kind)).copied().unwrap_or(0);
            let missing = sealed.saturating_sub(acts);
            writeln!(f, "    {kind}: {missing}")?;
        }
        Ok(())
    }

    fn write_losses<W: fmt::Write>(&self, f: &mut fmt::Formatter<W>) -> fmt::Result {
        let last = self.losses.last().copied().unwrap_or(0);
        writeln!(f, "  loss at the end of the day: {last}%")?;
        let (mut hour, mut highest) = (0, 0);
        for (number, loss) in self.losses.iter().enumerate() {
            if *loss > highest {
                (hour, highest) = (number, *loss);
            }
        }
        let hour = HourName(hour);
        write!(f, "    highest, hour {hour}: {highest}%")
    }
}

/// A line for each kind that was counted.
fn write_counts<K: Ord + fmt::Display, W: fmt::Write>(
    f: &mut fmt::Formatter<W>,
    counts: &BTreeMap<K, u64>,
) -> fmt::Result {
    for (kind, count) in counts.iter() {
        writeln!(f, "    {kind}: {count}")?;
    }
    Ok(())
}

impl fmt::Display for Numbered {
    fn fmt<W: fmt::Write>(&self, f: &mut fmt::Formatter<W>) -> fmt::Result {
        let reason = self.0;
        let number = reason.number();
        write!(f, "{number:>2} {reason}")
    }
}

impl fmt::Display for Act {
    fn fmt<W: fmt::Write>(&self, f: &mut fmt::Formatter<W>) -> fmt::Result {
        f.write_str(match self.0 {
            Kind::SignalPlan => "signal plans put on the board",
            Kind::DetectorCounts => "detector counts added up",
            Kind::LampFault => "lamp faults given to a crew",
            Kind::TramRequest => "trams given a green",
        })
    }
}
