//! What a run of the program came to.
use super::commands::Command;
use std::alloc::{AllocError, Global};
use std::collections::BTreeMap;
use std::fmt;
use units::{Reason, Refusal};

/// The commands by kind, those refused by reason, and the lines that could not be read.
#[derive(Drop)]
pub struct Account {
    by_command: BTreeMap<Command, u64>,
    by_reason: BTreeMap<Numbered, u64>,
    unreadable: u64,
}

/// A reason with its number before it.
#[derive(Clone, Copy, PartialEq, Eq, PartialOrd, Ord)]
struct Numbered(Reason);

impl fmt::Display for Numbered {
    fn fmt<W: fmt::Write>(&self, f: &mut fmt::Formatter<W>) -> fmt::Result {
        let reason = self.0;
        let number = reason.number();
        write!(f, "{number} {reason}")
    }
}

impl Account {
    pub fn new(heap: Global) -> Account {
        Account {
            by_command: BTreeMap::new(heap),
            by_reason: BTreeMap::new(heap),
            unreadable: 0,
        }
    }

    /// Enters a command and, if it was refused, why.
    pub fn enter(&mut self, command: Command, refusal: Option<Refusal>) -> Result<(), AllocError> {
        count(self.by_command.entry(command)?.or_insert(0));
        if let Some(Refusal { reason, .. }) = refusal {
            count(self.by_reason.entry(Numbered(reason))?.or_insert(0));
        }
        Ok(())
    }

    /// Enters a line that could not be read.
    pub fn unreadable(&mut self) {
        count(&mut self.unreadable);
    }
}

/// The sum of all counts.
fn total<K: Ord>(counts: &BTreeMap<K, u64>) -> u64 {
    counts
        .values()
        .fold(0, |sum: u64, count| sum.saturating_add(*count))
}

/// Counts one more. A full counter stays where it is.
fn count(counter: &mut u64) {
    *counter = counter.saturating_add(1);
}

impl fmt::Display for Account {
    fn fmt<W: fmt::Write>(&self, f: &mut fmt::Formatter<W>) -> fmt::Result {
        let commands = total(&self.by_command);
        let refused = total(&self.by_reason);
        let accepted = commands.saturating_sub(refused);
        let unreadable = self.unreadable;
        write!(f, "account\n  commands: {commands}\n")?;
        write_counts(f, &self.by_command)?;
        write!(f, "  accepted: {accepted}\n  refused: {refused}\n")?;
        write_counts(f, &self.by_reason)?;
        write!(f, "  lines not read: {unreadable}")
    }
}

/// A line for each kind that was counted.
fn write_counts<K: Ord + fmt::Display, W: fmt::Write>(
    f: &mut fmt::Formatter<W>,
    counts: &BTreeMap<K, u64>,
) -> fmt::Result {
    for (kind, count) in counts.iter() {
        writeln!(f, "    {kind}: {count}")?;
    }
    Ok(())
}
