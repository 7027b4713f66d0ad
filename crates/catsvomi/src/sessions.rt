//! A run of the program, from the first line to the account.
use super::accounts::Account;
use super::commands::Command;
use super::link_commands::Ends;
use std::alloc::Global;
use std::io;

/// What lives from line to line: the ends of the link, and the account.
#[derive(Drop)]
pub struct Session {
    ends: Ends,
    account: Account,
}

impl Session {
    pub fn new(heap: Global) -> Session {
        Session {
            ends: Ends::new(),
            account: Account::new(heap),
        }
    }

    /// Answers one line and enters it in the account.
    pub fn play(&mut self, rt: &HostRuntime, number: u64, line: &[u8]) -> io::Result<()> {
        match Command::read(rt.alloc(), &mut self.ends, line) {
            Ok(Some((command, answer))) => {
                println!(rt; "{answer}")?;
                self.account.enter(command, answer.refusal())?;
            }
            Ok(None) => {}
            Err(why) => {
                println!(rt; "error: line {number}: {why}")?;
                self.account.unreadable();
            }
        }
        Ok(())
    }

    /// Ends with the account.
    pub fn end(self, rt: &HostRuntime) -> io::Result<()> {
        let account = &self.account;
        println!(rt; "{account}")
    }
}
