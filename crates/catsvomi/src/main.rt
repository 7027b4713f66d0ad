//! The bench program: reads commands from standard input, one a line, answers each, and ends with an account.
//! `help` lists the commands.
#![tactic(auto)]

mod accounts;
mod answers;
mod commands;
mod cover_commands;
mod errors;
mod field_commands;
mod fields;
mod generator_commands;
mod link_commands;
mod listings;
mod sessions;
mod sources;

use sessions::Session;
use std::io::{BufRead, BufReader};

fn main(rt: HostRuntime) -> anyhow::Result<()> {
    run(&rt)
}

fn run(rt: &HostRuntime) -> anyhow::Result<()> {
    let mut session = Session::new(rt.alloc());
    let lines = BufReader::new(rt.alloc(), rt.stdin())?.split(rt.alloc(), b'\n');
    for (number, line) in (1..u64::MAX).zip(lines) {
        session.play(rt, number, line?.as_slice())?;
    }
    session.end(rt)?;
    Ok(())
}
