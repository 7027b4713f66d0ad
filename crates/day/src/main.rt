//! A day at a junction: what its covered link carries to the control room over a lossy radio, while a listener forges. It
//! prints a line an hour, and an account.
//!
//! - `messages`: what the junction says, and `packing`, how that is laid out in bits
//! - `junction`, `radio`, `listener`: what happens in the day, left to `chance`, which is the same in each run
//! - `traffic`: the whole day as one list of calls on the two ends
//! - `control_room`: what an opened frame said
//! - `log` and `accounts`: what the journal of those calls tells
#![tactic(auto)]

ghost use Rattle.std.specs.Prelude.{◌≡◌, IfOk, map, vec_items};
ghost use Rattle.aes_generator.specs.AesGenerator.{aes_meaning};
ghost use Rattle.replay.specs.EveryRun.{EveryNewRun, LawsOf, new_run};
ghost use Rattle.replay.specs.Journals.{played, told};

mod accounts;
mod chance;
mod control_room;
mod counters;
mod junction;
mod listener;
mod log;
mod messages;
mod packing;
mod radio;
mod traffic;

use accounts::Account;
use aes_generator::AesGenerator;
use generator::Key;
use link::{Receiver, Sender, Settings, Terms};
use replay::{Call, Event, replay};
use std::alloc::{AllocError, Global};
use traffic::Traffic;
use units::Explained;

/// The key of the link. One that is printed in a program covers nothing: this one is for show.
const KEY: &str = "9f0ad3c84be1527690cc1d38a7f42e6b05d9e877f31b4a60c52e8f149d7ba306";

/// What the two ends are set to.
const TERMS: Terms = Terms {
    bearer: 5,
    direction: 0,
    tag_size: 8,
    extra_iv: None,
};

/// The first count. Those below it were used on the days before.
const FIRST: u32 = 65_200;

/// The number of the junction.
const JUNCTION: u16 = 417;

fn main(rt: HostRuntime) -> anyhow::Result<()> {
    run(&rt)
}

/// Plays a day on the two ends of a link, and prints what came of it.
fn run(rt: &HostRuntime) -> anyhow::Result<()> {
    let key = Key::from_text(KEY).map_err(Explained)?;
    let settings = Settings::new(TERMS, FIRST).map_err(Explained)?;
    let traffic = Traffic::of_a_day(rt.alloc(), JUNCTION, TERMS, FIRST)?;
    let journal = journal_of(rt.alloc(), &key, settings, traffic.calls.as_slice())?;
    let log = log::Log::of(rt.alloc(), journal.as_slice())?;
    let account = Account::of(
        rt.alloc(),
        FIRST,
        journal.as_slice(),
        traffic.tally,
        traffic.forgeries,
    )?;
    println!(rt; "a day at junction {JUNCTION}\n\n{log}\n\n{account}")?;
    Ok(())
}

/// Sets up the two ends of a link under a key, makes each call in turn on them, and returns the journal. Whatever is called on
/// two such ends, the laws of a link hold of what comes of it.
fn journal_of(
    heap: Global,
    key: &Key,
    settings: Settings,
    calls: &[Call],
) -> Result<Vec<Event>, AllocError>
    ensures journal { IfOk result (λ events. map told (vec_items events) ≡ new_run (aes_meaning key.now.0) settings (map played calls.now)) }
    ensures laws { EveryNewRun (aes_meaning key.now.0) settings }
    ensures own { LawsOf (aes_meaning key.now.0) settings.terms settings.first settings.first (new_run (aes_meaning key.now.0) settings (map played calls.now)) }
{
    let mut sender = Sender::new(AesGenerator::new(key), settings);
    let mut receiver = Receiver::new(AesGenerator::new(key), settings);
    replay(heap, &mut sender, &mut receiver, calls)
}
