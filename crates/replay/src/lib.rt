//! Plays any list of calls on the two ends of a link, and returns the journal of what came of each.
#![tactic(auto)]

pub mod calls;
pub mod run;

pub use calls::{Call, Event, Offered, OpenEvent, Opening, SealEvent, Sealing};
pub use run::replay;
