//! What every other crate counts in, and how every call says no.
#![tactic(auto)]

pub mod lengths;
pub mod refusals;
pub mod spare;
pub mod strings;

pub use lengths::{Bits, Bytes};
pub use refusals::{Explained, Layer, Reason, Refusal};
pub use spare::{BitString, clear_spare};
pub use strings::octets;
