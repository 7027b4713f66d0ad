//! Recordings of keystream, read record by record without copying.
#![tactic(auto)]

pub mod checking;
pub mod reading;
pub mod records;

pub use checking::check;
pub use reading::{Reader, laws};
pub use records::Record;
