//! The two ends of a covered link, over any generator of keystream.
//!
//! The sending end seals one message with each count, and never two. The receiving end opens each count once, at most 63
//! counts late. A frame that is lost on the way is sent again as the same bytes: it is not sealed again.
#![tactic(auto)]

pub mod keystream;
pub mod receiving;
mod refusing;
pub mod sending;
pub mod settings;

pub use keystream::places;
pub use receiving::{Opened, Receiver};
pub use sending::Sender;
pub use settings::{Settings, Terms};
