//! Generators of keystream: what one promises, a pair of them, and the keystream that one gives.
#![tactic(auto)]

pub mod generators;
pub mod keys;
pub mod keystreams;
pub mod pairs;

pub use generators::{Generator, Nonce};
pub use keys::Key;
pub use keystreams::keystream;
pub use pairs::Pair;
