//! AES-256 of FIPS 197, eight blocks at a time, with no branch and no address that depends on a key or on a block.
#![tactic(auto)]

pub mod cipher;
mod key_expansion;
mod round_keys;
mod steps;

pub use cipher::Aes256;
