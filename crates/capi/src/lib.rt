//! The cover over AES-256, exported for C: NEA5, NIA5 and NCA5, each under a key of 32 bytes.
//!
//! A call answers 0, or the number of its refusal, and leaves the layer and the place of the refusal in its last argument.
//! EXTRA_IV is six bytes; one that is absent is six zero bytes. The declarations for C stand in `include/catsvomi.h`, and
//! no proof sees those.
#![tactic(auto)]

mod answering;
pub mod combined;
mod details;
pub mod encryption;
pub mod integrity;
mod messages;
