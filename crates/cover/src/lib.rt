//! The cover: NEA5, NIA5 and NCA5 over any generator of keystream.
//!
//! A call tests what it is given first, in the order of the refusals' numbers, and writes to an output only when nothing is
//! refused. The caller lends it a work area of `WORK_AREA` bytes, which is zero afterwards on every way out.
#![tactic(auto)]

ghost use Rattle.cover.specs.Laws.{CoverLaws};

pub mod combined;
pub mod encryption;
pub mod integrity;
mod keystream;
mod refusing;
mod tags;
mod work_area;

pub use combined::{nca5_cover, nca5_open};
pub use encryption::nea5;
pub use integrity::nia5;
pub use work_area::{WORK_AREA, WorkArea};

/// What the layers above rest on. It does nothing: a caller's proof has the laws from its contract.
pub fn laws()
    ensures { CoverLaws }
{
    field::laws();
    nonces::laws();
}
