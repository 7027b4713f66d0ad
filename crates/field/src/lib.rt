//! The field that tags are made in: blocks as polynomials, the fold over data, and the tag.
//!
//! Nothing here branches or looks up by a secret: the time of every call depends on lengths alone.
#![tactic(auto)]

ghost use Rattle.field.specs.Laws.{FieldLaws};

pub mod blocks;
pub mod folds;
mod iter;
pub mod tags;

pub use blocks::{Block, pdot};
pub use folds::fold;
pub use tags::TagKeys;

/// What the layers above rest on. It does nothing: a caller's proof has the laws from its contract.
pub fn laws()
    ensures { FieldLaws }
{
    polynomials::laws();
}
