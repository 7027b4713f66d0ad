//! What C learns of a refusal, beside its number.

/// The layer that a refusal names, by its number, and the place. Both are 0 where nothing was refused.
#[repr(C)]
#[derive(Clone, Copy, Debug, PartialEq, Eq)]
pub struct Details {
    pub layer: u32,
    pub place: u64,
}
