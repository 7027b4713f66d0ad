//! Counting.
use std::collections::BTreeMap;

/// Counts one more. A full counter stays where it is.
pub fn count(counter: &mut u64) {
    *counter = counter.saturating_add(1);
}

/// The sum of all counts.
pub fn total<K: Ord>(counts: &BTreeMap<K, u64>) -> u64 {
    counts
        .values()
        .fold(0, |sum: u64, count| sum.saturating_add(*count))
}
