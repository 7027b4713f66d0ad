//! The example of a recording in the README, as it stands there.
use recording::{Reader, Record};

// How many blocks of keystream stand in a recording before its first fault.
fn blocks(bytes: &[u8]) -> usize {
    let mut count: usize = 0;
    for (_offset, record) in Reader::new(bytes).record_indices() {
        if let Record::Keystream { blocks, .. } = record {
            count = count.saturating_add(blocks.len());
        }
    }
    count
}

#[cfg(test)]
mod tests {
    use super::blocks;
    use std::test::Fail;

    // A remark, and then a fault.
    #[test]
    fn none_recorded(rt: HostRuntime) -> Result<(), Fail> {
        assert_eq!(rt; blocks(b"RM\x05helloKS"), 0);
        Ok(())
    }
}
