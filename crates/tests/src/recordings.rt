//! Recordings at their limits.
#[cfg(test)]
mod tests {
    use recording::{Reader, check};
    use std::alloc::{AllocError, Global};
    use std::test::Fail;
    use units::{Layer, Reason, Refusal};

    // A keystream record that says that it has `count` blocks, with as many blocks behind it.
    fn keystream(heap: Global, count: u16) -> Result<Vec<u8>, AllocError> {
        let mut bytes = Vec::from_slice(heap, b"KS")?;
        bytes.extend_from_slice(&[7; 12])?;
        bytes.extend_from_slice(&count.to_be_bytes())?;
        bytes.resize(16 + 16 * usize::from(count), 1)?;
        Ok(bytes)
    }

    // A remark of so many bytes.
    fn remark(heap: Global, length: u8) -> Result<Vec<u8>, AllocError> {
        let mut bytes = Vec::from_slice(heap, b"RM")?;
        bytes.push(length)?;
        bytes.resize(3 + usize::from(length), b'x')?;
        Ok(bytes)
    }

    // 65,472 bytes of keystream records, and then a remark of so many bytes.
    fn nearly_longest(heap: Global, length: u8) -> Result<Vec<u8>, AllocError> {
        let mut bytes = Vec::new(heap);
        for count in [1_024, 1_024, 1_024, 1_016] {
            bytes.extend_from_slice(keystream(heap, count)?.as_slice())?;
        }
        bytes.extend_from_slice(remark(heap, length)?.as_slice())?;
        Ok(bytes)
    }

    fn fault(place: u64) -> Result<(), Refusal> {
        Err(Refusal {
            reason: Reason::FaultyRecording,
            layer: Layer::Recording,
            place,
        })
    }

    #[test]
    fn block_counts(rt: HostRuntime) -> Result<(), Fail> {
        assert_eq!(rt;
            check(keystream(rt.alloc(), 0)?.as_slice()),
            fault(0),
            "no block"
        );
        assert_eq!(rt; check(keystream(rt.alloc(), 1)?.as_slice()), Ok(()));
        assert_eq!(rt; check(keystream(rt.alloc(), 1_024)?.as_slice()), Ok(()));
        assert_eq!(rt;
            check(keystream(rt.alloc(), 1_025)?.as_slice()),
            fault(0),
            "one block too many"
        );
        Ok(())
    }

    #[test]
    fn remark_lengths(rt: HostRuntime) -> Result<(), Fail> {
        assert_eq!(rt; check(remark(rt.alloc(), 0)?.as_slice()), Ok(()));
        assert_eq!(rt; check(remark(rt.alloc(), 255)?.as_slice()), Ok(()));
        Ok(())
    }

    // An empty recording is sound; a record that is cut anywhere is a fault, in its header and in its blocks.
    #[test]
    fn cut_records(rt: HostRuntime) -> Result<(), Fail> {
        assert_eq!(rt; check(b""), Ok(()));
        for (kind, record) in &[
            ("keystream", keystream(rt.alloc(), 1)?),
            ("remark", remark(rt.alloc(), 2)?),
        ] {
            for end in 1..record.len() {
                assert_eq!(rt; check(&record.as_slice()[..end]), fault(0), "{kind}");
            }
        }
        Ok(())
    }

    // At a fault the reading stays at the record's offset, however often it is asked.
    #[test]
    fn stays_at_a_fault(rt: HostRuntime) -> Result<(), Fail> {
        let mut bytes = remark(rt.alloc(), 5)?;
        bytes.extend_from_slice(b"KR")?;
        let mut reader = Reader::new(bytes.as_slice());
        assert_eq!(rt; reader.next_record().is_ok(), true);
        for _ in 0..3 {
            assert_eq!(rt; reader.offset().0, 8);
            assert_eq!(rt; reader.next_record().err(), fault(8).err());
        }
        Ok(())
    }

    // 65,536 bytes are a recording; one more is refused before any record is read.
    #[test]
    fn longest_recording(rt: HostRuntime) -> Result<(), Fail> {
        let bytes = nearly_longest(rt.alloc(), 61)?;
        assert_eq!(rt; bytes.len(), 65_536);
        assert_eq!(rt; check(bytes.as_slice()), Ok(()));
        let bytes = nearly_longest(rt.alloc(), 62)?;
        assert_eq!(rt; check(bytes.as_slice()), fault(65_536));
        let mut reader = Reader::new(bytes.as_slice());
        assert_eq!(rt; reader.next_record().err(), fault(65_536).err());
        assert_eq!(rt; reader.offset().0, 0);
        Ok(())
    }
}
