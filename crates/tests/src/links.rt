//! The two ends of a link, and what they leave in the buffers that they are lent.
#[cfg(test)]
mod tests {
    use aes_generator::AesGenerator;
    use cover::WORK_AREA;
    use generator::{Key, Pair};
    use link::{Opened, Receiver, Sender, Settings, Terms};
    use std::test::Fail;
    use units::{BitString, Bits, Bytes, Layer, Reason, Refusal};

    const KEY: Key = Key([0x5A; 32]);

    const OTHER_KEY: Key = Key([0xA5; 32]);

    const MESSAGE: BitString<'static> = BitString {
        bits: Bits(13),
        bytes: &[0xAB, 0xCD],
    };

    const AAD: BitString<'static> = BitString {
        bits: Bits(7),
        bytes: &[0xFF],
    };

    // The bytes of a frame with these and a tag of four.
    const FRAME: usize = 19;

    // The bytes that a message wants as room.
    const ROOM: usize = 1_400;

    fn settings(first: u32) -> Result<Settings, Refusal> {
        let terms = Terms {
            bearer: 7,
            direction: 1,
            tag_size: 4,
            extra_iv: None,
        };
        Settings::new(terms, first)
    }

    // The frame of a count under KEY.
    fn sealed(count: u32) -> Result<[u8; FRAME], Refusal> {
        let mut sender = Sender::new(AesGenerator::new(&KEY), settings(count)?);
        let mut frame = [0; FRAME];
        let _length = sender.seal(&mut [0; WORK_AREA], AAD, MESSAGE, &mut frame)?;
        Ok(frame)
    }

    // What an open of a frame of AAD and MESSAGE answers.
    fn opened(count: u32) -> Result<Opened, Refusal> {
        Ok(Opened {
            count,
            bits: MESSAGE.bits,
            aad_place: Bytes(12),
            aad_bits: AAD.bits,
        })
    }

    fn refused<T>(layer: Layer, reason: Reason) -> Result<T, Refusal> {
        Err(Refusal {
            reason,
            layer,
            place: 0,
        })
    }

    // An end over a pair seals, and an end over a pair with the halves the other way round opens. The buffers keep what they
    // have past the frame and past the message; the work area, ones before each call, is zero after it. The same bytes again
    // are refused.
    #[test]
    fn opened_once(rt: HostRuntime) -> Result<(), Fail> {
        let ours = Pair::new(AesGenerator::new(&KEY), AesGenerator::new(&OTHER_KEY));
        let theirs = Pair::new(AesGenerator::new(&OTHER_KEY), AesGenerator::new(&KEY));
        let mut sender = Sender::new(ours, settings(3)?);
        let mut receiver = Receiver::new(theirs, settings(0)?);
        let mut work = [1; WORK_AREA];
        let mut buffer = [9; FRAME + 1];
        let length = sender.seal(&mut work, AAD, MESSAGE, &mut buffer)?;
        let (later, frame) = buffer.split_last().ok_or("no byte")?;
        assert_eq!(rt; length, Bytes(FRAME));
        assert_eq!(rt; *later, 9);
        assert_eq!(rt; work, [0; WORK_AREA]);
        assert_eq!(rt; sender.next_count(), Some(4));
        work = [1; WORK_AREA];
        let mut message = [9; ROOM + 1];
        let answer = receiver.open(&mut work, frame, &mut message);
        assert_eq!(rt; answer, opened(3));
        assert_eq!(rt; &message[..2], [0xAB, 0xC8].as_slice());
        assert_eq!(rt; &message[2..], [9; ROOM - 1].as_slice());
        assert_eq!(rt; work, [0; WORK_AREA]);
        let again = receiver.open(&mut work, frame, &mut message);
        assert_eq!(rt; again, refused(Layer::Link, Reason::OpenedBefore));
        Ok(())
    }

    // Of five frames the second and the fourth are lost, and the first comes last.
    #[test]
    fn lost_on_the_way(rt: HostRuntime) -> Result<(), Fail> {
        let mut receiver = Receiver::new(AesGenerator::new(&KEY), settings(10)?);
        let mut message = [0; ROOM];
        assert_eq!(rt; receiver.loss(), 0);
        for count in [14, 12, 10] {
            let answer = receiver.open(&mut [0; WORK_AREA], &sealed(count)?, &mut message);
            assert_eq!(rt; answer, opened(count));
        }
        assert_eq!(rt; receiver.highest(), Some(14));
        assert_eq!(rt; receiver.loss(), 40);
        Ok(())
    }

    // A frame with another last bit marks nothing and writes nothing, and the frame itself is opened after it.
    #[test]
    fn forged_frame_refused(rt: HostRuntime) -> Result<(), Fail> {
        let mut receiver = Receiver::new(AesGenerator::new(&KEY), settings(3)?);
        let mut frame = sealed(3)?;
        frame[FRAME - 1] ^= 1;
        let mut work = [1; WORK_AREA];
        let mut message = [9; ROOM];
        let answer = receiver.open(&mut work, &frame, &mut message);
        assert_eq!(rt; answer, refused(Layer::Cover, Reason::WrongTag));
        assert_eq!(rt; message, [9; ROOM]);
        assert_eq!(rt; work, [0; WORK_AREA]);
        assert_eq!(rt; receiver.highest(), None);
        frame[FRAME - 1] ^= 1;
        let answer = receiver.open(&mut work, &frame, &mut message);
        assert_eq!(rt; answer, opened(3));
        Ok(())
    }

    // A buffer of a byte too few is refused and stays as it was, and the count is used by the seal after it.
    #[test]
    fn short_frame_buffer_refused(rt: HostRuntime) -> Result<(), Fail> {
        let mut sender = Sender::new(AesGenerator::new(&KEY), settings(3)?);
        let mut work = [1; WORK_AREA];
        let mut short = [9; FRAME - 1];
        let answer = sender.seal(&mut work, AAD, MESSAGE, &mut short);
        assert_eq!(rt; answer, refused(Layer::Link, Reason::OutputBytes));
        assert_eq!(rt; short, [9; FRAME - 1]);
        assert_eq!(rt; work, [0; WORK_AREA]);
        let mut frame = [9; FRAME];
        let _length = sender.seal(&mut work, AAD, MESSAGE, &mut frame)?;
        assert_eq!(rt; frame, sealed(3)?);
        Ok(())
    }

    // A work area of a byte too many is refused by both ends, and all of it is zero then. The buffers stay as they were.
    #[test]
    fn long_work_area_refused(rt: HostRuntime) -> Result<(), Fail> {
        let mut sender = Sender::new(AesGenerator::new(&KEY), settings(3)?);
        let mut receiver = Receiver::new(AesGenerator::new(&KEY), settings(3)?);
        let mut work = [1; WORK_AREA + 1];
        let mut frame = [9; FRAME];
        let answer = sender.seal(&mut work, AAD, MESSAGE, &mut frame);
        assert_eq!(rt; answer, refused(Layer::Link, Reason::WorkArea));
        assert_eq!(rt; frame, [9; FRAME]);
        assert_eq!(rt; work, [0; WORK_AREA + 1]);
        work = [1; WORK_AREA + 1];
        let mut message = [9; ROOM];
        let answer = receiver.open(&mut work, &sealed(3)?, &mut message);
        assert_eq!(rt; answer, refused(Layer::Link, Reason::WorkArea));
        assert_eq!(rt; message, [9; ROOM]);
        assert_eq!(rt; work, [0; WORK_AREA + 1]);
        Ok(())
    }
}
