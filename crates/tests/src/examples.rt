//! The example of a link in the README, as it stands there, with a control room that does nothing on a message.
use aes_generator::AesGenerator;
use cover::WORK_AREA;
use frames::{FRAME_BUFFER, MESSAGE_BUFFER};
use generator::Key;
use link::{Receiver, Sender, Settings, Terms};
use units::{BitString, Refusal};

// Makes the two ends: once each, at its own place, and kept. The first counts are those that storage gives; under a new key, 0.
fn ends(
    key: &Key,
    seal_from: u32,
    open_from: u32,
) -> Result<(Sender<AesGenerator>, Receiver<AesGenerator>), Refusal> {
    let terms = Terms {
        bearer: 7,
        direction: 1,
        tag_size: 8,
        extra_iv: None,
    };
    let sender = Sender::new(AesGenerator::new(key), Settings::new(terms, seal_from)?);
    let receiver = Receiver::new(AesGenerator::new(key), Settings::new(terms, open_from)?);
    Ok((sender, receiver))
}

// Sends a message from a controller to its control room, and answers the loss figure that the control room then has.
fn one_message(
    sender: &mut Sender<AesGenerator>,
    receiver: &mut Receiver<AesGenerator>,
    aad: BitString<'_>,
    message: BitString<'_>,
) -> Result<u8, Refusal> {
    let mut work = [0u8; WORK_AREA];

    // The controller seals. The frame is at the start of the buffer.
    let mut buffer = [0u8; FRAME_BUFFER.0];
    let length = sender.seal(&mut work, aad, message, &mut buffer)?;
    let frame = &buffer[..length.0];
    // Before the frame leaves: store a limit above its count (docs/INTEGRATING.md).

    // The control room opens. The message is at the start of its buffer, the AAD in the frame.
    let mut room = [0u8; MESSAGE_BUFFER.0];
    let opened = receiver.open(&mut work, frame, &mut room)?;
    let aad = BitString {
        bits: opened.aad_bits,
        bytes: &frame[opened.aad_place.0..][..opened.aad_bits.bytes().0],
    };
    let message = BitString {
        bits: opened.bits,
        bytes: &room[..opened.bits.bytes().0],
    };
    // Before the message is acted on: store `highest` + 1.
    act_on(opened.count, aad, message);
    Ok(receiver.loss())
}

fn act_on(_count: u32, _aad: BitString<'_>, _message: BitString<'_>) {}

#[cfg(test)]
mod tests {
    use super::{ends, one_message};
    use generator::Key;
    use std::test::Fail;
    use units::{BitString, Bits};

    const AAD: BitString<'static> = BitString {
        bits: Bits(7),
        bytes: &[0xFF],
    };

    const MESSAGE: BitString<'static> = BitString {
        bits: Bits(13),
        bytes: &[0xAB, 0xCD],
    };

    // Two messages under a new key; and one after a restart, before which the count 2 was left out.
    #[test]
    fn sent_and_opened(rt: HostRuntime) -> Result<(), Fail> {
        let key = Key([0x5A; 32]);
        let (mut sender, mut receiver) = ends(&key, 0, 0)?;
        for count in 0..2 {
            let loss = one_message(&mut sender, &mut receiver, AAD, MESSAGE);
            assert_eq!(rt; loss, Ok(0));
            assert_eq!(rt; receiver.highest(), Some(count));
            assert_eq!(rt; sender.next_count(), Some(count + 1));
        }
        let (mut sender, mut receiver) = ends(&key, 3, 2)?;
        let loss = one_message(&mut sender, &mut receiver, AAD, MESSAGE);
        assert_eq!(rt; loss, Ok(50));
        assert_eq!(rt; receiver.highest(), Some(3));
        Ok(())
    }
}
