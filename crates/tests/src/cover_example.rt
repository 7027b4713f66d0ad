//! The example of the cover in the README, as it stands there.
use aes_generator::AesGenerator;
use cover::{WORK_AREA, nca5_cover, nca5_open};
use generator::Key;
use nonces::Parameters;
use units::{BitString, Refusal};

// Covers a message with a tag of eight bytes, and opens it again.
fn there_and_back(
    key: &Key,
    count: u32,
    aad: BitString<'_>,
    message: BitString<'_>,
    ciphertext: &mut [u8],
    opened: &mut [u8],
) -> Result<(), Refusal> {
    let mut generator = AesGenerator::new(key);
    let mut work = [0u8; WORK_AREA];
    let parameters = Parameters {
        bearer: 7,
        direction: 1,
        extra_iv: None,
        count,
    };
    let mut tag = [0u8; 8];
    nca5_cover(
        &mut generator,
        &mut work,
        &parameters,
        8,
        aad,
        message,
        ciphertext,
        &mut tag,
    )?;
    let covered = BitString {
        bits: message.bits,
        bytes: ciphertext,
    };
    nca5_open(
        &mut generator,
        &mut work,
        &parameters,
        8,
        aad,
        covered,
        &tag,
        opened,
    )
}

#[cfg(test)]
mod tests {
    use super::there_and_back;
    use generator::Key;
    use std::test::Fail;
    use units::{BitString, Bits};

    #[test]
    fn covered_and_opened(rt: HostRuntime) -> Result<(), Fail> {
        let aad = BitString {
            bits: Bits(7),
            bytes: &[0xFF],
        };
        let message = BitString {
            bits: Bits(13),
            bytes: &[0xAB, 0xCD],
        };
        let mut ciphertext = [0; 2];
        let mut opened = [0; 2];
        there_and_back(
            &Key([0x5A; 32]),
            1,
            aad,
            message,
            &mut ciphertext,
            &mut opened,
        )?;
        assert_eq!(rt; opened, [0xAB, 0xC8]);
        Ok(())
    }
}
