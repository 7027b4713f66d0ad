//! The cover over each kind of generator.
#[cfg(test)]
mod tests {
    use aes_generator::AesGenerator;
    use cover::{WORK_AREA, nca5_cover, nca5_open};
    use generator::{Key, Pair};
    use nonces::Parameters;
    use std::test::Fail;
    use units::{BitString, Bits, Layer, Reason, Refusal};

    const KEY: Key = Key([0x5A; 32]);

    const OTHER_KEY: Key = Key([0xA5; 32]);

    const MESSAGE: BitString<'static> = BitString {
        bits: Bits(13),
        bytes: &[0xAB, 0xCD],
    };

    const AAD: BitString<'static> = BitString {
        bits: Bits(7),
        bytes: &[0xFF],
    };

    fn parameters(count: u32) -> Parameters {
        Parameters {
            bearer: 7,
            direction: 1,
            extra_iv: None,
            count,
        }
    }

    // Covers MESSAGE under KEY and the count 3, and answers what its opening under a count does.
    fn opening(count: u32, work: &mut [u8], message: &mut [u8]) -> Result<(), Refusal> {
        let mut generator = AesGenerator::new(&KEY);
        let mut ciphertext = [0; 2];
        let mut tag = [0; 4];
        nca5_cover(
            &mut generator,
            &mut [0; WORK_AREA],
            &parameters(3),
            4,
            AAD,
            MESSAGE,
            &mut ciphertext,
            &mut tag,
        )?;
        let covered = BitString {
            bits: MESSAGE.bits,
            bytes: &ciphertext,
        };
        nca5_open(
            &mut generator,
            work,
            &parameters(count),
            4,
            AAD,
            covered,
            &tag,
            message,
        )
    }

    fn refused(reason: Reason) -> Result<(), Refusal> {
        Err(Refusal {
            reason,
            layer: Layer::Cover,
            place: 0,
        })
    }

    // A pair with a lent half covers a message, and a pair of its own, with the halves the other way round, opens it. The
    // message comes without its spare bits. The work area, ones before each call, is zero after it.
    #[test]
    fn there_and_back(rt: HostRuntime) -> Result<(), Fail> {
        let mut other = AesGenerator::new(&OTHER_KEY);
        let mut ours = Pair::new(AesGenerator::new(&KEY), &mut other);
        let mut theirs = Pair::new(AesGenerator::new(&OTHER_KEY), AesGenerator::new(&KEY));
        let mut work = [1; WORK_AREA];
        let mut ciphertext = [0; 2];
        let mut tag = [0; 8];
        let message = &mut [0; 2];
        let under = parameters(3);
        nca5_cover(
            &mut ours,
            &mut work,
            &under,
            8,
            AAD,
            MESSAGE,
            &mut ciphertext,
            &mut tag,
        )?;
        assert_eq!(rt; work, [0; WORK_AREA]);
        work = [1; WORK_AREA];
        let covered = BitString {
            bits: MESSAGE.bits,
            bytes: &ciphertext,
        };
        nca5_open(
            &mut theirs,
            &mut work,
            &under,
            8,
            AAD,
            covered,
            &tag,
            message,
        )?;
        assert_eq!(rt; *message, [0xAB, 0xC8]);
        assert_eq!(rt; work, [0; WORK_AREA]);
        Ok(())
    }

    // Under another count the tag is wrong. The place for the message stays as it was.
    #[test]
    fn wrong_count_refused(rt: HostRuntime) -> Result<(), Fail> {
        let mut work = [1; WORK_AREA];
        let mut message = [9; 2];
        let answer = opening(4, &mut work, &mut message);
        assert_eq!(rt; answer, refused(Reason::WrongTag));
        assert_eq!(rt; message, [9; 2]);
        assert_eq!(rt; work, [0; WORK_AREA]);
        Ok(())
    }

    // A work area of a byte too many is refused, and all of it is zero then. The place for the message stays as it was.
    #[test]
    fn long_work_area_refused(rt: HostRuntime) -> Result<(), Fail> {
        let mut work = [1; WORK_AREA + 1];
        let mut message = [9; 2];
        let answer = opening(3, &mut work, &mut message);
        assert_eq!(rt; answer, refused(Reason::WorkArea));
        assert_eq!(rt; message, [9; 2]);
        assert_eq!(rt; work, [0; WORK_AREA + 1]);
        Ok(())
    }
}
