//! Keystream of each kind of generator.
ghost use Rattle.std.specs.Prelude.{◌≡◌, length};
ghost use Rattle.generator.specs.Keystreams.{answer, written};
ghost use Rattle.generator.specs.Pairs.{both};
ghost use Rattle.aes_generator.specs.AesGenerator.{aes_meaning};
ghost use Rattle.playing.specs.Playing.{played};

#[cfg(test)]
mod tests {
    use aes_generator::AesGenerator;
    use field::Block;
    use generator::{Key, Nonce, Pair, keystream};
    use playing::Playback;
    use std::test::Fail;
    use units::{Layer, Reason, Refusal};

    // Three blocks under a nonce, of ones, of twos and of threes.
    const RECORDING: [u8; 64] = [
        0x4B, 0x53, 7, 7, 7, 7, 7, 7, 7, 7, 7, 7, 7, 7, 0, 3, //
        1, 1, 1, 1, 1, 1, 1, 1, 1, 1, 1, 1, 1, 1, 1, 1, //
        2, 2, 2, 2, 2, 2, 2, 2, 2, 2, 2, 2, 2, 2, 2, 2, //
        3, 3, 3, 3, 3, 3, 3, 3, 3, 3, 3, 3, 3, 3, 3, 3,
    ];

    const NONCE: Nonce = Nonce([7; 12]);

    fn short(place: u64) -> Result<(), Refusal> {
        Err(Refusal {
            reason: Reason::ShortKeystream,
            layer: Layer::Generator,
            place,
        })
    }

    // The first counter block of the example for AES-256 in counter mode of SP 800-38A, with its key.
    #[test]
    fn key(rt: HostRuntime) -> Result<(), Fail> {
        let key = Key([
            0x60, 0x3D, 0xEB, 0x10, 0x15, 0xCA, 0x71, 0xBE, 0x2B, 0x73, 0xAE, 0xF0, 0x85, 0x7D,
            0x77, 0x81, 0x1F, 0x35, 0x2C, 0x07, 0x3B, 0x61, 0x08, 0xD7, 0x2D, 0x98, 0x10, 0xA3,
            0x09, 0x14, 0xDF, 0xF4,
        ]);
        let nonce = Nonce([
            0xF0, 0xF1, 0xF2, 0xF3, 0xF4, 0xF5, 0xF6, 0xF7, 0xF8, 0xF9, 0xFA, 0xFB,
        ]);
        let mut out = [Block::ZERO];
        let answer = keystream(&mut AesGenerator::new(&key), &nonce, 0xFCFD_FEFF, &mut out);
        assert_eq!(rt; answer, Ok(()));
        assert_eq!(rt;
            out[0].to_bytes(),
            [
                0x0B, 0xDF, 0x7D, 0xF1, 0x59, 0x17, 0x16, 0x33, 0x5E, 0x9A, 0x8B, 0x15, 0xC8, 0x60,
                0xC5, 0x02,
            ]
        );
        Ok(())
    }

    #[test]
    fn playback(rt: HostRuntime) -> Result<(), Fail> {
        let mut playback = Playback::new(&RECORDING);
        let mut out = [Block::ZERO; 2];
        assert_eq!(rt; keystream(&mut playback, &NONCE, 1, &mut out), Ok(()));
        assert_eq!(rt; out[0].to_bytes(), [2; 16]);
        assert_eq!(rt; out[1].to_bytes(), [3; 16]);
        assert_eq!(rt; keystream(&mut playback, &NONCE, 2, &mut out), short(3));
        assert_eq!(rt; out[0].to_bytes(), [2; 16], "nothing is written");
        assert_eq!(rt;
            keystream(&mut playback, &Nonce([8; 12]), 0, &mut out),
            short(0)
        );
        Ok(())
    }

    #[test]
    fn pair(rt: HostRuntime) -> Result<(), Fail> {
        let mut playback = Playback::new(&RECORDING);
        let mut pair = Pair::new(Playback::new(&RECORDING), &mut playback);
        let mut out = [Block::ZERO; 3];
        assert_eq!(rt; keystream(&mut pair, &NONCE, 0, &mut out), Ok(()));
        for block in out {
            assert_eq!(rt; block.to_bytes(), [0; 16], "equal halves");
        }
        Ok(())
    }

    // The keystream of a pair of a pair: of a key and a recording, and of another key.
    fn of_three(
        key: &Key,
        recording: &[u8],
        other: &Key,
        nonce: &Nonce,
        first: u64,
        out: &mut [Block],
    ) -> Result<(), Refusal>
        ensures value { result ≡ answer (both (both (aes_meaning key.now.0) (played recording.now)) (aes_meaning other.now.0)) nonce.now.0 first (length out.old) }
        ensures after { out.new ≡ written (both (both (aes_meaning key.now.0) (played recording.now)) (aes_meaning other.now.0)) nonce.now.0 first out.old }
    {
        let inner = Pair::new(AesGenerator::new(key), Playback::new(recording));
        let mut pair = Pair::new(inner, AesGenerator::new(other));
        keystream(&mut pair, nonce, first, out)
    }

    // The same key twice falls out of the sum.
    #[test]
    fn pair_of_a_pair(rt: HostRuntime) -> Result<(), Fail> {
        let key = Key([5; 32]);
        let mut out = [Block::ZERO; 3];
        assert_eq!(rt;
            of_three(&key, &RECORDING, &key, &NONCE, 0, &mut out),
            Ok(())
        );
        assert_eq!(rt; out[0].to_bytes(), [1; 16]);
        assert_eq!(rt; out[1].to_bytes(), [2; 16]);
        assert_eq!(rt; out[2].to_bytes(), [3; 16]);
        assert_eq!(rt;
            of_three(&key, &RECORDING, &key, &NONCE, 1, &mut out),
            short(3)
        );
        Ok(())
    }
}
