//! The example of a pair of generators in the README, as it stands there.
use aes_generator::AesGenerator;
use field::Block;
use generator::{Key, Nonce, Pair, keystream};
use playing::Playback;
use units::Refusal;

// The first two blocks of a key's keystream and a recorded one together.
fn together(text: &str, recorded: &[u8], nonce: &Nonce) -> Result<[Block; 2], Refusal> {
    let key = Key::from_text(text)?;
    let mut pair = Pair::new(AesGenerator::new(&key), Playback::new(recorded));
    let mut blocks = [Block::ZERO; 2];
    keystream(&mut pair, nonce, 0, &mut blocks)?;
    Ok(blocks)
}

#[cfg(test)]
mod tests {
    use super::together;
    use field::Block;
    use generator::Nonce;
    use std::test::Fail;
    use units::{Layer, Reason, Refusal};

    // Without a record there is no keystream.
    #[test]
    fn nothing_recorded(rt: HostRuntime) -> Result<(), Fail> {
        let text = "000102030405060708090a0b0c0d0e0f101112131415161718191a1b1c1d1e1f";
        let answer = together(text, &[], &Nonce([0; 12])).map(|_blocks: [Block; 2]| {});
        assert_eq!(rt;
            answer,
            Err(Refusal {
                reason: Reason::ShortKeystream,
                layer: Layer::Generator,
                place: 0
            })
        );
        Ok(())
    }
}
