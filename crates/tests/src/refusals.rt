//! Refusals as they are written.
#[cfg(test)]
mod tests {
    use std::test::Fail;
    use units::{Explained, Layer, Reason, Refusal};

    #[test]
    fn explained(rt: HostRuntime) -> Result<(), Fail> {
        let refusal = Refusal {
            reason: Reason::ShortKeystream,
            layer: Layer::Generator,
            place: 2,
        };
        let text = Explained(refusal).to_string(rt.alloc())?;
        assert_eq!(rt;
            text.as_str(),
            "refused 13 generator 2: keystream is too short"
        );
        Ok(())
    }
}
