//! The values that are known beforehand.
#[cfg(test)]
mod tests {
    use known::known_values;
    use std::test::Fail;

    #[test]
    fn twenty(rt: HostRuntime) -> Result<(), Fail> {
        assert_eq!(rt; known_values(), 20);
        Ok(())
    }
}
