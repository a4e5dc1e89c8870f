//! Lines that are refused, and lines that are read.
use super::*;
use std::test::Fail;

#[test]
fn a_line_with_a_space_or_a_number_too_many_is_refused(rt: HostRuntime) -> Result<(), Fail> {
    let refused = [
        "accept  1",
        "claim ",
        " claim",
        "accept 18446744073709551616",
        "accept -1",
        "accept",
        "source ",
        "limit batch 4097",
        "limit rows 0",
        "query past",
        "query since x a == 1",
        "foo",
    ];
    for text in refused {
        assert!(rt; read_line(text).is_none());
    }
    Ok(())
}
