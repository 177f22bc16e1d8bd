//! Tables of jumps, worked by hand.
use crate::cycle_of;
use std::alloc::{AllocError, Global};
use std::test::Fail;

/// The jumps of chains, one text a chain, in which each jump is a digit.
fn jumps_of(alloc: Global, rows: &[&str]) -> Result<Vec<Vec<usize>>, AllocError> {
    let mut jumps = Vec::new(alloc);
    for row in rows {
        let mut chains = Vec::new(alloc);
        for digit in row.chars() {
            chains.push(digit.to_digit(10).unwrap_or(0) as usize)?;
        }
        jumps.push(chains)?;
    }
    Ok(jumps)
}

#[test]
fn walks_of_tables(rt: HostRuntime) -> Result<(), Fail> {
    let alloc = rt.alloc();
    for (rows, walk) in [
        ([].as_slice(), None),
        (["1", "2", ""].as_slice(), None),
        (["12", "2", "", "0"].as_slice(), None),
        (["1", "0"].as_slice(), Some([0, 1, 0].as_slice())),
        (["0"].as_slice(), Some([0, 0].as_slice())),
        (["9", "1"].as_slice(), Some([1, 1].as_slice())),
        (["1", "3", "3", "21"].as_slice(), Some([1, 3, 1].as_slice())),
        (["12", "3", "0", "0"].as_slice(), Some([0, 2, 0].as_slice())),
        (["21", "0", "0"].as_slice(), Some([0, 1, 0].as_slice())),
        (["1", "2", "13"].as_slice(), Some([1, 2, 1].as_slice())),
    ] {
        let jumps = jumps_of(alloc, rows)?;
        let found = cycle_of(alloc, jumps.as_slice())?;
        assert_eq!(rt; found.as_ref().map(|found| found.as_slice()), walk);
    }
    Ok(())
}
