//! Cases worked by hand from the rules.
use crate::print_readable;
use cd_text::{NumFault, read_millionths};
use std::test::Fail;

/// 10^24 in millionths.
const MOST: i128 = 1_000_000_000_000_000_000_000_000_000_000;

#[test]
fn reads_printed_numbers(rt: HostRuntime) -> Result<(), Fail> {
    for (value, text, want) in [
        (1_260_000, "1.260000", Ok(1_260_000)),
        (-1, "-0.000001", Ok(-1)),
        (0, "0.000000", Ok(0)),
        (MOST, "1000000000000000000000000.000000", Ok(MOST)),
        (
            -MOST - 1,
            "-1000000000000000000000000.000001",
            Err(NumFault::OutOfRange),
        ),
        (
            i128::MAX,
            "170141183460469231731687303715884.105727",
            Err(NumFault::OutOfRange),
        ),
    ] {
        let printed = print_readable(rt.alloc(), value)?;
        assert_eq!(rt; printed.as_str(), text);
        assert_eq!(rt; read_millionths(printed.as_str()), want, "at {text}");
    }
    Ok(())
}
