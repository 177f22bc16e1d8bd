//! Printed numbers are read again.
ghost use Rattle.cd_laws.specs.ReadBack.{read_back};
ghost use Rattle.cd_text.specs.Number.{number_of};
ghost use Rattle.cd_value.specs.Print.{millionths_text};
ghost use Rattle.std.specs.Prelude.{IfOk, ◌≡◌};

use cd_value::{Memory, Text, print_millionths};
use std::alloc::Global;

/// A number of millionths as `print_millionths` prints it. `read_millionths` reads that text as the
/// number again, up to `NUMBER_LIMIT` in magnitude, and as out of range beyond.
pub fn print_readable(alloc: Global, value: i128) -> Result<Text, Memory>
    ensures value { IfOk result (λ text. text ≡ millionths_text value) }
    ensures reads { IfOk result (λ text. number_of text ≡ read_back value) }
{
    print_millionths(alloc, value)
}
