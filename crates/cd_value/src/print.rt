//! Printed numbers.
ghost use Rattle.cd_value.specs.Print.{digit, millionths_text, rate_text, six_digits};
ghost use Rattle.cd_value.specs.Rates.{is_known};
ghost use Rattle.std.specs.Prelude.{IfOk, OnOk, [], codes, false, string_bytes, ◌++◌, ◌∷◌, ◌≡◌};

use crate::{MILLIONTHS, Memory, Rate, Text};
use std::alloc::{AllocError, Global};

/// A number of millionths as its whole units, a dot and six decimals, with `-` only where it is
/// below zero.
pub fn print_millionths(alloc: Global, value: i128) -> Result<Text, Memory>
    ensures { IfOk result (λ text. text ≡ millionths_text value) }
{
    let size = value.unsigned_abs();
    let units = size / MILLIONTHS;
    let mut text = if value < 0 {
        format!(in alloc; "-{units}.")?
    } else {
        format!(in alloc; "{units}.")?
    };
    push_six_digits(&mut text, size % MILLIONTHS)?;
    Ok(Text::from_string(text))
}

impl Rate {
    /// The millionths of the rate, cut toward zero, as `print_millionths` prints them, or `NaN`
    /// where it is unknown.
    pub fn print(&self, alloc: Global) -> Result<Text, Memory>
        ensures value { IfOk result (λ text. text ≡ rate_text self.now) }
        ensures unknown { is_known self.now ≡ false → IfOk result (λ text. text ≡ codes "NaN") }
    {
        match self.millionths() {
            Some(value) => print_millionths(alloc, value),
            None => Text::of(alloc, "NaN"),
        }
    }
}

fn push_six_digits(text: &mut String, n: u128) -> Result<(), AllocError>
    ensures { OnOk result (string_bytes text.new ≡ string_bytes text.old ++ six_digits n) }
{
    push_digit(text, n / 100_000)?;
    push_digit(text, n / 10_000)?;
    push_digit(text, n / 1_000)?;
    push_digit(text, n / 100)?;
    push_digit(text, n / 10)?;
    push_digit(text, n)
}

fn push_digit(text: &mut String, n: u128) -> Result<(), AllocError>
    ensures { OnOk result (string_bytes text.new ≡ string_bytes text.old ++ digit n ∷ []) }
{
    text.push((b'0' + (n % 10) as u8) as char)
}
