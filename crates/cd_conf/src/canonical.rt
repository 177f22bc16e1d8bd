//! The canonical text of items.
ghost use Rattle.cd_conf.specs.Canonical.{decimals, deeper, end_text, fraction_text, head_text, item_text, items_text, number_text, option_text, spaced, start_text, value_text};
ghost use Rattle.cd_conf.specs.Parts.{args_of, key_of};
ghost use Rattle.cd_value.specs.Print.{digit};
ghost use Rattle.std.specs.List.{flat_map};
ghost use Rattle.std.specs.Prelude.{IfOk, OnOk, [], string_bytes, ◌++◌, ◌<◌, ◌^◌, ◌∷◌, ◌≡◌, ◌≤◌};

use crate::item::{Arg, Item, Items};
use crate::limits::DECIMALS_LIMIT;
use cd_text::quoted;
use cd_value::{MILLIONTHS, Memory, Text};
use std::alloc::{AllocError, Global};

fn push_digit(text: &mut String, n: u128) -> Result<(), AllocError>
    ensures { OnOk result (string_bytes text.new ≡ string_bytes text.old ++ digit n ∷ []) }
{
    text.push((b'0' + (n % 10) as u8) as char)
}

/// Puts so many decimals of a number behind, which is given in units of the last; no zero at the
/// end.
fn push_decimals(text: &mut String, places: usize, n: u128) -> Result<(), AllocError>
    requires { places ≤ DECIMALS_LIMIT }
    ensures { OnOk result (string_bytes text.new ≡ string_bytes text.old ++ decimals places n) }
{
    let mut left = places;
    let mut rest = n;
    while left > 0 && rest > 0 {
        left -= 1;
        let unit = 10u128.pow(left as u32);
        push_digit(text, rest / unit)?;
        rest %= unit;
    }
    Ok(())
}

/// Puts a dot and decimals behind, where they aren't 0.
fn push_fraction(text: &mut String, n: u128) -> Result<(), AllocError>
    ensures { OnOk result (string_bytes text.new ≡ string_bytes text.old ++ fraction_text n) }
{
    if n == 0 {
        return Ok(());
    }
    text.push('.')?;
    push_decimals(text, DECIMALS_LIMIT, n)
}

/// A number of millionths as a decimal number without needless zeros.
fn print_number(alloc: Global, number: i128) -> Result<Text, Memory>
    ensures { IfOk result (λ text. text ≡ number_text number) }
{
    let size = number.unsigned_abs();
    let units = size / MILLIONTHS;
    let mut text = if number < 0 {
        format!(in alloc; "-{units}")?
    } else {
        format!(in alloc; "{units}")?
    };
    push_fraction(&mut text, size % MILLIONTHS)?;
    Ok(Text::from_string(text))
}

/// Puts a value behind.
fn push_value(alloc: Global, out: &mut Text, arg: &Arg) -> Result<(), Memory>
    ensures { OnOk result (out.new ≡ out.old ++ value_text arg.now) }
{
    match arg {
        Arg::Words(text) => {
            let text = quoted(alloc, text.as_str())?;
            out.push(text.as_str())
        }
        Arg::Number(number) => {
            let text = print_number(alloc, *number)?;
            out.push(text.as_str())
        }
        Arg::Flag(flag) => out.push(if *flag { "true" } else { "false" }),
    }
}

/// Puts values behind.
fn push_values(alloc: Global, out: &mut Text, args: &[Arg]) -> Result<(), Memory>
    ensures { OnOk result (out.new ≡ out.old ++ flat_map spaced args.now) }
{
    for arg in args {
        out.push(" ")?;
        push_value(alloc, out, arg)?;
    }
    Ok(())
}

/// Puts a key and values behind.
fn push_head(alloc: Global, out: &mut Text, item: &Item) -> Result<(), Memory>
    ensures { OnOk result (out.new ≡ out.old ++ head_text (key_of item.now) (args_of item.now)) }
{
    out.push(item.key.as_str())?;
    push_values(alloc, out, item.args.as_slice())
}

/// Puts the line of an option behind.
fn push_option(alloc: Global, out: &mut Text, item: &Item, indent: &str) -> Result<(), Memory>
    ensures { let text = option_text indent.now (key_of item.now) (args_of item.now) in
        OnOk result (out.new ≡ out.old ++ text) }
{
    out.push(indent)?;
    push_head(alloc, out, item)?;
    out.push("\n")
}

/// Puts the line of a section's start behind.
fn push_start(alloc: Global, out: &mut Text, item: &Item, indent: &str) -> Result<(), Memory>
    ensures { let text = start_text indent.now (key_of item.now) (args_of item.now) in
        OnOk result (out.new ≡ out.old ++ text) }
{
    out.push(indent)?;
    out.push("<")?;
    push_head(alloc, out, item)?;
    out.push(">\n")
}

/// Puts the line of a section's end behind.
fn push_end(out: &mut Text, item: &Item, indent: &str) -> Result<(), Memory>
    ensures { OnOk result (out.new ≡ out.old ++ end_text indent.now (key_of item.now)) }
{
    out.push(indent)?;
    out.push("</")?;
    out.push(item.key.as_str())?;
    out.push(">\n")
}

/// Two spaces more.
fn deeper(alloc: Global, indent: &str) -> Result<Text, Memory>
    ensures { IfOk result (λ text. text ≡ deeper indent.now) }
{
    let mut text = Text::of(alloc, indent)?;
    text.push("  ")?;
    Ok(text)
}

/// Puts an item behind.
fn push_item(alloc: Global, out: &mut Text, item: &Item, indent: &str) -> Result<(), Memory>
    ensures { OnOk result (out.new ≡ out.old ++ item_text item.now indent.now) }
{
    if !item.section {
        return push_option(alloc, out, item, indent);
    }
    push_start(alloc, out, item, indent)?;
    let inner = deeper(alloc, indent)?;
    for child in item.children.as_slice() {
        push_item(alloc, out, child, inner.as_str())?;
    }
    push_end(out, item, indent)
}

/// The canonical text of items: a line for each option, section start and section end, with two
/// spaces a level. Keys stand as they were written, texts in quotes with a backslash before `"` and
/// `\`, numbers in decimal without needless zeros, flags as `true` and `false`.
pub fn print(alloc: Global, items: &Items) -> Result<Text, Memory>
    ensures { IfOk result (λ text. text ≡ items_text items.now) }
{
    let mut out = Text::new(alloc);
    for item in items.as_slice() {
        push_item(alloc, &mut out, item, "")?;
    }
    Ok(out)
}
