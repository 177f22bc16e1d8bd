//! The printed form of data sets.
ghost use Rattle.cd_types.specs.Printed.{bound_text, decimals, fraction_text, kind_text, next_text, number_text, set_text, sets_text, source_text, sources_text};
ghost use Rattle.cd_value.specs.Print.{digit};
ghost use Rattle.std.specs.List.{flat_map};
ghost use Rattle.std.specs.Prelude.{IfOk, OnOk, [], string_bytes, ◌++◌, ◌<◌, ◌^◌, ◌∷◌, ◌≡◌, ◌≤◌};

use crate::limits::DECIMALS;
use crate::types_db::TypesDb;
use cd_value::{DataSet, DataSource, DsType, MILLIONTHS, Memory, Text};
use std::alloc::{AllocError, Global};

fn push_digit(text: &mut String, n: u128) -> Result<(), AllocError>
    ensures { OnOk result (string_bytes text.new ≡ string_bytes text.old ++ digit n ∷ []) }
{
    text.push((b'0' + (n % 10) as u8) as char)
}

/// Puts so many decimals of a number behind, which is given in units of the last; no zero at the
/// end.
fn push_decimals(text: &mut String, places: usize, n: u128) -> Result<(), AllocError>
    requires { places ≤ DECIMALS }
    ensures { OnOk result (string_bytes text.new ≡ string_bytes text.old ++ decimals places n) }
{
    let mut left = places;
    let mut rest = n;
    while left > 0 && rest > 0 {
        left -= 1;
        let unit = 10u128.pow(left as u32);
        push_digit(text, rest / unit)?;
        rest %= unit;
    }
    Ok(())
}

/// Puts a dot and decimals behind, where they aren't 0.
fn push_fraction(text: &mut String, n: u128) -> Result<(), AllocError>
    ensures { OnOk result (string_bytes text.new ≡ string_bytes text.old ++ fraction_text n) }
{
    if n == 0 {
        return Ok(());
    }
    text.push('.')?;
    push_decimals(text, DECIMALS, n)
}

/// A number of millionths as a decimal number without needless zeros.
fn print_number(alloc: Global, number: i128) -> Result<Text, Memory>
    ensures { IfOk result (λ text. text ≡ number_text number) }
{
    let size = number.unsigned_abs();
    let units = size / MILLIONTHS;
    let mut text = if number < 0 {
        format!(in alloc; "-{units}")?
    } else {
        format!(in alloc; "{units}")?
    };
    push_fraction(&mut text, size % MILLIONTHS)?;
    Ok(Text::from_string(text))
}

/// Puts a bound behind; `U` for none.
fn push_bound(alloc: Global, out: &mut Text, bound: Option<i128>) -> Result<(), Memory>
    ensures { OnOk result (out.new ≡ out.old ++ bound_text bound) }
{
    match bound {
        None => out.push("U"),
        Some(number) => {
            let text = print_number(alloc, number)?;
            out.push(text.as_str())
        }
    }
}

/// Puts a kind behind.
fn push_kind(out: &mut Text, kind: DsType) -> Result<(), Memory>
    ensures { OnOk result (out.new ≡ out.old ++ kind_text kind) }
{
    match kind {
        DsType::Absolute => out.push("ABSOLUTE"),
        DsType::Counter => out.push("COUNTER"),
        DsType::Derive => out.push("DERIVE"),
        DsType::Gauge => out.push("GAUGE"),
    }
}

/// Puts an entry behind.
fn push_source(alloc: Global, out: &mut Text, source: &DataSource) -> Result<(), Memory>
    ensures { OnOk result (out.new ≡ out.old ++ source_text source.now) }
{
    out.push(source.name.as_str())?;
    out.push(":")?;
    push_kind(out, source.kind)?;
    out.push(":")?;
    push_bound(alloc, out, source.min)?;
    out.push(":")?;
    push_bound(alloc, out, source.max)
}

/// Puts entries behind another, each with a comma and a space in front.
fn push_next(alloc: Global, out: &mut Text, sources: &[DataSource]) -> Result<(), Memory>
    ensures { OnOk result (out.new ≡ out.old ++ flat_map next_text sources.now) }
{
    for source in sources {
        out.push(", ")?;
        push_source(alloc, out, source)?;
    }
    Ok(())
}

/// Puts entries behind.
fn push_sources(alloc: Global, out: &mut Text, sources: &[DataSource]) -> Result<(), Memory>
    ensures { OnOk result (out.new ≡ out.old ++ sources_text sources.now) }
{
    let [first, next @ ..] = sources else {
        return Ok(());
    };
    push_source(alloc, out, first)?;
    push_next(alloc, out, next)
}

/// Puts the line of a set behind.
fn push_set(alloc: Global, out: &mut Text, set: &DataSet) -> Result<(), Memory>
    ensures { OnOk result (out.new ≡ out.old ++ set_text set.now) }
{
    out.push(set.name.as_str())?;
    out.push(" ")?;
    push_sources(alloc, out, set.sources.as_slice())?;
    out.push("\n")
}

impl TypesDb {
    /// The text of the sets as types.db(5) has it, a line a set in the order of the names: the name, a
    /// space, and the entries with a comma and a space between them, the kinds in capitals, the
    /// bounds as `U` or in decimal without needless zeros.
    pub fn print(&self, alloc: Global) -> Result<Text, Memory>
        ensures { IfOk result (λ text. text ≡ sets_text self.now) }
    {
        let mut out = Text::new(alloc);
        for set in self.sets.values() {
            push_set(alloc, &mut out, set)?;
        }
        Ok(out)
    }
}
