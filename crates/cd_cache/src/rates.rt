//! The rates of a list against the list before it.
ghost use Rattle.cd_cache.specs.Rates.{first_rates, later_rates, rates_against};
ghost use Rattle.std.specs.Prelude.{IfOk, option_copied, ◌≡◌};

use crate::CacheEntry;
use cd_value::{DataSet, DataSource, Memory, Rate, Rates, Value, ValueList};
use std::alloc::{AllocError, Global};

/// The rates of a list against the one that is cached under its name.
pub fn rates_against(
    alloc: Global,
    set: &DataSet,
    before: Option<&CacheEntry>,
    list: &ValueList,
) -> Result<Rates, Memory>
    ensures { let expected = rates_against set.now (option_copied before.entry) list.now in
        IfOk result (λ rates. rates ≡ expected) }
{
    let sources = set.sources.as_slice();
    let values = list.values.as_slice();
    match before {
        Some(entry) => {
            let dt = list.time.saturating_sub(entry.list.time);
            let rates = later_rates(alloc, sources, entry.list.values.as_slice(), values, dt)?;
            Ok(Rates::from_vec(rates))
        }
        None => {
            let rates = first_rates(alloc, sources, values)?;
            Ok(Rates::from_vec(rates))
        }
    }
}

/// The rates of values that have none before them.
fn first_rates(
    alloc: Global,
    sources: &[DataSource],
    values: &[Value],
) -> Result<Vec<Rate>, AllocError>
    ensures { IfOk result (λ rates. rates.items ≡ first_rates sources.now values.now) }
{
    sources
        .iter()
        .zip(values)
        .map(|(source, value)| Rate::of(None, value, 0, source))
        .collect(alloc)
}

/// The rates of values against those that came `dt` (in 2^-30 s) earlier.
fn later_rates(
    alloc: Global,
    sources: &[DataSource],
    old: &[Value],
    new: &[Value],
    dt: u64,
) -> Result<Vec<Rate>, AllocError>
    ensures { IfOk result (λ rates. rates.items ≡ later_rates sources.now old.now new.now dt) }
{
    sources
        .iter()
        .zip(old.iter().zip(new))
        .map(|(source, (old, new))| Rate::of(Some(old), new, dt, source))
        .collect(alloc)
}
