//! Which value lists fit a data set.
ghost use Rattle.cd_types.specs.Types.{fits_set, fits_source, is_in_range, is_same_kind, kind_of};
ghost use Rattle.std.specs.List.{list_all, zip};
ghost use Rattle.std.specs.Prelude.{length, ◌==◌, ◌≡◌};
ghost use Rattle.std.specs.Str.{bytes_eq};

use cd_value::{DataSet, DataSource, DsType, NUMBER_LIMIT, Value, ValueList};

/// The kind of a value.
fn kind_of(value: &Value) -> DsType
    ensures { result ≡ kind_of value.now }
{
    match value {
        Value::Counter(_) => DsType::Counter,
        Value::Gauge(_) => DsType::Gauge,
        Value::Derive(_) => DsType::Derive,
        Value::Absolute(_) => DsType::Absolute,
    }
}

/// Whether the value is no known gauge of more than `NUMBER_LIMIT` in magnitude.
fn is_in_range(value: &Value) -> bool
    ensures { result ≡ is_in_range value.now }
{
    match value {
        Value::Gauge(Some(level)) => level.unsigned_abs() <= NUMBER_LIMIT,
        _ => true,
    }
}

/// Whether two kinds are the same.
fn is_same_kind(one: DsType, other: DsType) -> bool
    ensures { result ≡ is_same_kind one other }
{
    one == other
}

/// Whether the value has the source's kind and, as a gauge, isn't too large.
fn fits_source(source: &DataSource, value: &Value) -> bool
    ensures { result ≡ fits_source source.now value.now }
{
    is_same_kind(source.kind, kind_of(value)) && is_in_range(value)
}

/// Whether the list has the set's name as its type.
fn is_of_type(set: &DataSet, list: &ValueList) -> bool
    ensures { result ≡ bytes_eq set.now.name list.now.id.type_name }
{
    set.name == list.id.type_name
}

/// Whether there is one value for each source.
fn is_complete(set: &DataSet, list: &ValueList) -> bool
    ensures { result ≡ (length set.now.sources == length list.now.values) }
{
    set.sources.len() == list.values.len()
}

/// Whether each value fits the source beside it.
fn values_fit(set: &DataSet, list: &ValueList) -> bool
    ensures { let pairs = zip set.now.sources list.now.values in
        result ≡ list_all (λ pair. fits_source pair.0 pair.1) pairs }
{
    set.sources
        .as_slice()
        .iter()
        .zip(list.values.as_slice())
        .all(|(source, value)| fits_source(source, value))
}

/// Whether the list has the set's name as its type, and a value of its kind for each source.
#[tactic(auto, unfolding(crate::specs::Types::fits_set))]
pub(crate) fn fits_set(set: &DataSet, list: &ValueList) -> bool
    ensures { result ≡ fits_set set.now list.now }
{
    is_of_type(set, list) && is_complete(set, list) && values_fit(set, list)
}
