//! One cache, worked by hand.
use crate::Cache;
use cd_value::{
    DataSet, DataSource, DsType, Identifier, Memory, RateView, SECOND, Sequence, Text, Value,
    ValueList,
};
use std::alloc::Global;
use std::test::Fail;

/// The set of one source that counts up.
fn derive_set(alloc: Global) -> Result<DataSet, Memory> {
    let mut sources = Sequence::new(alloc);
    sources.push(DataSource {
        name: Text::of(alloc, "value")?,
        kind: DsType::Derive,
        min: None,
        max: None,
    })?;
    Ok(DataSet {
        name: Text::of(alloc, "derive")?,
        sources,
    })
}

/// A list of one value at a second, with an interval of 10 s.
fn list_of(alloc: Global, name: &str, seconds: u32, value: i64) -> Result<ValueList, Memory> {
    let Ok(id) = Identifier::read(alloc, name) else {
        return Err(Memory);
    };
    let mut values = Sequence::new(alloc);
    values.push(Value::Derive(value))?;
    Ok(ValueList {
        id,
        time: u64::from(seconds) * SECOND,
        interval: 10 * SECOND,
        values,
    })
}

/// The first rate under a name.
fn shown_rate(alloc: Global, cache: &Cache, name: &Text) -> Result<Text, Memory> {
    match cache.rates(name).and_then(|rates| rates.as_slice().first()) {
        Some(rate) => rate.print(alloc),
        None => Text::of(alloc, "none"),
    }
}

/// What became of a list that came at its time, and the rate under its name then.
fn put(
    alloc: Global,
    cache: &mut Cache,
    name: &str,
    seconds: u32,
    value: i64,
) -> Result<String, Memory> {
    let list = list_of(alloc, name, seconds, value)?;
    let how = cache.update(alloc, &list, &derive_set(alloc)?, list.time)?;
    let rate = shown_rate(alloc, cache, &Text::of(alloc, name)?)?;
    Ok(format!(in alloc; "{how:?} {}", rate.as_str())?)
}

/// The names that are lost at a second, and then the seconds and names of all entries.
fn shown(alloc: Global, cache: &Cache, seconds: u32) -> Result<String, Memory> {
    let mut text = String::new(alloc);
    for name in cache.lost(alloc, u64::from(seconds) * SECOND)?.as_slice() {
        write!(text, "{};", name.as_str())?;
    }
    for row in cache.rows(alloc)?.as_slice() {
        write!(text, "{} {};", row.0 / SECOND, row.1.as_str())?;
    }
    Ok(text)
}

#[test]
fn keeps_the_last_list_of_each_name(rt: HostRuntime) -> Result<(), Fail> {
    let alloc = rt.alloc();
    let mut cache = Cache::new(alloc, 2);
    for (name, seconds, value, want) in [
        ("h/p/derive", 10, 100, "Stored NaN"),
        ("h/a/derive", 10, 5, "Stored NaN"),
        ("h/p/derive", 20, 130, "Stored 3.000000"),
        ("h/p/derive", 20, 140, "Old 3.000000"),
    ] {
        assert_eq!(rt;
            put(alloc, &mut cache, name, seconds, value)?.as_str(),
            want
        );
    }
    assert_eq!(rt;
        shown(alloc, &cache, 29)?.as_str(),
        "10 h/a/derive;20 h/p/derive;"
    );
    assert_eq!(rt;
        shown(alloc, &cache, 30)?.as_str(),
        "h/a/derive;10 h/a/derive;20 h/p/derive;"
    );
    cache.remove(&Text::of(alloc, "h/a/derive")?);
    assert_eq!(rt;
        shown(alloc, &cache, 40)?.as_str(),
        "h/p/derive;20 h/p/derive;"
    );
    Ok(())
}
