//! Matches over a list of two sources, with verdicts worked by hand.
use crate::{BadPattern, Match, Patterns, RegexMatch, ValueMatch, all_hold};
use cd_pattern::Field;
use cd_value::{
    DataSet, DataSource, DsType, Identifier, Memory, Names, Rate, Rates, Sequence, Text, Value,
    ValueList,
};
use std::alloc::Global;
use std::test::Fail;

/// A set of a counter and a gauge.
fn link(alloc: Global) -> Result<DataSet, Memory> {
    let mut sources = Sequence::new(alloc);
    for (name, kind) in [("rx", DsType::Counter), ("level", DsType::Gauge)] {
        let name = Text::of(alloc, name)?;
        let (min, max) = (None, None);
        sources.push(DataSource {
            name,
            kind,
            min,
            max,
        })?;
    }
    let name = Text::of(alloc, "link")?;
    Ok(DataSet { name, sources })
}

fn list_of(alloc: Global, count: u64) -> Result<ValueList, Fail> {
    let id = Identifier::read(alloc, "h/mysql/link-show_x")?;
    let mut values = Sequence::new(alloc);
    values.push(Value::Counter(count))?;
    values.push(Value::Gauge(None))?;
    Ok(ValueList {
        id,
        time: 100,
        interval: 10,
        values,
    })
}

/// Patterns for the plugin and for the type instance.
fn patterns_of(alloc: Global, plugin: &str, instance: &str) -> Result<Patterns, Memory> {
    let mut patterns = Patterns::new(alloc);
    patterns.push((Field::Plugin, Text::of(alloc, plugin)?))?;
    patterns.push((Field::TypeInstance, Text::of(alloc, instance)?))?;
    Ok(patterns)
}

/// Whether a match holds at the moment 90 of a list of time 100, with a count and the rates 4.5 millionths and unknown.
fn holds(alloc: Global, test: Match, count: u64) -> Result<bool, Fail> {
    let set = link(alloc)?;
    let mut rates = Rates::new(alloc);
    rates.push(Rate::Known { num: 9, den: 2 })?;
    rates.push(Rate::Unknown)?;
    let list = list_of(alloc, count)?;
    let mut matches = Vec::new(alloc);
    matches.push(test)?;
    Ok(all_hold(alloc, matches.as_mut_slice(), &list, &set, Some(&rates), 90)?)
}

#[test]
fn regex_verdicts(rt: HostRuntime) -> Result<(), Fail> {
    let alloc = rt.alloc();
    for (plugin, instance, invert, want) in [
        ("^mysql$", "^show_", false, true),
        ("^mysql$", "^show_", true, false),
        ("^mysql$", "^x", false, false),
        ("^mysql$", "^x", true, true),
    ] {
        let Ok(test) = RegexMatch::new(alloc, patterns_of(alloc, plugin, instance)?, invert) else {
            return Err(Fail::new("no patterns"));
        };
        assert_eq!(rt; holds(alloc, Match::Regex(test), 0)?, want, "at {instance}");
    }
    Ok(())
}

#[test]
fn first_bad_pattern(rt: HostRuntime) -> Result<(), Fail> {
    let alloc = rt.alloc();
    for (plugin, instance, number) in [("(", "(", 0), ("a", "(", 1)] {
        let Err(refused) = RegexMatch::new(alloc, patterns_of(alloc, plugin, instance)?, false)
        else {
            return Err(Fail::new("patterns"));
        };
        assert_eq!(rt; refused.why, BadPattern::At(number));
        assert_eq!(rt; refused.value.len(), 2);
    }
    Ok(())
}

#[test]
fn value_verdicts(rt: HostRuntime) -> Result<(), Fail> {
    let alloc = rt.alloc();
    for (min, max, invert, name, any, want) in [
        (4, 5, false, "rx", false, true),
        (4, 5, true, "rx", false, false),
        (5, 9, true, "rx", false, true),
        (4, 5, false, "", false, false),
        (4, 5, false, "", true, true),
        (4, 5, true, "level", false, false),
        (4, 5, false, "tx", true, false),
    ] {
        let mut sources = Names::new(alloc);
        if name != "" {
            sources.push(Text::of(alloc, name)?)?;
        }
        let (min, max) = (Some(min), Some(max));
        let test = Match::Value(ValueMatch {
            min,
            max,
            invert,
            sources,
            any,
        });
        assert_eq!(rt; holds(alloc, test, 0)?, want);
    }
    Ok(())
}

#[test]
fn time_and_counter_verdicts(rt: HostRuntime) -> Result<(), Fail> {
    let alloc = rt.alloc();
    for (future, past, want) in [
        (10, 0, true),
        (11, 0, false),
        (0, 1, false),
        (u64::MAX, 0, false),
    ] {
        assert_eq!(rt;
            holds(alloc, Match::TimeDiff { future, past }, 0)?,
            want,
            "at {future}"
        );
    }
    for (count, want) in [(0, true), (1, false)] {
        assert_eq!(rt;
            holds(alloc, Match::EmptyCounter, count)?,
            want,
            "at {count}"
        );
    }
    Ok(())
}
