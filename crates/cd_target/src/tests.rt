//! Texts and lists worked by hand from the rules.
use crate::{Replaces, Replacing, Sets, Target, message, rewrite, rewrite_in_place};
use cd_pattern::{Field, PatternFault};
use cd_value::{Identifier, Memory, Names, Sequence, Severity, Text, Value, ValueList};
use std::alloc::Global;
use std::test::Fail;

fn list_of(alloc: Global, name: &str) -> Result<ValueList, Fail> {
    let id = Identifier::read(alloc, name)?;
    let mut values = Sequence::new(alloc);
    values.push(Value::Gauge(None))?;
    Ok(ValueList {
        id,
        time: 5,
        interval: 10,
        values,
    })
}

/// The name of the list after a target.
fn name_after(alloc: Global, target: &mut Target, name: &str) -> Result<Text, Fail> {
    let list = list_of(alloc, name)?;
    let new = rewrite(alloc, target, &list)?;
    Ok(new.id.name(alloc)?)
}

/// A target "set" of two options; one on the type does nothing.
fn set_of(alloc: Global, first: (Field, &str), second: (Field, &str)) -> Result<Target, Memory> {
    let mut options = Sets::new(alloc);
    options.push((first.0, Text::of(alloc, first.1)?))?;
    options.push((second.0, Text::of(alloc, second.1)?))?;
    Ok(Target::Set(options))
}

fn replacing_of(alloc: Global, field: Field, pattern: &str, with: &str) -> Result<Replacing, Fail> {
    let pattern = Text::of(alloc, pattern)?;
    let with = Text::of(alloc, with)?;
    match Replacing::new(alloc, field, pattern, with) {
        Ok(option) => Ok(option),
        Err(_) => Err(Memory.into()),
    }
}

#[test]
fn messages_are_filled(rt: HostRuntime) -> Result<(), Fail> {
    let alloc = rt.alloc();
    let list = list_of(alloc, "h/p-1/t-x%")?;
    for (text, want) in [
        ("%{host} late", "h late"),
        (
            "%{plugin}-%{plugin_instance}/%{type}-%{type_instance}",
            "p-1/t-x%",
        ),
        ("%{type_instance}{host}", "x%{host}"),
        ("%{x%{host}", "%{xh"),
        ("%%{host}}", "%h}"),
        (
            "%{value} %{host %{Host} %{} %",
            "%{value} %{host %{Host} %{} %",
        ),
        ("{host}", "{host}"),
        ("", ""),
    ] {
        let text = Text::of(alloc, text)?;
        let got = message(alloc, &text, &list)?;
        assert_eq!(rt; got.as_str(), want, "at {}", text.as_str());
    }
    Ok(())
}

#[test]
fn messages_are_cut(rt: HostRuntime) -> Result<(), Fail> {
    let alloc = rt.alloc();
    let list = list_of(alloc, "h/p/t")?;
    for (count, end, want) in [
        (253, "é", 255),
        (254, "é", 254),
        (255, "", 255),
        (254, "%{host}%{host}", 255),
        (300, "", 255),
    ] {
        let mut text = Text::new(alloc);
        for _ in 0..count {
            text.push("a")?;
        }
        text.push(end)?;
        let got = message(alloc, &text, &list)?;
        assert_eq!(rt; got.len(), want, "at {count} {end}");
    }
    Ok(())
}

#[test]
fn sets_fields(rt: HostRuntime) -> Result<(), Fail> {
    let alloc = rt.alloc();
    let type_name = (Field::TypeName, "u");
    for (first, second, want) in [
        ((Field::Host, "a/b"), type_name, "a_b/p-1/t-x"),
        ((Field::TypeInstance, "a/b"), type_name, "h/p-1/t-a/b"),
        ((Field::PluginInstance, "a\nb"), type_name, "h/p-a_b/t-x"),
        ((Field::PluginInstance, ""), (Field::Host, ""), "h/p/t-x"),
        (
            (Field::Host, "%{type}"),
            (Field::Plugin, "%{host}"),
            "t/h-1/t-x",
        ),
        ((Field::Host, "a"), (Field::Host, "b%{host}"), "bh/p-1/t-x"),
    ] {
        let mut target = set_of(alloc, first, second)?;
        let got = name_after(alloc, &mut target, "h/p-1/t-x")?;
        assert_eq!(rt; got.as_str(), want);
    }
    Ok(())
}

#[test]
fn replaces_matches(rt: HostRuntime) -> Result<(), Fail> {
    let alloc = rt.alloc();
    let none = (Field::TypeName, "t", "u");
    for (first, second, want) in [
        ((Field::Host, "\\.", "-"), none, "www-a.b/p-1/t-a/b"),
        (
            (Field::Host, "^w+", "%{plugin}"),
            none,
            "%{plugin}.a.b/p-1/t-a/b",
        ),
        (
            (Field::TypeInstance, "/", "-"),
            (Field::TypeInstance, "^a", "/"),
            "www.a.b/p-1/t-/-b",
        ),
        (
            (Field::Plugin, "p", "/"),
            (Field::Plugin, "/", "q"),
            "www.a.b/q-1/t-a/b",
        ),
        (
            (Field::Plugin, "p", ""),
            (Field::PluginInstance, "2", "3"),
            "www.a.b/p-1/t-a/b",
        ),
    ] {
        let mut options = Replaces::new(alloc);
        options.push(replacing_of(alloc, first.0, first.1, first.2)?)?;
        options.push(replacing_of(alloc, second.0, second.1, second.2)?)?;
        let mut target = Target::Replace(options);
        let got = name_after(alloc, &mut target, "www.a.b/p-1/t-a/b")?;
        assert_eq!(rt; got.as_str(), want);
    }
    Ok(())
}

#[test]
fn refuses_a_bad_pattern(rt: HostRuntime) -> Result<(), Fail> {
    let alloc = rt.alloc();
    let (pattern, with) = (Text::of(alloc, "(")?, Text::new(alloc));
    let refused = Replacing::new(alloc, Field::Host, pattern, with);
    let why = refused
        .err()
        .map(|refused| (refused.value.as_str() == "(", refused.why));
    assert_eq!(rt; why, Some((true, PatternFault::BadPattern)));
    Ok(())
}

#[test]
fn other_targets_change_nothing(rt: HostRuntime) -> Result<(), Fail> {
    let alloc = rt.alloc();
    let message = Text::of(alloc, "late")?;
    let severity = Severity::Warning;
    let others = [
        Target::Return,
        Target::Stop,
        Target::Jump(Text::of(alloc, "c")?),
        Target::Write(Names::new(alloc)),
        Target::Notification { message, severity },
    ];
    for target in &others {
        let mut list = list_of(alloc, "h/p-1/t-x")?;
        rewrite_in_place(alloc, target, &mut list.id)?;
        let name = list.id.name(alloc)?;
        assert_eq!(rt; name.as_str(), "h/p-1/t-x");
    }
    Ok(())
}
