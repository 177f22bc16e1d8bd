//! Patterns against places that were worked by hand, texts that are none, and a pattern that threads share.
use crate::seen::{note, recall};
use crate::{Field, Pattern, PatternFault};
use cd_value::{Identifier, Text};
use std::test::Fail;
use std::thread;

#[test]
fn first_places(rt: HostRuntime) -> Result<(), Fail> {
    let alloc = rt.alloc();
    for (pattern, text, place) in [
        ("^mysql$", "mysql", Some((0, 5))),
        ("^mysql$", "mysqld", None),
        ("b+", "abbcb", Some((1, 3))),
        ("(foo|bar)[0-9]*", "a bar12", Some((2, 7))),
        ("é", "café", Some((3, 5))),
        ("", "a", Some((0, 0))),
        ("x|y", "", None),
    ] {
        let Ok(mut pattern) = Pattern::new(alloc, Text::of(alloc, pattern)?) else {
            return Err(Fail::new("no pattern"));
        };
        assert_eq!(rt; pattern.first(alloc, text)?, place, "of {text}");
        // The second time the answer is known.
        for _ in 0..2 {
            assert_eq!(rt;
                pattern.is_found(alloc, text)?,
                place.is_some(),
                "of {text}"
            );
        }
    }
    Ok(())
}

#[test]
fn noted_answers(rt: HostRuntime) -> Result<(), Fail> {
    let alloc = rt.alloc();
    let mut slots = Vec::new(alloc);
    for (text, is_found) in [("mysql", true), ("", false), ("mysql", false)] {
        note(&mut slots, alloc, text, is_found)?;
        assert_eq!(rt; recall(slots.as_slice(), text), Some(is_found));
    }
    for text in ["mysqld", "lqsym"] {
        assert_eq!(rt; recall(slots.as_slice(), text), None);
    }
    Ok(())
}

#[test]
fn no_patterns(rt: HostRuntime) -> Result<(), Fail> {
    let alloc = rt.alloc();
    for text in ["(", "a)", "*", "[a", "a{1000}{1000}{1000}"] {
        let Err(refused) = Pattern::new(alloc, Text::of(alloc, text)?) else {
            return Err(Fail::new("a pattern"));
        };
        assert_eq!(rt; refused.why, PatternFault::BadPattern, "at {text}");
        assert_eq!(rt; refused.value.as_str(), text);
    }
    Ok(())
}

#[test]
fn fields_by_name(rt: HostRuntime) -> Result<(), Fail> {
    let id = Identifier::read(rt.alloc(), "h/p-pi/t-ti")?;
    for (field, text) in [
        (Field::Host, "h"),
        (Field::Plugin, "p"),
        (Field::PluginInstance, "pi"),
        (Field::TypeName, "t"),
        (Field::TypeInstance, "ti"),
    ] {
        assert_eq!(rt; field.of(&id).as_str(), text);
    }
    Ok(())
}

#[test]
fn threads_share_a_pattern(rt: HostRuntime) -> Result<(), Fail> {
    let alloc = rt.alloc();
    let pattern = Pattern::of(alloc, "^a")?;
    let shared = &pattern;
    let found = thread::join(
        &rt,
        || shared.first(alloc, "ab"),
        || shared.first(alloc, "ba"),
    );
    assert_eq!(rt; found, (Ok(Some((0, 1))), Ok(None)));
    Ok(())
}
