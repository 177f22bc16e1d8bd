//! Cases worked by hand from the rules.
use crate::Telling;
use cd_registry::{Answer, Call, Plug};
use cd_value::{Identifier, Notification, Sequence, Severity, Text, Value, ValueList};
use std::alloc::Global;
use std::process::Abort;
use std::test::Fail;

/// A plug-in enters a call, whatever its type.
fn enter<P: Plug>(plug: &mut P, call: &Call) -> Answer {
    plug.enter(call)
}

fn list(alloc: Global) -> Result<ValueList, Fail> {
    let mut values = Sequence::new(alloc);
    values.push(Value::Derive(5))?;
    Ok(ValueList {
        id: Identifier::read(alloc, "h/p/derive")?,
        time: 1,
        interval: 2,
        values,
    })
}

fn note(alloc: Global) -> Result<Notification, Fail> {
    Ok(Notification {
        severity: Severity::Okay,
        time: 3,
        host: Text::of(alloc, "h")?,
        plugin: Text::new(alloc),
        plugin_instance: Text::new(alloc),
        type_name: Text::new(alloc),
        type_instance: Text::new(alloc),
        message: Text::of(alloc, "well")?,
    })
}

/// The call that is entered at a place.
fn call_at(place: usize, alloc: Global) -> Result<Call, Fail> {
    match place {
        0 => Ok(Call::Configure(Text::of(alloc, "a 1\n")?)),
        1 => Ok(Call::Write(list(alloc)?)),
        2 => Ok(Call::Flush {
            number: 4,
            timeout: Some(5),
            name: Some(Text::of(alloc, "h/p/derive")?),
        }),
        3 => Ok(Call::Missing(list(alloc)?)),
        _ => Ok(Call::Notify(note(alloc)?)),
    }
}

/// Whether a call is the one that was entered at a place.
fn is_the_call(place: usize, call: &Call) -> bool {
    match call {
        Call::Configure(text) => place == 0 && text.as_str() == "a 1\n",
        Call::Write(list) => place == 1 && list.values.len() == 1 && list.time == 1,
        Call::Flush {
            number,
            timeout,
            name,
        } => place == 2 && *number == 4 && *timeout == Some(5) && name.is_some(),
        Call::Missing(list) => place == 3 && list.interval == 2,
        Call::Notify(note) => place == 4 && note.message.as_str() == "well",
    }
}

#[test]
fn keeps_calls_in_order(rt: HostRuntime) -> Result<(), Fail> {
    let alloc = rt.alloc();
    let mut plug = Telling::new(alloc, 7, [Answer::Done, Answer::Failed].to_vec(alloc)?);
    for place in 0..5 {
        let want = if place == 1 {
            Answer::Failed
        } else {
            Answer::Done
        };
        assert_eq!(rt;
            enter(&mut plug, &call_at(place, alloc)?),
            want,
            "at {place}"
        );
    }
    tells_five(&rt, &plug)
}

fn tells_five(rt: &impl Abort, plug: &Telling) -> Result<(), Fail> {
    let calls = plug.calls().ok_or("no calls")?;
    assert_eq!(rt; calls.len(), 5);
    for (place, answered) in calls.iter().enumerate() {
        let want = if place == 1 {
            Answer::Failed
        } else {
            Answer::Done
        };
        assert_eq!(rt; answered.answer, want, "at {place}");
        assert!(rt; is_the_call(place, &answered.call), "at {place}");
    }
    Ok(())
}

#[test]
fn stops_telling(rt: HostRuntime) -> Result<(), Fail> {
    let alloc = rt.alloc();
    let answers = [Answer::Memory].to_vec(alloc)?;
    let mut plug = Telling::new(alloc, 7, answers);
    let call = Call::Configure(Text::new(alloc));
    assert_eq!(rt; enter(&mut plug, &call), Answer::Memory);
    assert!(rt; plug.calls().is_none());
    assert_eq!(rt; enter(&mut plug, &call), Answer::Done);
    assert!(rt; plug.calls().is_none());
    Ok(())
}
