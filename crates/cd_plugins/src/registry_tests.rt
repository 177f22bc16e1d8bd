//! The registry as the daemon uses it: cases worked by hand, at plain plug-ins and at boxes.
ghost use Rattle.cd_registry.specs.Registry.{rows};
ghost use Rattle.cd_registry.specs.Rows.{At, IsPlugOut, IsProbeOut};
ghost use Rattle.std.specs.Prelude.{IfSome, [], ◌≡◌};

use crate::Telling;
use cd_registry::{
    AddFault, Answer, Call, Kinds, LeaseOf, MemberOf, NotRegistered, Plug, Probe, Reading,
    Registry, RetireFault, TellsReadings,
};
use cd_value::Text;
use std::alloc::Global;
use std::process::Abort;
use std::test::Fail;

/// A reader that tells no readings.
#[derive(Drop)]
struct Silent;

impl TellsReadings for Silent {
    ghost use Rattle.std.specs.Prelude.{None};

    ghost probe_tells = { λ probe. record { mark = 0; faults = 0; readings = None } };
}

impl Probe for Silent {
    fn read(&mut self, _now: u64) -> Reading {
        Reading::Memory
    }
}

fn add<P: Plug, Q: Probe>(
    alloc: Global,
    registry: &mut Registry<P, Q>,
    name: &str,
    kinds: Kinds,
    member: MemberOf<P, Q>,
) -> Result<u64, AddFault> {
    let Ok(name) = Text::of(alloc, name) else {
        return Err(AddFault::Memory);
    };
    registry
        .add(alloc, name, kinds, member)
        .map_err(|refused| refused.why)
}

/// Posts a call to the live writer of a name.
fn post<P: Plug, Q: Probe>(registry: &mut Registry<P, Q>, name: &Text, call: Call) -> Option<u64> {
    let reg = registry.find(name, Kinds::WRITE)?;
    if !registry.is_named(reg, name, Kinds::WRITE) {
        return None;
    }
    registry.reserve(reg, 2).ok()?;
    registry.post(reg, call).ok()?;
    Some(reg)
}

/// Takes the next call, closes a name and asks for the object meanwhile, and brings the object home entered.
fn lease<P: Plug, Q: Probe>(
    registry: &mut Registry<P, Q>,
    name: &Text,
    actor: u64,
) -> Option<Leased> {
    let reg = registry.ready()?;
    let lease = registry.take(reg, actor);
    let (closed, early) = close_meanwhile(registry, name, reg);
    registry.give(lease.enter());
    Some(Leased { reg, closed, early })
}

/// Whose call was taken, and what was answered meanwhile.
struct Leased {
    reg: u64,
    closed: Result<u64, NotRegistered>,
    early: Option<RetireFault>,
}

fn close_meanwhile<P: Plug, Q: Probe>(
    registry: &mut Registry<P, Q>,
    name: &Text,
    reg: u64,
) -> (Result<u64, NotRegistered>, Option<RetireFault>)
    requires { At (rows P.plug_tells Q.probe_tells registry.old) reg IsPlugOut }
    ensures { At (rows P.plug_tells Q.probe_tells registry.new) reg IsPlugOut }
{
    let closed = registry.close(name);
    let early = registry.retire(reg).err();
    (closed, early)
}

/// Adds a reader to an empty registry, and takes it for a reading.
fn lend_first<P: Plug>(
    alloc: Global,
    registry: &mut Registry<P, Silent>,
    name: Text,
    actor: u64,
) -> Option<(u64, Silent)>
    requires { rows P.plug_tells ⟦<Silent as Probe>⟧.probe_tells registry.old ≡ [] }
    ensures { IfSome result (λ lent.
        At (rows P.plug_tells ⟦<Silent as Probe>⟧.probe_tells registry.new) lent.0 IsProbeOut) }
{
    match registry.add(alloc, name, Kinds(0), MemberOf::Probe(Silent)) {
        Ok(reg) => Some((reg, registry.lend(reg, actor))),
        Err(_) => None,
    }
}

#[test]
fn lends_readers(rt: HostRuntime) -> Result<(), Fail> {
    let alloc = rt.alloc();
    let mut registry: Registry<Telling, Silent> = Registry::new(alloc);
    let name = Text::of(alloc, "load")?;
    let lent = lend_first(alloc, &mut registry, name, 5);
    let (reg, reader) = lent.ok_or("not added")?;
    registry.back(reg, reader);
    let name = Text::of(alloc, "load")?;
    assert_eq!(rt; registry.close(&name), Ok(reg));
    assert!(rt; registry.retire(reg).is_ok());
    Ok(())
}

fn text_call(alloc: Global, text: &str) -> Result<Call, Fail> {
    Ok(Call::Configure(Text::of(alloc, text)?))
}

/// Two writers, two calls of the first and one of the second. The first is closed while its oldest call is out.
fn two_writers<P: Plug>(rt: &impl Abort, alloc: Global, first: P, second: P) -> Result<P, Fail> {
    let mut registry: Registry<P, Silent> = Registry::new(alloc);
    let name = Text::of(alloc, "a")?;
    let other = Text::of(alloc, "b")?;
    assert_eq!(rt;
        add(
            alloc,
            &mut registry,
            "a",
            Kinds::WRITE,
            MemberOf::Plug(first)
        ),
        Ok(0)
    );
    assert_eq!(rt;
        add(alloc, &mut registry, "b", Kinds(3), MemberOf::Plug(second)),
        Ok(1)
    );
    let writers = registry.listening(alloc, Kinds::WRITE)?;
    assert_eq!(rt; writers.as_slice(), [0, 1].as_slice());
    assert_eq!(rt; registry.ready(), None);
    assert_eq!(rt;
        post(&mut registry, &other, text_call(alloc, "x")?),
        Some(1)
    );
    assert_eq!(rt; registry.ready(), Some(1));
    assert_eq!(rt; post(&mut registry, &name, text_call(alloc, "y")?), Some(0));

    let leased = lease(&mut registry, &name, 7).ok_or("none ready")?;
    let Leased { reg, closed, early } = leased;
    assert_eq!(rt; (reg, closed, early), (0, Ok(0), Some(RetireFault::Out(7))));
    assert_eq!(rt; registry.close(&name), Err(NotRegistered));
    let Ok(MemberOf::Plug(object)) = registry.retire(0) else {
        return Err(Fail::from("not handed out"));
    };
    assert_eq!(rt; registry.retire(0).err(), Some(RetireFault::NotRegistered));
    assert_eq!(rt; registry.retire(1).err(), Some(RetireFault::NotRegistered));
    assert_eq!(rt; registry.close(&other), Ok(1));
    assert_eq!(rt; registry.retire(1).err(), Some(RetireFault::Pending(1)));
    assert_eq!(rt; registry.ready(), Some(1));
    Ok(object)
}

#[test]
fn leases_plain(rt: HostRuntime) -> Result<(), Fail> {
    let alloc = rt.alloc();
    let first = Telling::new(alloc, 1, Vec::new(alloc));
    let second = Telling::new(alloc, 2, Vec::new(alloc));
    let object = two_writers(&rt, alloc, first, second)?;
    let calls = object.calls().ok_or("no calls")?;
    assert_eq!(rt; calls.len(), 1);
    Ok(())
}

#[test]
fn leases_boxed(rt: HostRuntime) -> Result<(), Fail> {
    let alloc = rt.alloc();
    let first: Box<dyn Plug + Send> = Box::new(alloc, Telling::new(alloc, 1, Vec::new(alloc)))?;
    let second: Box<dyn Plug + Send> = Box::new(alloc, Telling::new(alloc, 2, Vec::new(alloc)))?;
    let _object = two_writers(&rt, alloc, first, second)?;
    Ok(())
}

#[test]
fn refuses_names(rt: HostRuntime) -> Result<(), Fail> {
    let alloc = rt.alloc();
    let mut registry: Registry<Telling, Silent> = Registry::new(alloc);
    for name in ["threshold", "unixsock", "network"] {
        let got = add(
            alloc,
            &mut registry,
            name,
            Kinds::WRITE,
            MemberOf::Probe(Silent),
        );
        assert_eq!(rt; got, Err(AddFault::Reserved), "{name}");
    }
    for n in 0..256 {
        let name = format!(in alloc; "p{n}")?;
        let got = add(
            alloc,
            &mut registry,
            name.as_str(),
            Kinds::WRITE,
            MemberOf::Probe(Silent),
        );
        assert_eq!(rt; got, Ok(n));
    }
    let got = add(
        alloc,
        &mut registry,
        "p3",
        Kinds::WRITE,
        MemberOf::Probe(Silent),
    );
    assert_eq!(rt; got, Err(AddFault::NameTaken(3)));
    let got = add(
        alloc,
        &mut registry,
        "q",
        Kinds::WRITE,
        MemberOf::Probe(Silent),
    );
    assert_eq!(rt; got, Err(AddFault::TableFull));
    let name = Text::of(alloc, "p3")?;
    assert_eq!(rt;
        registry.find(&name, Kinds::WRITE),
        None,
        "a reader has no kinds"
    );
    assert!(rt; !registry.is_named(3, &name, Kinds::WRITE));
    assert_eq!(rt; registry.close(&name), Ok(3));
    let got = add(
        alloc,
        &mut registry,
        "p3",
        Kinds::WRITE,
        MemberOf::Probe(Silent),
    );
    assert_eq!(rt; got, Ok(256));
    assert!(rt; registry.retire(3).is_ok());
    Ok(())
}

#[test]
fn leases_enter_with_their_call(rt: HostRuntime) -> Result<(), Fail> {
    let alloc = rt.alloc();
    let table = [
        (Answer::Done, Some(1)),
        (Answer::Failed, Some(1)),
        (Answer::Memory, None),
    ];
    for (answer, told) in table {
        let lease = LeaseOf {
            reg: 4,
            object: Telling::new(alloc, 1, vec![in alloc; answer]?),
            call: text_call(alloc, "x")?,
        };
        let entered = lease.enter();
        assert_eq!(rt; (entered.reg, entered.answer), (4, answer));
        assert_eq!(rt; entered.object.calls().map(|calls| calls.len()), told);
    }
    Ok(())
}
