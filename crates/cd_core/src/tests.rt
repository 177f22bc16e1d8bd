//! A small daemon, worked by hand: each call with ample memory, but `keyed`, which runs make.
use crate::{AcceptFault, Core, FlushEnd, FlushFault, HandleFault, QueryFault, RegisterFault};
use cd_chain::ChainTable;
use cd_globals::Globals;
use cd_history::{Handled, How, Why};
use cd_plugins::Telling;
use cd_registry::{Kinds, Plug, Probe, Reading, RetireFault, TellsReadings};
use cd_types::TypesDb;
use cd_value::{
    Fates, FlushRequest, Identifier, Lists, Names, Offered, Sequence, Text, Value, ValueList,
};
use std::alloc::Global;
use std::test::Fail;

/// A reader that tells no readings.
#[derive(Drop)]
struct Silent;

impl TellsReadings for Silent {
    ghost use Rattle.std.specs.Prelude.{None};

    ghost probe_tells = { λ probe. record { mark = 0; faults = 0; readings = None } };
}

impl Probe for Silent {
    fn read(&mut self, _now: u64) -> Reading {
        Reading::Memory
    }
}

fn small_core(alloc: Global) -> Result<Core<Telling, Silent>, Fail> {
    let globals = Globals::defaults(alloc)?;
    let types = TypesDb::builtin(alloc)?;
    let Ok(chains) = ChainTable::build(alloc, Sequence::new(alloc)) else {
        return Err(Fail::from("no table"));
    };
    Ok(Core::new(alloc, globals, types, chains, None, None)?)
}

fn register(
    alloc: Global,
    core: &mut Core<Telling, Silent>,
    name: &str,
    kinds: Kinds,
) -> Result<Result<u64, RegisterFault>, Fail> {
    let name = Text::of(alloc, name)?;
    let plug = Telling::new(alloc, 1, Vec::new(alloc));
    let answer = core.register(alloc, name, kinds, plug, Text::new(alloc));
    Ok(answer.map_err(|refused| refused.why))
}

fn gauge(alloc: Global, time: u64) -> Result<ValueList, Fail> {
    let mut values = Sequence::new(alloc);
    values.push(Value::Gauge(Some(1_000_000)))?;
    Ok(ValueList {
        id: Identifier::read(alloc, "h/p/gauge")?,
        time,
        interval: 10,
        values,
    })
}

/// Offers a list that fits its type, with a word of the dice.
fn offer<P: Plug, Q: Probe>(
    alloc: Global,
    core: &mut Core<P, Q>,
    list: ValueList,
    word: u64,
) -> Result<Result<Fates, AcceptFault>, Fail> {
    if !core.types().fits(&list) {
        return Err(Fail::from("the list doesn't fit"));
    }
    let mut lists = Lists::new(alloc);
    lists.push(list)?;
    Ok(
        core.accept(alloc, lists, &[word], 0)
            .map_err(|refused| refused.why),
    )
}

/// Takes a call, asks for the object meanwhile, enters the plug-in and gives it home: whose call it was, and the answer
/// meanwhile.
fn lease<P: Plug, Q: Probe>(core: &mut Core<P, Q>, actor: u64) -> Option<(u64, RetireFault)> {
    let lease = core.take(actor)?;
    let reg = lease.reg;
    match core.retire(reg) {
        Ok(_) => None,
        Err(why) => {
            core.done(lease.enter());
            Some((reg, why))
        }
    }
}

fn flush_all(alloc: Global) -> FlushRequest {
    FlushRequest {
        plugins: Names::new(alloc),
        names: Names::new(alloc),
        timeout: None,
    }
}

#[test]
fn handles_lists(rt: HostRuntime) -> Result<(), Fail> {
    let alloc = rt.alloc();
    let mut core = small_core(alloc)?;
    assert_eq!(rt; register(alloc, &mut core, "a", Kinds::WRITE)?, Ok(0));
    let fates = offer(alloc, &mut core, gauge(alloc, 5)?, 2)?;
    let Ok(fates) = fates else {
        return Err(Fail::from("not accepted"));
    };
    assert_eq!(rt; fates.as_slice(), [Offered::Kept].as_slice());
    assert_eq!(rt; core.queued(), 1);
    let (how, skipped) = (How::Stored, 0);
    assert_eq!(rt; core.handle(alloc, 9), Ok(Handled { how, skipped }));
    assert_eq!(rt; core.handle(alloc, 9), Err(HandleFault::Empty));
    let got = core.get(alloc, &Text::of(alloc, "h/p/gauge")?);
    let Ok(got) = got else {
        return Err(Fail::from("not cached"));
    };
    assert_eq!(rt; (got.names.len(), got.rates.len()), (1, 1));
    let none = core.get(alloc, &Text::of(alloc, "h/p/derive")?);
    assert_eq!(rt; none.err(), Some(QueryFault::NoSuchValue));
    assert_eq!(rt; core.list(alloc)?.len(), 1);
    assert_eq!(rt; core.listed(alloc)?.len(), 1);
    assert_eq!(rt; core.globals().interval, 10_737_418_240);
    Ok(())
}

#[test]
fn leases_and_retires(rt: HostRuntime) -> Result<(), Fail> {
    let alloc = rt.alloc();
    let mut core = small_core(alloc)?;
    let both = Kinds(Kinds::WRITE.0 | Kinds::CONFIGURE.0);
    assert_eq!(rt; register(alloc, &mut core, "a", both)?, Ok(0));
    assert_eq!(rt; register(alloc, &mut core, "b", Kinds::WRITE)?, Ok(1));
    let taken = register(alloc, &mut core, "a", Kinds::WRITE)?;
    assert_eq!(rt; taken, Err(RegisterFault::NameTaken(0)));
    let fates = offer(alloc, &mut core, gauge(alloc, 5)?, 2)?;
    assert!(rt; fates.is_ok());
    assert!(rt; core.handle(alloc, 9).is_ok());
    assert_eq!(rt; lease(&mut core, 7), Some((0, RetireFault::NotRegistered)));
    assert_eq!(rt; core.close(&Text::of(alloc, "a")?), Ok(0));
    assert_eq!(rt; core.retire(0).err(), Some(RetireFault::Pending(1)));
    assert_eq!(rt; lease(&mut core, 7), Some((0, RetireFault::Out(7))));
    assert!(rt; core.retire(0).is_ok());
    assert_eq!(rt; core.retire(0).err(), Some(RetireFault::NotRegistered));
    assert_eq!(rt; lease(&mut core, 7), Some((1, RetireFault::NotRegistered)));
    assert_eq!(rt; lease(&mut core, 7), None);
    Ok(())
}

#[test]
fn flushes_and_stops(rt: HostRuntime) -> Result<(), Fail> {
    let alloc = rt.alloc();
    let mut core = small_core(alloc)?;
    assert_eq!(rt; register(alloc, &mut core, "a", Kinds::FLUSH)?, Ok(0));
    assert_eq!(rt; core.flush_begin(alloc, &flush_all(alloc)), Ok(0));
    assert_eq!(rt; core.flush_end(0), Err(FlushEnd::NotYet(1)));
    assert!(rt; lease(&mut core, 7).is_some());
    assert_eq!(rt; core.flush_end(0), Ok((1, 0)));
    assert_eq!(rt; core.flush_end(0), Err(FlushEnd::NoSuchFlush));
    core.stop(Why::Asked);
    assert!(rt; core.stopped());
    let late = register(alloc, &mut core, "b", Kinds::WRITE)?;
    assert_eq!(rt; late, Err(RegisterFault::Stopping));
    let late = offer(alloc, &mut core, gauge(alloc, 5)?, 2)?;
    assert_eq!(rt; late.err(), Some(AcceptFault::Stopping));
    let late = core.flush_begin(alloc, &flush_all(alloc));
    assert_eq!(rt; late, Err(FlushFault::Stopping));
    Ok(())
}
