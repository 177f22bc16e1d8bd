//! Plug-ins that go from their places on a shelf into the core, and come back.
ghost use Rattle.cd_core.specs.Seen.{seen};
ghost use Rattle.cd_daemon.specs.declared.Opening.{Opening};
ghost use Rattle.cd_history.specs.History.{History};
ghost use Rattle.cd_serve.specs.Started.{config_of};
ghost use Rattle.cd_serve.specs.Working.Loading.{AllAreBack, CanBeHandedOut, CanLoad, HandsNext, HasLoaded, IsNext};
ghost use Rattle.cd_serve.specs.Working.Loading.{IsToRegister, SomeCanBeHandedOut, SomeCanLoad, WasRegistered, place_seen};
ghost use Rattle.cd_transcript.specs.LineRuns.{Loaded, OnShelf};
ghost use Rattle.std.specs.Prelude.{IfOk, List, OnErr, OnOk, length, map, take, ◌≡◌, ◌≤◌};

use cd_core::{Core, RegisterFault};
use cd_registry::{Kinds, MemberOf, TellsCalls, TellsReadings};
use cd_settings::Block;
use cd_value::{Memory, Refused, Text, TryCopy};
use std::alloc::Global;
use std::mem;

/// A place on a shelf: the name and the kinds of its plug-in, and its object while that stands there.
#[derive(Drop)]
pub struct PlaceOf<P> {
    pub name: Text,
    pub kinds: Kinds,
    pub object: Option<P>,
}

/// The block of a plug-in in the configuration, and no text where it has none.
fn config_of(alloc: Global, blocks: &[Block], name: &Text) -> Result<Text, Memory>
    ensures { IfOk result (λ config. config ≡ config_of blocks.now name.now) }
{
    for block in blocks {
        if *name == block.name {
            return block.text.copy(alloc);
        }
    }
    Ok(Text::new(alloc))
}

/// Registers the plug-in of a place, with its block of the configuration. The place is empty then.
fn load<P: TellsCalls, Q: TellsReadings>(
    alloc: Global,
    core: &mut Core<P, Q>,
    place: &mut PlaceOf<P>,
    blocks: &[Block],
) -> Result<(), Memory>
    requires { IsToRegister (seen P.plug_tells Q.probe_tells core.old)
        (place_seen P.plug_tells place.old) }
    ensures ok { OnOk result (WasRegistered (config_of blocks.now place.old.name)
        (place_seen P.plug_tells place.old) (place_seen P.plug_tells place.new)
        (seen P.plug_tells Q.probe_tells core.old) (seen P.plug_tells Q.probe_tells core.new)) }
    ensures core { OnErr result (seen P.plug_tells Q.probe_tells core.new
        ≡ seen P.plug_tells Q.probe_tells core.old) }
    ensures back { OnErr result (place_seen P.plug_tells place.new
        ≡ place_seen P.plug_tells place.old) }
{
    let name = place.name.copy(alloc)?;
    let config = config_of(alloc, blocks, &place.name)?;
    let Some(object) = mem::replace(&mut place.object, None) else {
        unreachable!()
    };
    match core.register(alloc, name, place.kinds, object, config) {
        Ok(_) => Ok(()),
        Err(Refused { value, why }) => {
            place.object = Some(value);
            match why {
                RegisterFault::Memory => Err(Memory),
                _ => unreachable!(),
            }
        }
    }
}

/// Registers the plug-ins of these places, in order, and gives how many were: fewer than all where memory was lacking.
pub(crate) fn load_all<P: TellsCalls, Q: TellsReadings>(
    alloc: Global,
    core: &mut Core<P, Q>,
    places: &mut [PlaceOf<P>],
    order: &[usize],
    blocks: &[Block],
) -> usize
    requires { SomeCanLoad blocks.now (seen P.plug_tells Q.probe_tells core.old) order.now
        (map (place_seen P.plug_tells) places.old) }
    ensures many { result ≤ length order.now }
    ensures loads { (K : Opening) (shelf : List OnShelf) (loaded : List Loaded) →
        CanLoad K shelf loaded blocks.now (seen P.plug_tells Q.probe_tells core.old) order.now
        (map (place_seen P.plug_tells) places.old) →
        HasLoaded K shelf (take result loaded) (seen P.plug_tells Q.probe_tells core.new)
        (map (place_seen P.plug_tells) places.new) }
{
    for (count, index) in order.iter().enumerate() {
        match load(alloc, core, &mut places[*index], blocks) {
            Ok(()) => {}
            Err(Memory) => return count,
        }
    }
    order.len()
}

/// Closes the registration of a place's name and puts its object back.
fn hand_out<P: TellsCalls, Q: TellsReadings>(core: &mut Core<P, Q>, place: &mut PlaceOf<P>)
    requires { IsNext (seen P.plug_tells Q.probe_tells core.old) place.old.name }
    ensures { HandsNext place.old.name
        (place_seen P.plug_tells place.old) (place_seen P.plug_tells place.new)
        (seen P.plug_tells Q.probe_tells core.old) (seen P.plug_tells Q.probe_tells core.new) }
{
    let Ok(reg) = core.close(&place.name) else {
        unreachable!()
    };
    match core.retire(reg) {
        Ok(MemberOf::Plug(object)) => place.object = Some(object),
        Ok(MemberOf::Probe(_)) => unreachable!(),
        Err(_) => unreachable!(),
    }
}

/// Closes the registrations of these places, in order, and puts all objects back.
pub(crate) fn hand_out_all<P: TellsCalls, Q: TellsReadings>(
    core: &mut Core<P, Q>,
    places: &mut [PlaceOf<P>],
    order: &[usize],
)
    requires { SomeCanBeHandedOut (seen P.plug_tells Q.probe_tells core.old) order.now
        (map (place_seen P.plug_tells) places.old) }
    ensures { (K : Opening) (H : History) (shelf : List OnShelf) (loaded : List Loaded) →
        CanBeHandedOut K H shelf loaded (seen P.plug_tells Q.probe_tells core.old) order.now
        (map (place_seen P.plug_tells) places.old) →
        AllAreBack K H shelf loaded (map (place_seen P.plug_tells) places.new) }
{
    for index in order {
        hand_out(core, &mut places[*index]);
    }
}
