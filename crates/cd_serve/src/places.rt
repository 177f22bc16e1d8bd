//! The places of a shelf, and the room for its return.
ghost use Rattle.cd_serve.specs.Shelf.{on_shelf};
ghost use Rattle.cd_serve.specs.Started.{named_on};
ghost use Rattle.cd_serve.specs.Working.Loading.{ArePlacesOf, IsFull, IsReady, place_seen, plugs_loaded, standing};
ghost use Rattle.std.specs.Prelude.{IfErr, IfOk, IsTrue, OnOk, Some, [], length, map, slice_get, ◌++◌, ◌≡◌, ◌≤◌};
ghost use Rattle.std.specs.List.{list_all};
ghost use Rattle.std.specs.Vec.{vec_capacity};

use crate::ShelvedOf;
use crate::loading::PlaceOf;
use cd_registry::TellsCalls;
use cd_value::{Memory, Names, Refused, Text};
use std::alloc::Global;

/// A shelf whose objects can go into the core: its places; the numbers of those whose plug-ins are loaded, in the order
/// in which they are; and the room in which the shelf comes back, made beforehand.
#[derive(Drop)]
pub struct ReadyOf<P> {
    pub places: Vec<PlaceOf<P>>,
    pub order: Vec<usize>,
    pub room: Vec<ShelvedOf<P>>,
}

/// The numbers of all places of a shelf.
fn all_places<P: TellsCalls>(alloc: Global, shelf: &[ShelvedOf<P>]) -> Result<Vec<usize>, Memory>
    ensures { IfOk result (λ order. ArePlacesOf (on_shelf P.plug_tells shelf.now) order.items
        (on_shelf P.plug_tells shelf.now)) }
{
    let mut order = Vec::with_capacity(alloc, shelf.len())?;
    for index in 0..shelf.len() {
        order.push(index)?;
    }
    Ok(order)
}

/// Puts the numbers of the places with a name behind those that are there.
fn push_named<P: TellsCalls>(
    order: &mut Vec<usize>,
    shelf: &[ShelvedOf<P>],
    name: &Text,
) -> Result<(), Memory>
    ensures { OnOk result (map (slice_get (on_shelf P.plug_tells shelf.now)) order.new.items
        ≡ map (slice_get (on_shelf P.plug_tells shelf.now)) order.old.items
        ++ map Some (named_on (on_shelf P.plug_tells shelf.now) name.now)) }
{
    for (index, plug) in shelf.iter().enumerate() {
        if plug.name == *name {
            order.push(index)?;
        }
    }
    Ok(())
}

/// The numbers of the places whose plug-ins are loaded by these names, in order.
fn named_places<P: TellsCalls>(
    alloc: Global,
    shelf: &[ShelvedOf<P>],
    loaded: &[Text],
) -> Result<Vec<usize>, Memory>
    ensures { IfOk result (λ order. ArePlacesOf (on_shelf P.plug_tells shelf.now) order.items
        (plugs_loaded (Some []) loaded.now (on_shelf P.plug_tells shelf.now))) }
{
    let mut order = Vec::new(alloc);
    for name in loaded {
        push_named(&mut order, shelf, name)?;
    }
    Ok(order)
}

/// The numbers of the places whose plug-ins are loaded: without a file all, with one those of the names that it loads.
fn loaded_places<P: TellsCalls>(
    alloc: Global,
    file: &Option<Text>,
    loaded: &Names,
    shelf: &[ShelvedOf<P>],
) -> Result<Vec<usize>, Memory>
    ensures { IfOk result (λ order. ArePlacesOf (on_shelf P.plug_tells shelf.now) order.items
        (plugs_loaded file.now loaded.now (on_shelf P.plug_tells shelf.now))) }
{
    match file {
        None => all_places(alloc, shelf),
        Some(_) => named_places(alloc, shelf, loaded.as_slice()),
    }
}

/// Moves the plug-ins of a shelf to their places, for which there is room.
fn placed<P: TellsCalls>(shelf: Vec<ShelvedOf<P>>, mut places: Vec<PlaceOf<P>>) -> Vec<PlaceOf<P>>
    requires empty { places.items ≡ [] }
    requires room { length shelf.items ≤ vec_capacity places }
    ensures { map (place_seen P.plug_tells) result.items
        ≡ map standing (on_shelf P.plug_tells shelf.items) }
{
    for plug in shelf {
        let ShelvedOf {
            name,
            kinds,
            object,
        } = plug;
        places.push_reserved(PlaceOf {
            name,
            kinds,
            object: Some(object),
        });
    }
    places
}

/// Moves the plug-ins of places back to a shelf, for which there is room. Each stands in its place.
pub(crate) fn shelved<P: TellsCalls>(
    places: Vec<PlaceOf<P>>,
    mut shelf: Vec<ShelvedOf<P>>,
) -> Vec<ShelvedOf<P>>
    requires empty { shelf.items ≡ [] }
    requires room { length places.items ≤ vec_capacity shelf }
    requires full { IsTrue (list_all IsFull (map (place_seen P.plug_tells) places.items)) }
    ensures { map standing (on_shelf P.plug_tells result.items)
        ≡ map (place_seen P.plug_tells) places.items }
{
    for place in places {
        let PlaceOf {
            name,
            kinds,
            object,
        } = place;
        match object {
            Some(object) => shelf.push_reserved(ShelvedOf {
                name,
                kinds,
                object,
            }),
            None => unreachable!(),
        }
    }
    shelf
}

/// A shelf made ready: whatever it takes to hand all objects back is made now. Where memory is lacking it comes back as
/// it was.
pub(crate) fn made_ready<P: TellsCalls>(
    alloc: Global,
    file: &Option<Text>,
    loaded: &Names,
    shelf: Vec<ShelvedOf<P>>,
) -> Result<ReadyOf<P>, Refused<Vec<ShelvedOf<P>>, Memory>>
    ensures ok { IfOk result (IsReady P.plug_tells (on_shelf P.plug_tells shelf.items)
        (plugs_loaded file.now loaded.now (on_shelf P.plug_tells shelf.items))) }
    ensures err { IfErr result (λ refused. refused.value.items ≡ shelf.items) }
{
    let order = match loaded_places(alloc, file, loaded, shelf.as_slice()) {
        Ok(order) => order,
        Err(why) => return Err(Refused { value: shelf, why }),
    };
    let Ok(places) = Vec::with_capacity(alloc, shelf.len()) else {
        return Err(Refused {
            value: shelf,
            why: Memory,
        });
    };
    let Ok(room) = Vec::with_capacity(alloc, shelf.len()) else {
        return Err(Refused {
            value: shelf,
            why: Memory,
        });
    };
    Ok(ReadyOf {
        places: placed(shelf, places),
        order,
        room,
    })
}
