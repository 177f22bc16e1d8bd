//! Whether the plug-ins and readers of two shelves can be loaded together.
ghost use Rattle.cd_registry.specs.Faults.{is_reserved};
ghost use Rattle.cd_registry.specs.declared.faults.TheConstants.{LIVE_LIMIT};
ghost use Rattle.cd_serve.specs.Shelf.{CanBeLoaded, IsShelfFault, names_on};
ghost use Rattle.std.specs.List.{list_any, slice_get};
ghost use Rattle.std.specs.Prelude.{IfErr, OnOk, Some, length, take, ◌++◌, ◌+◌, ◌<◌, ◌≡◌, ◌≤◌};
ghost use Rattle.std.specs.Str.{bytes_eq};

use crate::{ShelvedOf, ShelvedProbeOf};
use cd_registry::LIVE_LIMIT;
use cd_value::Text;

/// Why what stands on two shelves can't be loaded together. Places count from 0, over the plug-ins and then the readers.
#[derive(Clone, Copy, Debug, PartialEq, Eq)]
pub enum ShelfFault {
    /// There are more than `LIVE_LIMIT`.
    TooMany,
    /// The name at this place is one of the daemon's own: threshold, unixsock, network.
    Reserved(usize),
    /// The name at this place stands at an earlier one too.
    NameTaken(usize),
}

/// Whether a name is one of the daemon's own.
fn is_reserved(name: &Text) -> bool
    ensures { result ≡ is_reserved name.now }
{
    matches!(name.as_str(), "threshold" | "unixsock" | "network")
}

/// The name at a place.
fn name_at<'a, P, Q>(
    plugs: &'a [ShelvedOf<P>],
    probes: &'a [ShelvedProbeOf<Q>],
    place: usize,
) -> &'a Text
    requires there { place < length (names_on plugs.now probes.now) }
    ensures { slice_get (names_on plugs.now probes.now) place ≡ Some result.now }
{
    if place < plugs.len() {
        &plugs[place].name
    } else {
        &probes[place - plugs.len()].name
    }
}

/// Whether a name stands before a place.
fn stands_before<P, Q>(
    plugs: &[ShelvedOf<P>],
    probes: &[ShelvedProbeOf<Q>],
    place: usize,
    name: &Text,
) -> bool
    requires there { place ≤ length (names_on plugs.now probes.now) }
    ensures { result ≡ list_any (bytes_eq name.now) (take place (names_on plugs.now probes.now)) }
{
    for earlier in 0..place {
        if name.as_str() == name_at(plugs, probes, earlier).as_str() {
            return true;
        }
    }
    false
}

/// Checks that a run may load what stands on these shelves: their names differ, none is reserved, and there are at most
/// `LIVE_LIMIT`. It names the fault at the first place that has one, unless there are too many.
pub fn check_shelves<P, Q>(
    plugs: &[ShelvedOf<P>],
    probes: &[ShelvedProbeOf<Q>],
) -> Result<(), ShelfFault>
    ensures ok { OnOk result (CanBeLoaded (names_on plugs.now probes.now)) }
    ensures err { IfErr result (IsShelfFault (names_on plugs.now probes.now)) }
{
    let limit = LIVE_LIMIT as usize;
    if plugs.len() > limit || probes.len() > limit - plugs.len() {
        return Err(ShelfFault::TooMany);
    }
    for place in 0..plugs.len() + probes.len() {
        let name = name_at(plugs, probes, place);
        if is_reserved(name) {
            return Err(ShelfFault::Reserved(place));
        }
        if stands_before(plugs, probes, place, name) {
            return Err(ShelfFault::NameTaken(place));
        }
    }
    Ok(())
}
