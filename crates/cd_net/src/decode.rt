//! The items of a packet, in one pass that carries the fields forward.
ghost use Rattle.cd_net.specs.Carried.{set_behind, shown};
ghost use Rattle.cd_net.specs.Items.{IsDecoded, is_sound, item_fits, item_in, outcome, refusal_in};
ghost use Rattle.cd_net.specs.Packet.{IsOfKind};
ghost use Rattle.cd_net.specs.declared.item.Decoded.{Decoded};
ghost use Rattle.std.specs.List.{list_all};
ghost use Rattle.std.specs.Option.{option_copied};
ghost use Rattle.std.specs.Prelude.{IfOk, IsTrue, OnOk, option_to_list, ◌++◌, ◌≡◌};

use crate::carried::Carried;
use crate::cut::{part_at, payload_of};
use crate::list::list;
use crate::note::note;
use crate::numbers::{MESSAGE, TYPE, VALUES};
use crate::{Decoded, DecodedItems, Item, ItemRefusal, Refusals};
use cd_types::TypesDb;
use cd_value::{DataSet, Memory, Sequence};
use std::alloc::Global;

/// An item, or why there is none.
pub(crate) type Outcome = Result<Item, ItemRefusal>;

/// What a part of a kind gives under the fields in force and their data set, if it gives anything.
fn outcome_of(
    alloc: Global,
    fields: &Carried<'_>,
    kind: u16,
    payload: &[u8],
    set: Option<&DataSet>,
    interval: u64,
) -> Result<Option<Outcome>, Memory>
    requires { IsOfKind kind payload.now }
    ensures { let set = option_copied set.entry in
        let fields = shown fields.now in
        IfOk result (λ gave. gave ≡ outcome set interval fields kind payload.now) }
{
    match kind {
        VALUES => Ok(Some(list(alloc, fields, payload, set, interval)?)),
        MESSAGE => Ok(Some(note(alloc, fields, payload)?)),
        _ => Ok(None),
    }
}

/// The data set of the type in force behind a part: looked up only where the part gave a type.
fn set_behind<'t>(
    kind: u16,
    fields: &Carried<'_>,
    types: &'t TypesDb,
    set: Option<&'t DataSet>,
) -> Option<&'t DataSet>
    ensures { let set = option_copied set.entry in
        option_copied result ≡ set_behind types.now kind (shown fields.now) set }
{
    if kind == TYPE {
        fields.set_in(types)
    } else {
        set
    }
}

/// Puts what the part at a place gave behind the items or the refusals.
fn keep(
    items: &mut DecodedItems,
    refused: &mut Refusals,
    place: u64,
    gave: Option<Outcome>,
) -> Result<(), Memory>
    ensures items { OnOk result (items.new ≡ items.old ++ option_to_list (item_in gave)) }
    ensures refused { OnOk result
        (refused.new ≡ refused.old ++ option_to_list (refusal_in place gave)) }
{
    match gave {
        Some(Ok(item)) => items.push(item),
        Some(Err(refusal)) => refused.push((place, refusal)),
        None => Ok(()),
    }
}

/// The items of a datagram of collectd's binary protocol, as the plugin network of collectd.conf(5)
/// receives it: a value list for each values part and a notification for each message part, with the
/// fields that the packet gave before, unless the part is refused. Items stand beside refused parts,
/// and before an end that isn't whole. `interval` is the global interval in 2^-30 s, for lists that
/// come without one. No call keeps anything: what one packet says has nothing of another's fields.
pub fn items(alloc: Global, bytes: &[u8], types: &TypesDb, interval: u64) -> Result<Decoded, Memory>
    ensures decoded { IfOk result (λ decoded. IsDecoded types.now interval bytes.now decoded) }
    ensures only { IfOk result (λ decoded. (other : Decoded) →
        IsDecoded types.now interval bytes.now other → other ≡ decoded) }
    ensures fits { IfOk result (λ decoded. IsTrue (list_all (item_fits types.now) decoded.items)) }
    ensures sound { IfOk result (λ decoded. IsTrue (list_all is_sound decoded.items)) }
{
    let mut items = Sequence::new(alloc);
    let mut refused = Sequence::new(alloc);
    let mut fields = Carried::new();
    let mut set = fields.set_in(types);
    let mut place = 0;
    loop {
        let part = match part_at(bytes, place) {
            Ok(part) => part,
            Err(end) => {
                return Ok(Decoded {
                    items,
                    refused,
                    end,
                });
            }
        };
        let payload = payload_of(bytes, &part);
        let gave = outcome_of(alloc, &fields, part.kind, payload, set, interval)?;
        keep(&mut items, &mut refused, part.place, gave)?;
        fields.take(part.kind, payload);
        set = set_behind(part.kind, &fields, types, set);
        place += part.length as usize;
    }
}
