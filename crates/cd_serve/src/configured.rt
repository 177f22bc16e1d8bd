//! `-t`: the configuration is tested, and its canonical text is said.
ghost use Rattle.cd_serve.specs.Promises.{Writes};

use crate::End;
use cd_conf::{Items, print};
use cd_io::{Failed, Link, say_all};
use std::alloc::Global;

/// Says the canonical text of items, as collectd.conf(5) has their form.
pub(crate) fn say_items<L: Link>(alloc: Global, items: &Items, input: &mut L) -> End
    ensures { Writes items.now (L.link_tells input.old) (L.link_tells input.new) result }
{
    let Ok(text) = print(alloc, items) else {
        return End::Memory;
    };
    match say_all(input, text.as_str().as_bytes()) {
        Ok(()) => End::Done,
        Err(Failed) => End::LinkFault,
    }
}
