//! Whole texts on a link.
ghost use Rattle.cd_io.specs.Causes.{Counts};
ghost use Rattle.cd_io.specs.Link.{SaidInPart, Spoke};
ghost use Rattle.std.specs.Prelude.{OnErr, OnOk, [], is_err, ◌≡◌};

use crate::{Failed, Link};

/// Says a whole text to the peer, as `Link::say_whole` does.
pub fn say_all<L: Link>(link: &mut L, text: &[u8]) -> Result<(), Failed>
    ensures ok { OnOk result (Spoke [] text.now (L.link_tells link.old) (L.link_tells link.new)) }
    ensures err { OnErr result
        (SaidInPart text.now (L.link_tells link.old) (L.link_tells link.new)) }
    ensures quiets { (L.link_tells link.new).quiets ≡ (L.link_tells link.old).quiets }
    ensures faults { Counts (is_err result)
        (L.link_tells link.old).faults (L.link_tells link.new).faults }
{
    link.say_whole(text).1
}
