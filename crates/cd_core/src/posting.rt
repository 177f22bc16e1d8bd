//! Calls are posted, all or none: there is room for all of them before the first is.
ghost use Rattle.cd_core.specs.Posting.{AreToEachOnce, HasRoom, IsAmong, count_to, is_above, after_post_live, posted_live, write_if_any};
ghost use Rattle.cd_daemon.specs.Performing.{Post as PostSeen};
ghost use Rattle.cd_registry.specs.Registry.{KeepsRoom, UsesRoom, rows, spare_of};
ghost use Rattle.cd_registry.specs.Rows.{At, IsLive, with_row};
ghost use Rattle.cd_value.specs.declared.data.ValueList.{ValueList};
ghost use Rattle.std.specs.List.{list_any};
ghost use Rattle.std.specs.Prelude.{IsTrue, List, OnOk, length, nat_eq, take, ℕ, ◌++◌, ◌<◌, ◌↔◌, ◌≡◌, ◌≤◌};

use crate::effects::Post;
use cd_registry::{Call, Registry, TellsCalls, TellsReadings};
use cd_value::Memory;

/// Makes room for calls of a registration, where it is live.
fn reserve<P: TellsCalls, Q: TellsReadings>(
    registry: &mut Registry<P, Q>,
    reg: u64,
    calls: u64,
) -> Result<(), Memory>
    ensures ok { OnOk result (At (rows P.plug_tells Q.probe_tells registry.old) reg IsLive →
        calls ≤ spare_of registry.new reg) }
    ensures rows { rows P.plug_tells Q.probe_tells registry.new
        ≡ rows P.plug_tells Q.probe_tells registry.old }
    ensures spare { KeepsRoom registry.old registry.new }
{
    if registry.is_live(reg) {
        registry.reserve(reg, calls)
    } else {
        Ok(())
    }
}

/// How many of some calls go to a registration.
fn count_to(posts: &[Post], reg: u64) -> u64
    ensures calls { result ≡ count_to reg posts.now }
    ensures few { result ≤ length posts.now }
{
    posts.iter().filter(|post| post.goes_to(reg)).count() as u64
}

/// Whether the call just before a place goes to a registration.
fn follows(posts: &[Post], at: usize, reg: u64) -> bool
    requires { at < length posts.now }
    ensures { IsTrue result → IsAmong (take at posts.now) reg }
{
    if at == 0 {
        return false;
    }
    posts[at - 1].goes_to(reg)
}

/// Whether one of the first so many calls goes to a registration.
fn is_among_first(posts: &[Post], count: usize, reg: u64) -> bool
    requires { count < length posts.now }
    ensures { result ≡ list_any (λ post. nat_eq post.reg reg) (take count posts.now) }
{
    posts[..count].iter().any(|post| post.goes_to(reg))
}

/// Whether one of the calls before a place goes to a registration. The nearest is looked at first.
fn is_earlier(posts: &[Post], at: usize, reg: u64) -> bool
    requires { at < length posts.now }
    ensures { IsTrue result ↔ IsAmong (take at posts.now) reg }
{
    if follows(posts, at, reg) {
        return true;
    }
    is_among_first(posts, at, reg)
}

/// Whether a registration has a greater number than another, where there is another.
fn is_above(reg: u64, other: Option<u64>) -> bool
    ensures { result ≡ is_above reg other }
{
    match other {
        Some(other) => other < reg,
        None => true,
    }
}

/// Whether each call goes to a greater registration than the one before it: then none is called twice.
fn rise(posts: &[Post]) -> bool
    ensures { IsTrue result → AreToEachOnce posts.now }
{
    let mut last = None;
    for post in posts {
        if !is_above(post.reg, last) {
            return false;
        }
        last = Some(post.reg);
    }
    true
}

/// Makes room for all the calls that go where the one at a place goes, unless an earlier one goes there too.
fn reserve_at<P: TellsCalls, Q: TellsReadings>(
    registry: &mut Registry<P, Q>,
    posts: &[Post],
    at: usize,
    reg: u64,
    once: bool,
) -> Result<(), Memory>
    requires within { at < length posts.now }
    requires once { IsTrue once → AreToEachOnce posts.now }
    ensures ok { OnOk result (At (rows P.plug_tells Q.probe_tells registry.old) reg IsLive →
        (IsAmong (take at posts.now) reg → count_to reg posts.now ≤ spare_of registry.new reg) →
        count_to reg posts.now ≤ spare_of registry.new reg) }
    ensures rows { rows P.plug_tells Q.probe_tells registry.new
        ≡ rows P.plug_tells Q.probe_tells registry.old }
    ensures spare { KeepsRoom registry.old registry.new }
{
    if once {
        reserve(registry, reg, 1)
    } else if is_earlier(posts, at, reg) {
        Ok(())
    } else {
        reserve(registry, reg, count_to(posts, reg))
    }
}

/// Makes room for these calls.
pub(crate) fn reserve_all<P: TellsCalls, Q: TellsReadings>(
    registry: &mut Registry<P, Q>,
    posts: &[Post],
) -> Result<(), Memory>
    ensures room { OnOk result (HasRoom P.plug_tells Q.probe_tells posts.now registry.new) }
    ensures rows { rows P.plug_tells Q.probe_tells registry.new
        ≡ rows P.plug_tells Q.probe_tells registry.old }
{
    let once = rise(posts);
    for (at, post) in posts.iter().enumerate() {
        reserve_at(registry, posts, at, post.reg, once)?;
    }
    Ok(())
}

/// Makes room for these calls, and for one more to a registration, where there is one.
pub(crate) fn make_room<P: TellsCalls, Q: TellsReadings>(
    registry: &mut Registry<P, Q>,
    posts: &[Post],
    last: Option<u64>,
) -> Result<(), Memory>
    ensures room { OnOk result ((list : ValueList) → HasRoom P.plug_tells Q.probe_tells
        (posts.now ++ write_if_any list last) registry.new) }
    ensures rows { rows P.plug_tells Q.probe_tells registry.new
        ≡ rows P.plug_tells Q.probe_tells registry.old }
{
    reserve_all(registry, posts)?;
    match last {
        Some(reg) => reserve(registry, reg, count_to(posts, reg) + 1),
        None => Ok(()),
    }
}

/// Posts a call, where the registration is live.
pub(crate) fn post<P: TellsCalls, Q: TellsReadings>(
    registry: &mut Registry<P, Q>,
    reg: u64,
    call: Call,
)
    requires { At (rows P.plug_tells Q.probe_tells registry.old) reg IsLive →
        0 < spare_of registry.old reg }
    ensures rows { rows P.plug_tells Q.probe_tells registry.new ≡
        with_row reg (after_post_live call) (rows P.plug_tells Q.probe_tells registry.old) }
    ensures spare { UsesRoom reg 1 registry.old registry.new }
{
    if registry.is_live(reg) {
        match registry.post(reg, call) {
            Ok(()) => {}
            Err(_) => unreachable!(),
        }
    }
}

/// Posts calls in order. What room there was beside them for more is there still.
pub(crate) fn post_all<P: TellsCalls, Q: TellsReadings>(
    registry: &mut Registry<P, Q>,
    posts: Vec<Post>,
)
    requires { HasRoom P.plug_tells Q.probe_tells posts.items registry.old }
    ensures rows { rows P.plug_tells Q.probe_tells registry.new ≡
        posted_live posts.items (rows P.plug_tells Q.probe_tells registry.old) }
    ensures rest { (more : List PostSeen) →
        HasRoom P.plug_tells Q.probe_tells (posts.items ++ more) registry.old →
        HasRoom P.plug_tells Q.probe_tells more registry.new }
{
    for one in posts {
        let Post { reg, call } = one;
        post(registry, reg, call);
    }
}
