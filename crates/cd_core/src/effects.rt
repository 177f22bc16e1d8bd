//! What performing the actions of filter chains comes to: calls that are to be posted, and writers that are skipped.
ghost use Rattle.cd_core.specs.Posting.{Finds, is_writer, with_write, write_if_any};
ghost use Rattle.cd_daemon.specs.Performing.{each_once, nothing, perform, perform_all, to_each, write_to, writer_named};
ghost use Rattle.cd_history.specs.Registrations.{Registration};
ghost use Rattle.cd_registry.specs.Registry.{rows};
ghost use Rattle.cd_registry.specs.declared.calls.Call.TheVariants as calls;
ghost use Rattle.cd_value.specs.declared.data.ValueList.{ValueList};
ghost use Rattle.std.specs.List.{find, fold, list_any};
ghost use Rattle.std.specs.Prelude.{IfOk, List, OnOk, [], if◌then◌else◌, length, map, nat_eq, take, ℕ, ◌++◌, ◌+◌, ◌<◌, ◌∷◌, ◌≡◌};
ghost use Rattle.std.specs.Str.{bytes_eq};

use cd_chain::{Action, Actions};
use cd_registry::{Call, Kinds, Registry, TellsCalls, TellsReadings};
use cd_value::{Memory, Text, TryCopy, ValueList};
use std::alloc::Global;
use std::marker::Model;

/// A call that is to be posted to a registration.
#[derive(Drop)]
pub(crate) struct Post {
    pub(crate) reg: u64,
    pub(crate) call: Call,
}

impl Model for Post {
    ghost use Rattle.cd_daemon.specs.Performing.{Post as PostSeen};

    ghost Value = { PostSeen };

    ghost view = { λ post. record { reg = post.reg; call = post.call } };
}

impl Post {
    /// Whether it goes to a registration.
    pub(crate) fn goes_to(&self, reg: u64) -> bool
        ensures { result ≡ nat_eq self.now.reg reg }
    {
        self.reg == reg
    }
}

/// The calls that are to be posted, in order, and how many writers that were named are skipped.
#[derive(Drop)]
pub(crate) struct Effects {
    posts: Vec<Post>,
    skipped: u64,
}

impl Model for Effects {
    ghost use Rattle.cd_daemon.specs.Performing.{Effects as EffectsSeen};

    ghost Value = { EffectsSeen };

    ghost view = { λ effects. record { posts = effects.posts.items; skipped = effects.skipped } };
}

impl Effects {
    /// Nothing is done.
    pub(crate) fn none(alloc: Global) -> Effects
        ensures { result ≡ nothing }
    {
        Effects {
            posts: Vec::new(alloc),
            skipped: 0,
        }
    }

    /// The calls, in order.
    pub(crate) fn posts(&self) -> &[Post]
        ensures { result.now ≡ self.now.posts }
    {
        self.posts.as_slice()
    }

    /// The calls, in order.
    pub(crate) fn into_posts(self) -> Vec<Post>
        ensures { result.items ≡ self.posts }
    {
        let Effects { posts, .. } = self;
        posts
    }

    /// How many writers are skipped.
    pub(crate) fn skipped(&self) -> u64
        ensures { result ≡ self.now.skipped }
    {
        self.skipped
    }

    /// One call more.
    fn post(&mut self, reg: u64, call: Call) -> Result<(), Memory>
        ensures { OnOk result (self.new ≡ record self.old {
          posts = self.old.posts ++ record { reg = reg; call = call } ∷ [];
        }) }
    {
        self.posts.push(Post { reg, call })?;
        Ok(())
    }

    /// A write of a list, where there is a registration to which it goes.
    fn write(&mut self, list: ValueList, to: Option<u64>) -> Result<(), Memory>
        ensures { OnOk result (self.new ≡ with_write list to self.old) }
    {
        match to {
            Some(reg) => self.post(reg, Call::Write(list)),
            None => Ok(()),
        }
    }

    /// The same, of a copy of a list.
    fn write_copy(&mut self, alloc: Global, list: &ValueList, to: Option<u64>) -> Result<(), Memory>
        ensures { OnOk result (self.new ≡ with_write list.now to self.old) }
    {
        match to {
            Some(reg) => self.post(reg, Call::Write(list.copy(alloc)?)),
            None => Ok(()),
        }
    }

    /// Writes of copies of a list, to all of these registrations but the last. This one is told: it may have the list
    /// itself.
    pub(crate) fn write_copies(
        &mut self,
        alloc: Global,
        list: &ValueList,
        writers: &[u64],
    ) -> Result<Option<u64>, Memory>
        ensures posts { IfOk result (λ last. self.new.posts ++ write_if_any list.now last
            ≡ self.old.posts ++ to_each writers.now (calls.Write list.now)) }
        ensures skipped { OnOk result (self.new.skipped ≡ self.old.skipped) }
    {
        self.posts.reserve(writers.len().saturating_sub(1))?;
        let mut last = None;
        for writer in writers {
            self.write_copy(alloc, list, last)?;
            last = Some(*writer);
        }
        Ok(last)
    }

    /// Writes of a list to all of these registrations.
    fn write_to_each(
        &mut self,
        alloc: Global,
        list: ValueList,
        writers: &[u64],
    ) -> Result<(), Memory>
        ensures { OnOk result (self.new ≡ record self.old {
          posts = self.old.posts ++ to_each writers.now (calls.Write list);
        }) }
    {
        self.posts.reserve(writers.len())?;
        let last = self.write_copies(alloc, &list, writers)?;
        self.write(list, last)
    }

    /// Where a list is still to be written to a registration, a writer that was named comes behind it; where there is
    /// none of the name, it is skipped. It gives the last one, which may have the list itself.
    fn write_behind(
        &mut self,
        alloc: Global,
        list: &ValueList,
        last: Option<u64>,
        to: Option<u64>,
    ) -> Result<Option<u64>, Memory>
        ensures { IfOk result (λ next. with_write list.now next self.new
            ≡ write_to list.now (with_write list.now last self.old) to) }
    {
        match to {
            Some(reg) => {
                self.write_copy(alloc, list, last)?;
                Ok(Some(reg))
            }
            None => {
                self.skip()?;
                Ok(last)
            }
        }
    }

    fn skip(&mut self) -> Result<(), Memory>
        ensures { OnOk result (self.new ≡ record self.old { skipped = self.old.skipped + 1 }) }
    {
        match self.skipped.checked_add(1) {
            Some(skipped) => {
                self.skipped = skipped;
                Ok(())
            }
            None => Err(Memory),
        }
    }
}

/// Whether a name is among the first so many.
fn is_among_first(names: &[Text], count: usize, name: &Text) -> bool
    requires { count < length names.now }
    ensures { result ≡ list_any (bytes_eq name.now) (take count names.now) }
{
    names[..count].iter().any(|earlier| *name == *earlier)
}

/// Whether a registration is the live one of a name, and is called with lists.
fn is_writer<P: TellsCalls, Q: TellsReadings>(
    registry: &Registry<P, Q>,
    reg: u64,
    name: &Text,
) -> bool
    ensures { result ≡ is_writer (rows P.plug_tells Q.probe_tells registry.now) name.now reg }
{
    registry.is_named(reg, name, Kinds::WRITE)
}

/// The one of these writers that has a name.
fn writer_named<P: TellsCalls, Q: TellsReadings>(
    registry: &Registry<P, Q>,
    writers: &[u64],
    name: &Text,
) -> Option<u64>
    ensures { result ≡
        find (is_writer (rows P.plug_tells Q.probe_tells registry.now) name.now) writers.now }
{
    for reg in writers {
        if is_writer(registry, *reg, name) {
            return Some(*reg);
        }
    }
    None
}

/// The writer of a name comes behind the last one so far, unless the name is among the first so many.
fn write_to_next<P: TellsCalls, Q: TellsReadings>(
    alloc: Global,
    registry: &Registry<P, Q>,
    writers: &[u64],
    effects: &mut Effects,
    names: &[Text],
    at: usize,
    name: &Text,
    list: &ValueList,
    last: Option<u64>,
) -> Result<Option<u64>, Memory>
    requires { at < length names.now }
    ensures { IfOk result (λ next. (regs : List Registration) →
        Finds regs writers.now (rows P.plug_tells Q.probe_tells registry.now) →
        with_write list.now next effects.new
        ≡ (let before = with_write list.now last effects.old in
        if list_any (bytes_eq name.now) (take at names.now) then before
        else write_to list.now before (writer_named regs name.now))) }
{
    if is_among_first(names, at, name) {
        Ok(last)
    } else {
        effects.write_behind(alloc, list, last, writer_named(registry, writers, name))
    }
}

/// Writes of copies of a list to the writers that are named, each once, to all but the last. This one is told: it may
/// have the list itself.
fn write_copies_to_named<P: TellsCalls, Q: TellsReadings>(
    alloc: Global,
    registry: &Registry<P, Q>,
    writers: &[u64],
    effects: &mut Effects,
    names: &[Text],
    list: &ValueList,
) -> Result<Option<u64>, Memory>
    ensures { IfOk result (λ last. (regs : List Registration) →
        Finds regs writers.now (rows P.plug_tells Q.probe_tells registry.now) →
        with_write list.now last effects.new ≡ fold (write_to list.now) effects.old
        (map (writer_named regs) (each_once names.now))) }
{
    let mut last = None;
    for (at, name) in names.iter().enumerate() {
        last = write_to_next(
            alloc, registry, writers, effects, names, at, name, list, last,
        )?;
    }
    Ok(last)
}

/// Writes of a list to the writers that are named, each once.
fn write_to_named<P: TellsCalls, Q: TellsReadings>(
    alloc: Global,
    registry: &Registry<P, Q>,
    writers: &[u64],
    effects: &mut Effects,
    names: &[Text],
    list: ValueList,
) -> Result<(), Memory>
    ensures { OnOk result ((regs : List Registration) →
        Finds regs writers.now (rows P.plug_tells Q.probe_tells registry.now) →
        effects.new ≡ fold (write_to list) effects.old
        (map (writer_named regs) (each_once names.now))) }
{
    let last = write_copies_to_named(alloc, registry, writers, effects, names, &list)?;
    effects.write(list, last)
}

/// Performs an action. A notification makes no call yet.
fn perform<P: TellsCalls, Q: TellsReadings>(
    alloc: Global,
    registry: &Registry<P, Q>,
    writers: &[u64],
    effects: &mut Effects,
    action: Action,
) -> Result<(), Memory>
    ensures { OnOk result ((regs : List Registration) →
        Finds regs writers.now (rows P.plug_tells Q.probe_tells registry.now) →
        effects.new ≡ perform regs effects.old action) }
{
    match action {
        Action::Write { names, list } => {
            if names.is_empty() {
                effects.write_to_each(alloc, list, writers)
            } else {
                write_to_named(alloc, registry, writers, effects, names.as_slice(), list)
            }
        }
        Action::Notify(_) => Ok(()),
    }
}

/// Performs actions, in order.
pub(crate) fn perform_all<P: TellsCalls, Q: TellsReadings>(
    alloc: Global,
    registry: &Registry<P, Q>,
    writers: &[u64],
    effects: &mut Effects,
    actions: Actions,
) -> Result<(), Memory>
    ensures { OnOk result ((regs : List Registration) →
        Finds regs writers.now (rows P.plug_tells Q.probe_tells registry.now) →
        effects.new ≡ perform_all regs actions effects.old) }
{
    for action in actions.into_vec() {
        perform(alloc, registry, writers, effects, action)?;
    }
    Ok(())
}
