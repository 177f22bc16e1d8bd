//! What a chain does with a list, target by target. The chains under way are kept on a stack of
//! their own, so that a long row of jumps takes memory and no depth of calls.
ghost use Rattle.cd_chain.specs.Frames.{IsNearer, Told, list_now, meaning, meaning_at, rest_of, steps_at, steps_to_go};
ghost use Rattle.cd_chain.specs.Chains.{notice, run_numbered, run_of};
ghost use Rattle.cd_chain.specs.Tables.{jump_table};
ghost use Rattle.cd_match.specs.Matches.{Scene};
ghost use Rattle.cd_target.specs.Targets.{rewritten};
ghost use Rattle.cd_walks.specs.Walks.{IsFree};
ghost use Rattle.std.specs.Prelude.{◌≡◌, ◌<◌, length, IfOk, OnOk, unwrap_or};

use crate::frame::{Frame, target_at};
use crate::jumps::number_of;
use crate::place::next_place;
use crate::{Action, Actions, Chain, Evaluated, Verdict};
use cd_target::{Target, message, rewrite_in_place};
use cd_value::{DataSet, Memory, Notification, RateView, Severity, Text, TryCopy, ValueList};
use std::alloc::Global;

/// The notification of a target.
fn notice(
    alloc: Global,
    text: &Text,
    severity: Severity,
    list: &ValueList,
    now: u64,
) -> Result<Notification, Memory>
    ensures { (scene : Scene) → scene.now ≡ now →
        IfOk result (λ note. note ≡ notice scene text.now severity list.now) }
{
    Ok(Notification {
        severity,
        time: now,
        host: list.id.host.copy(alloc)?,
        plugin: list.id.plugin.copy(alloc)?,
        plugin_instance: list.id.plugin_instance.copy(alloc)?,
        type_name: list.id.type_name.copy(alloc)?,
        type_instance: list.id.type_instance.copy(alloc)?,
        message: message(alloc, text, list)?,
    })
}

/// The list that was changed before, or a copy of the one that was given.
fn own(alloc: Global, given: &ValueList, changed: Option<ValueList>) -> Result<ValueList, Memory>
    ensures { IfOk result (λ list. list ≡ unwrap_or changed given.now) }
{
    match changed {
        Some(list) => Ok(list),
        None => given.copy(alloc),
    }
}

/// Changes a list as a target does. The list that was given stays: the first change is to a copy of it.
fn change(
    alloc: Global,
    target: &Target,
    given: &ValueList,
    changed: &mut Option<ValueList>,
) -> Result<(), Memory>
    ensures { OnOk result (unwrap_or changed.new given.now
        ≡ rewritten target.now (unwrap_or changed.old given.now)) }
{
    let mut list = own(alloc, given, changed.take())?;
    rewrite_in_place(alloc, target, &mut list.id)?;
    *changed = Some(list);
    Ok(())
}

/// An evaluation under way: the list that was given, the list as it is now where a target changed it, the actions so
/// far, and the chains under way, the outermost first.
#[derive(Drop)]
struct Evaluation<'a> {
    given: &'a ValueList,
    changed: Option<ValueList>,
    actions: Actions,
    frames: Vec<Frame>,
}

impl Evaluation<'_> {
    /// The list as it is now.
    fn current(&self) -> &ValueList
        ensures { result.now ≡ list_now self.now }
    {
        match &self.changed {
            Some(list) => list,
            None => self.given,
        }
    }

    /// Runs the target of a place, behind the chains that wait. It gives a verdict where the
    /// evaluation has ended.
    fn run_target(
        &mut self,
        alloc: Global,
        chains: &[Chain],
        here: Frame,
        now: u64,
    ) -> Result<Option<Verdict>, Memory>
        requires free { IsFree (jump_table chains.now) }
        requires some { 0 < length (rest_of chains.now here).targets }
        ensures means { (scene : Scene) → scene.now ≡ now → Told scene chains.now
            (meaning_at scene chains.now self.old (rest_of chains.now here)) self.new result }
        ensures fewer { IsNearer chains.now (steps_at chains.now self.old (rest_of chains.now here))
            self.new result }
        ensures given { self.new.given.now ≡ self.old.given.now }
    {
        let Some((target, rest)) = target_at(chains, here) else {
            return Ok(None);
        };
        match target {
            Target::Return => {
                if self.frames.is_empty() {
                    return Ok(Some(Verdict::Return));
                }
            }
            Target::Stop => return Ok(Some(Verdict::Stop)),
            Target::Jump(name) => {
                self.frames.push(rest)?;
                if let Some(number) = number_of(chains, name) {
                    self.frames.push(Frame::of(number))?;
                }
            }
            Target::Write(names) => {
                let names = names.copy(alloc)?;
                let list = self.current().copy(alloc)?;
                self.actions.push(Action::Write { names, list })?;
                self.frames.push(rest)?;
            }
            Target::Set(_) => {
                change(alloc, target, self.given, &mut self.changed)?;
                self.frames.push(rest)?;
            }
            Target::Replace(_) => {
                change(alloc, target, self.given, &mut self.changed)?;
                self.frames.push(rest)?;
            }
            Target::Notification { message, severity } => {
                let note = notice(alloc, message, *severity, self.current(), now)?;
                self.actions.push(Action::Notify(note))?;
                self.frames.push(rest)?;
            }
        }
        Ok(None)
    }

    /// Runs the next target. It gives a verdict where the evaluation has ended.
    fn step<V: RateView>(
        &mut self,
        alloc: Global,
        chains: &mut [Chain],
        set: &DataSet,
        view: &V,
        now: u64,
    ) -> Result<Option<Verdict>, Memory>
        requires { IsFree (jump_table chains.old) }
        ensures means { let scene : Scene
            = record { set = set.now; rates = V.rates_at view.now; now = now } in
            Told scene chains.old (meaning scene chains.old self.old) self.new result }
        ensures fewer { IsNearer chains.old (steps_to_go chains.old self.old) self.new result }
        ensures given { self.new.given.now ≡ self.old.given.now }
        ensures same { chains.new ≡ chains.old }
    {
        let Some(frame) = self.frames.pop() else {
            return Ok(Some(Verdict::Continue));
        };
        let Some(here) = next_place(alloc, chains, frame, self.current(), set, view, now)? else {
            return Ok(None);
        };
        self.run_target(alloc, chains, here, now)
    }
}

/// What the chain of a number does with a list.
pub fn run_on<V: RateView>(
    alloc: Global,
    chains: &mut [Chain],
    chain: usize,
    list: &ValueList,
    set: &DataSet,
    view: &V,
    now: u64,
) -> Result<Evaluated, Memory>
    requires { IsFree (jump_table chains.old) }
    ensures run { IfOk result (λ done. let scene : Scene
        = record { set = set.now; rates = V.rates_at view.now; now = now } in
        run_of list.now done ≡ run_numbered scene chains.old chain list.now) }
    ensures same { chains.new ≡ chains.old }
{
    let mut frames = Vec::new(alloc);
    frames.push(Frame::of(chain))?;
    let mut evaluation = Evaluation {
        given: list,
        changed: None,
        actions: Actions::new(alloc),
        frames,
    };
    loop {
        let end = evaluation.step(alloc, chains, set, view, now)?;
        if let Some(verdict) = end {
            let Evaluation {
                changed,
                actions,
                ..
            } = evaluation;
            return Ok(Evaluated {
                verdict,
                changed,
                actions,
            });
        }
    }
}
