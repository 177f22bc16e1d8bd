//! Turns of one pass, here or in a thread.
ghost use Rattle.cd_turn.specs.Turns.{IsPassOf, actor_of, out_of, parent_of, view};
ghost use Rattle.cd_turn_tests.specs.Family.{IsChild, SameActor};
ghost use Rattle.cd_turn_tests.specs.Ticks.{tick, tick_by};
ghost use Rattle.std.specs.Arc.{arc_value};
ghost use Rattle.std.specs.Prelude.{IfSome, Some, [], ◌++◌, ◌+◌, ◌∷◌, ◌≡◌, ◌⊎◌};

use crate::count::{Count, Tick, Ticked};
use cd_turn::{Pass, Turn};
use std::alloc::Global;
use std::snapshot::Snapshot;
use std::sync::{Arc, Wait};
use std::thread::{Promise, PromisedHandle, Threads, spawn_with};

/// One turn, or none where the tickets are used up.
pub fn turn_once<R: Wait>(rt: &R, turn: &Turn<Count, Tick>, pass: &mut Pass<Count, Tick>)
    requires { IsPassOf tick_by turn.now pass.old }
    ensures pass { IsPassOf tick_by turn.now pass.new }
    ensures same { (actor_of pass.new ≡ actor_of pass.old)
        × (parent_of pass.new ≡ parent_of pass.old) × (out_of pass.new ≡ out_of pass.old) }
    ensures took { let v = view pass.old in
        ((view pass.new).mine ≡ v.mine ++ tick v.actor ∷ []) ⊎ ((view pass.new).over ≡ Some 0) }
{
    let Ok(mut held) = pass.enter(rt, turn) else {
        return;
    };
    held.state().tick();
    held.leave::<Ticked, _>(&());
}

/// So many turns.
pub fn run<R: Wait>(
    rt: &R,
    turn: &Turn<Count, Tick>,
    mut pass: Pass<Count, Tick>,
    turns: u64,
) -> Pass<Count, Tick>
    requires { IsPassOf tick_by turn.now pass }
    ensures pass { IsPassOf tick_by turn.now result }
    ensures same { (actor_of result ≡ actor_of pass) × (parent_of result ≡ parent_of pass)
        × (out_of result ≡ out_of pass) }
{
    for _ in 0..turns {
        turn_once(rt, turn, &mut pass);
    }
    pass
}

/// What a thread promises of the pass that it gives back.
#[derive(Drop)]
pub struct Ran(Snapshot<Pass<Count, Tick>>);

impl Promise<Pass<Count, Tick>> for Ran {
    ghost use Rattle.cd_turn.specs.Passes.{IsPass};
    ghost use Rattle.cd_turn.specs.Turns.{out_of, parent_of};
    ghost use Rattle.cd_turn_tests.specs.Ticks.{tick_by};
    ghost use Rattle.std.specs.Prelude.{◌≡◌};

    ghost kept_by = { λ p r. IsPass tick_by p.0.value.seat.table_id r.seat r.face
        × (parent_of r ≡ parent_of p.0.value) × (out_of r ≡ out_of p.0.value) };
}

/// A thread that has a pass.
pub type Running = PromisedHandle<Pass<Count, Tick>, Ran>;

/// Splits a pass off, and has it take so many turns in a thread of its own. None where there is no memory or no thread.
pub fn start<R: Threads + Wait, W: Wait + Send + Drop + 'static>(
    rt: &R,
    theirs: W,
    turn: &Arc<Turn<Count, Tick>, Global>,
    pass: &mut Pass<Count, Tick>,
    turns: u64,
) -> Option<Running>
    requires { IsPassOf tick_by (arc_value turn.now) pass.old }
    ensures pass { SameActor (arc_value turn.now) pass.old pass.new }
    ensures child { IfSome result (λ h. IsChild (arc_value turn.now) pass.old h.promise.0.value) }
{
    let Ok(there) = Arc::try_clone(turn) else {
        return None;
    };
    let Ok(child) = turn.split(rt, pass) else {
        return None;
    };
    let promise = Ran(Snapshot::of(&child));
    let job = move || -> Pass<Count, Tick>
        requires { IsPassOf tick_by (arc_value there) child }
    { run(&theirs, &there, child, turns) };
    spawn_with(rt, promise, job).ok()
}

/// Waits for a thread and joins its pass.
pub fn finish<R: Threads>(
    rt: &R,
    turn: &Turn<Count, Tick>,
    pass: &mut Pass<Count, Tick>,
    running: Running,
)
    requires pass { IsPassOf tick_by turn.now pass.old }
    requires child { IsChild turn.now pass.old running.promise.0.value }
    ensures same { SameActor turn.now pass.old pass.new }
    ensures out { out_of pass.new + 1 ≡ out_of pass.old }
{
    let child = running.join(rt);
    turn.join(pass, child);
}
