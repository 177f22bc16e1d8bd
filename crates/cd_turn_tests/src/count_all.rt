//! What the state counts where all passes are joined again.
ghost use Rattle.cd_turn.specs.History.{mine_of};
ghost use Rattle.cd_turn.specs.Turns.{IsPassOf, view};
ghost use Rattle.cd_turn_tests.specs.Family.{SameActor};
ghost use Rattle.cd_turn_tests.specs.Ticks.{tick_by};
ghost use Rattle.cd_turn_tests.specs.declared.count.Tick.{Tick as Ticks};
ghost use Rattle.std.specs.Arc.{arc_value};
ghost use Rattle.std.specs.Prelude.{IfSome, List, [], length, ◌%◌, ◌^◌, ◌≡◌};

use crate::count::{Count, Tick};
use crate::worker::{finish, start};
use cd_turn::{Pass, Turn};
use std::alloc::Global;
use std::sync::{Arc, Wait};
use std::thread::Threads;

/// Four passes in threads of their own, joined in the order in which they were split off.
fn four<R: Threads + Wait, W: Wait + Copy + Send + Drop + 'static>(
    rt: &R,
    theirs: W,
    turn: &Arc<Turn<Count, Tick>, Global>,
    pass: &mut Pass<Count, Tick>,
    turns: u64,
) -> Option<()>
    requires { IsPassOf tick_by (arc_value turn.now) pass.old }
    ensures { SameActor (arc_value turn.now) pass.old pass.new }
{
    let first = start(rt, theirs, turn, pass, turns)?;
    let second = start(rt, theirs, turn, pass, turns)?;
    let third = start(rt, theirs, turn, pass, turns)?;
    let fourth = start(rt, theirs, turn, pass, turns)?;
    finish(rt, turn, pass, first);
    finish(rt, turn, pass, second);
    finish(rt, turn, pass, third);
    finish(rt, turn, pass, fourth);
    Some(())
}

/// So many passes in threads of their own, all joined.
fn family<R: Threads + Wait, W: Wait + Copy + Send + Drop + 'static>(
    rt: &R,
    theirs: W,
    turn: &Arc<Turn<Count, Tick>, Global>,
    pass: &mut Pass<Count, Tick>,
    threads: u64,
    turns: u64,
) -> Option<()>
    requires { IsPassOf tick_by (arc_value turn.now) pass.old }
    ensures { SameActor (arc_value turn.now) pass.old pass.new }
{
    if threads == 0 {
        return Some(());
    }
    let running = start(rt, theirs, turn, pass, turns)?;
    let others = family(rt, theirs, turn, pass, threads - 1, turns);
    finish(rt, turn, pass, running);
    others
}

/// The state at the end, where nobody else has the turn and no pass is out.
fn end(turn: Arc<Turn<Count, Tick>, Global>, pass: Pass<Count, Tick>) -> Option<u64>
    requires pass { IsPassOf tick_by (arc_value turn) pass }
    requires mine { ((view pass).actor ≡ 0) × ((view pass).mine ≡ []) }
    ensures { IfSome result (λ n. (log : List Ticks)
        × (n ≡ length log % 2 ^ 64) × (mine_of tick_by 0 log ≡ [])) }
{
    let Ok(turn) = Arc::try_unwrap(turn) else {
        return None;
    };
    if pass.actor() != 0 || pass.out() != 0 {
        return None;
    }
    Some(turn.close(pass).count)
}

/// How many turns four threads took with so many turns each. The history has as many entries, none of them by the pass
/// that split the others off.
pub fn count_of_four<R: Threads + Wait, W: Wait + Copy + Send + Drop + 'static>(
    rt: &R,
    theirs: W,
    alloc: Global,
    turns: u64,
) -> Option<u64>
    ensures { IfSome result (λ n. (log : List Ticks)
        × (n ≡ length log % 2 ^ 64) × (mine_of tick_by 0 log ≡ [])) }
{
    let Ok((turn, mut pass)) = Turn::new(alloc, Count { count: 0 }) else {
        return None;
    };
    let Ok(turn) = Arc::new(alloc, turn) else {
        return None;
    };
    four(rt, theirs, &turn, &mut pass, turns)?;
    end(turn, pass)
}

/// The same with any number of threads.
pub fn count_of_family<R: Threads + Wait, W: Wait + Copy + Send + Drop + 'static>(
    rt: &R,
    theirs: W,
    alloc: Global,
    threads: u64,
    turns: u64,
) -> Option<u64>
    ensures { IfSome result (λ n. (log : List Ticks)
        × (n ≡ length log % 2 ^ 64) × (mine_of tick_by 0 log ≡ [])) }
{
    let Ok((turn, mut pass)) = Turn::new(alloc, Count { count: 0 }) else {
        return None;
    };
    let Ok(turn) = Arc::new(alloc, turn) else {
        return None;
    };
    family(rt, theirs, &turn, &mut pass, threads, turns)?;
    end(turn, pass)
}
