//! What a caller learns of the passes that it splits off.
ghost use Rattle.cd_turn.specs.Turns.{IsPassOf, view};
ghost use Rattle.cd_turn_tests.specs.Family.{IsChild, SameActor};
ghost use Rattle.cd_turn_tests.specs.Ticks.{tick_by};
ghost use Rattle.std.specs.Prelude.{IfNone, IfSome, Some, ◌<◌, ◌≡◌};

use crate::count::{Count, Tick};
use cd_turn::{Pass, Turn};
use std::sync::Wait;

/// A pass that counts.
pub type Counter = Pass<Count, Tick>;

/// Two passes that are split off from one. No two of the three have the same actor. None where the actors are used up.
pub fn split_two<R: Wait>(
    rt: &R,
    turn: &Turn<Count, Tick>,
    pass: &mut Counter,
) -> Option<(Counter, Counter)>
    requires { IsPassOf tick_by turn.now pass.old }
    ensures pass { SameActor turn.now pass.old pass.new }
    ensures first { IfSome result (λ t. IsChild turn.now pass.old t.0) }
    ensures second { IfSome result (λ t. IsChild turn.now pass.old t.1) }
    ensures above { IfSome result (λ t. (view pass.old).actor < (view t.0).actor) }
    ensures apart { IfSome result (λ t. (view t.0).actor < (view t.1).actor) }
    ensures spent { IfNone result ((view pass.new).over ≡ Some 2) }
{
    let Ok(first) = turn.split(rt, pass) else {
        return None;
    };
    let Ok(second) = turn.split(rt, pass) else {
        return None;
    };
    Some((first, second))
}
