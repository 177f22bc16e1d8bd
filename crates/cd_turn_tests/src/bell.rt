//! A state of this crate that holds an object of any, which may be a box, over entries of another crate: an entry is a
//! `u64`, the number of who rang.
ghost use Rattle.cd_turn.specs.Turns.{IsPassOf, actor_of, out_of, parent_of};
ghost use Rattle.cd_turn_tests.specs.Towers.{rung_by};
ghost use Rattle.std.specs.Prelude.{◌%◌, ◌+◌, ◌^◌, ◌≡◌};
ghost use Rattle.std.specs.Thread.{IsSync};

use cd_turn::{Pass, Story, Tells, Turn};
use std::alloc::Global;
use std::sync::Wait;
use std::thread::{Threads, join};

/// Something that is rung.
pub trait Bell: Drop {
    /// Rings once.
    fn ring(&mut self);
}

impl Bell for Box<dyn Bell + Send> {
    fn ring(&mut self) {
        (**self).ring();
    }
}

/// A bell, and how often it was rung, wrapping.
#[derive(Drop)]
pub struct Tower<B> {
    pub rung: u64,
    pub bell: B,
}

impl<B> Story<u64> for Tower<B> {
    ghost use Rattle.cd_turn_tests.specs.Towers.{Rung, rung_by};

    type Fixed = ();

    ghost actor = { rung_by };

    ghost fixed = { λ t. tt };

    ghost stands = { Rung };
}

/// A turn tells nothing but who rang.
pub struct Rings;

impl Tells<(), u64> for Rings {
    ghost entry = { λ actor x. actor };
}

impl<B: Bell> Tower<B> {
    /// Rings once.
    fn ring(&mut self)
        ensures { self.new.rung ≡ (self.old.rung + 1) % 2 ^ 64 }
    {
        self.bell.ring();
        self.rung = self.rung.wrapping_add(1);
    }
}

/// One turn, in which the bell is rung.
pub fn ring_once<R: Wait, B: Bell>(
    rt: &R,
    turn: &Turn<Tower<B>, u64>,
    mut pass: Pass<Tower<B>, u64>,
) -> Pass<Tower<B>, u64>
    requires { IsPassOf rung_by turn.now pass }
    ensures pass { IsPassOf rung_by turn.now result }
    ensures same { (actor_of result ≡ actor_of pass) × (parent_of result ≡ parent_of pass)
        × (out_of result ≡ out_of pass) }
{
    if let Ok(mut held) = pass.enter(rt, turn) {
        held.state().ring();
        held.leave::<Rings, _>(&());
    }
    pass
}

/// Two threads ring a bell once each.
pub fn ring_twice<R: Threads + Wait + Sync, B: Bell + Send>(
    rt: &R,
    alloc: Global,
    bell: B,
) -> Option<Tower<B>> {
    let Ok((turn, mut pass)) = Turn::new(alloc, Tower { rung: 0, bell }) else {
        return None;
    };
    let child = turn.split(rt, &mut pass).ok()?;
    let shared = &turn;
    let (mut pass, child) = join(
        rt,
        || -> Pass<Tower<B>, u64>
            requires { IsSync R.row × IsPassOf rung_by shared.now pass }
            ensures pass { IsPassOf rung_by shared.entry.now result }
            ensures same { (actor_of result ≡ actor_of pass) × (out_of result ≡ out_of pass) }
        { ring_once(rt, shared, pass) },
        || -> Pass<Tower<B>, u64>
            requires { IsSync R.row × IsPassOf rung_by shared.now child }
            ensures pass { IsPassOf rung_by shared.entry.now result }
            ensures same { (parent_of result ≡ parent_of child) × (out_of result ≡ out_of child) }
        { ring_once(rt, shared, child) },
    );
    turn.join(&mut pass, child);
    Some(turn.close(pass))
}
