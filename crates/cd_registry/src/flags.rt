//! Flags in order, of which the first that is up is found at once.
ghost use Rattle.std.specs.Prelude.{OnErr, OnOk, [], false, length, position, slice_set, true, ◌++◌, ◌+◌, ◌<◌, ◌∷◌, ◌≡◌, ◌≤◌};

use cd_value::Memory;
use memchr::memchr;
use std::alloc::Global;
use std::marker::Model;

/// A flag for each number from 0 on. It is a byte, so that the first one that is up is found by a search for a byte.
#[derive(Drop)]
pub struct Flags {
    bytes: Vec<u8>,
}

impl Model for Flags {
    ghost use Rattle.cd_registry.specs.Flags.{FlagList};
    ghost use Rattle.std.specs.Prelude.{Bool, List, map, ℕ, ◌-◌, ◌==◌};
    ghost use Rattle.std.specs.Vec.{vec_capacity, vec_len};

    ghost Value = { FlagList };

    ghost view = { λ flags. record {
      flags = map (λ byte. byte == 1) flags.bytes.items;
      spare = vec_capacity flags.bytes - vec_len flags.bytes;
    } };
}

impl Flags {
    /// No flag.
    pub fn new(alloc: Global) -> Flags
        ensures { result.flags ≡ [] }
    {
        Flags {
            bytes: Vec::new(alloc),
        }
    }

    /// Makes room for one more.
    pub fn reserve(&mut self) -> Result<(), Memory>
        ensures ok { OnOk result (1 ≤ self.new.spare) }
        ensures flags { self.new.flags ≡ self.old.flags }
    {
        self.bytes.reserve(1)?;
        Ok(())
    }

    /// Puts one more behind, that is down.
    pub fn push(&mut self)
        requires { 1 ≤ self.old.spare }
        ensures { self.new.flags ≡ self.old.flags ++ false ∷ [] }
    {
        self.bytes.push_reserved(0);
    }

    /// Puts the flag of a number up or down.
    pub fn set(&mut self, number: usize, up: bool)
        requires { number < length self.old.flags }
        ensures { self.new.flags ≡ slice_set self.old.flags number up }
    {
        self.bytes[number] = u8::from(up);
    }

    /// The number of the first that is up.
    pub fn first(&self) -> Option<usize>
        ensures { result ≡ position (λ up. up) self.now.flags }
    {
        memchr(1, &self.bytes)
    }
}
