//! The names of the cache: by the moment from which on they count as missing, and by their bytes.
ghost use Rattle.cd_cache.specs.Index.{due, has, has_name, is_same, names_in, pair_order};
ghost use Rattle.std.specs.List.Sorted.{IsStrictlySortedBy};
ghost use Rattle.std.specs.Map.Iter.{deref};
ghost use Rattle.std.specs.Prelude.{IfOk, List, OnErr, OnOk, [], cond, false, length, map, true, ℕ, ◌+◌, ◌<◌, ◌^◌, ◌≡◌, ◌≤◌};
ghost use Rattle.std.specs.Str.{bytes_eq};

use cd_value::{Memory, Text, TryCopy};
use std::alloc::Global;
use std::collections::BTreeSet;
use std::marker::Model;
use std::mem;

/// The names of the cache in two orders.
#[derive(Drop)]
pub(crate) struct Index {
    /// Each with its moment in 2^-30 s, by these moments.
    pairs: BTreeSet<(u128, Text)>,
    /// By their bytes.
    names: BTreeSet<Text>,
    /// Room for a pair that is asked for.
    asked: (u128, Text),
}

impl Model for Index {
    ghost use Rattle.cd_cache.specs.Index.{Orders};

    ghost Value = { Orders };

    ghost view = { λ index. record { pairs = index.pairs.keys; names = index.names.keys } };
}

impl Index {
    /// An index without names.
    pub(crate) fn new(alloc: Global) -> Index
        ensures { result ≡ record { pairs = []; names = [] } }
    {
        Index {
            pairs: BTreeSet::new(alloc),
            names: BTreeSet::new(alloc),
            asked: (0, Text::new(alloc)),
        }
    }

    /// The names in the order of their bytes.
    pub(crate) fn names(&self) -> &BTreeSet<Text>
        ensures { result.now.keys ≡ self.now.names }
    {
        &self.names
    }

    /// Puts in a name that it doesn't have, with its moment.
    pub(crate) fn add(&mut self, alloc: Global, at: u128, name: &Text) -> Result<(), Memory>
        requires { has_name self.old.names name.now ≡ false }
        ensures pairs { OnOk result ((q : ℕ × List ℕ) → has self.new.pairs q
            ≡ cond (is_same (at, name.now) q) true (has self.old.pairs q)) }
        ensures names { OnOk result ((q : List ℕ) → has_name self.new.names q
            ≡ cond (bytes_eq name.now q) true (has_name self.old.names q)) }
        ensures err { OnErr result (self.new ≡ self.old) }
    {
        let pair = (at, name.copy(alloc)?);
        self.names.insert(name.copy(alloc)?)?;
        if self.pairs.insert(pair).is_err() {
            self.names.remove(name);
            return Err(Memory);
        }
        Ok(())
    }

    /// Takes out a name and the pair of it with its moment.
    pub(crate) fn take_out(&mut self, pair: &(u128, Text))
        ensures pairs { (q : ℕ × List ℕ) →
            has self.new.pairs q ≡ cond (is_same pair.now q) false (has self.old.pairs q) }
        ensures names { (q : List ℕ) → has_name self.new.names q
            ≡ cond (bytes_eq pair.now.1 q) false (has_name self.old.names q) }
    {
        self.pairs.remove(pair);
        self.names.remove(&pair.1);
    }

    /// Gives a name another moment.
    pub(crate) fn shift(
        &mut self,
        alloc: Global,
        name: Text,
        from: u128,
        to: u128,
    ) -> Result<(), Memory>
        requires { has self.old.pairs (from, name) ≡ true }
        ensures ok { OnOk result ((q : ℕ × List ℕ) → has self.new.pairs q
            ≡ cond (is_same (to, name) q) true
            (cond (is_same (from, name) q) false (has self.old.pairs q))) }
        ensures names { self.new.names ≡ self.old.names }
        ensures err { OnErr result (self.new ≡ self.old) }
    {
        if from == to {
            return Ok(());
        }
        fill(alloc, &mut self.asked, from, &name)?;
        self.pairs.insert((to, name))?;
        self.pairs.remove(&self.asked);
        Ok(())
    }

    /// The names whose moment has come, in the order of their bytes, and how many pairs were looked
    /// at.
    pub(crate) fn lost(&self, alloc: Global, now: u64) -> Result<(BTreeSet<&Text>, u64), Memory>
        ensures names { IfOk result (λ lost. (q : List ℕ) →
            has_name (map deref lost.0.keys) q ≡ has_name (names_in (due now self.now.pairs)) q) }
        ensures looks { IfOk result (λ lost. lost.1 ≤ length (due now self.now.pairs) + 1) }
        ensures met { IfOk result (λ lost. length (due now self.now.pairs) ≤ lost.1) }
        ensures fits { IfOk result (λ lost. lost.1 < 2 ^ 63) }
        ensures pairs { IsStrictlySortedBy pair_order self.now.pairs }
    {
        let mut lost = BTreeSet::new(alloc);
        let mut looks = 0u64;
        for pair in &self.pairs {
            looks += 1;
            if pair.0 > u128::from(now) {
                return Ok((lost, looks));
            }
            lost.insert(&pair.1)?;
        }
        Ok((lost, looks))
    }
}

/// Makes a pair of a moment and a name in the room of another.
fn fill(alloc: Global, room: &mut (u128, Text), at: u128, name: &Text) -> Result<(), Memory>
    ensures { OnOk result (room.new ≡ (at, name.now)) }
{
    let mut string = mem::replace(&mut room.1, Text::new(alloc)).into_string();
    string.clear();
    string.push_str(name.as_str())?;
    *room = (at, Text::from_string(string));
    Ok(())
}
