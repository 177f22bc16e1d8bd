//! The walk of the least chain that reaches itself.
ghost use Rattle.std.specs.Prelude.{◌≡◌, ◌<◌, ◌&&◌, Bool, false, List, length, nat_eq, slice_index_or, IfOk};
ghost use Rattle.std.specs.Prelude.{IfSome, None, ℕ};
ghost use Rattle.std.specs.List.{find, list_any, range_with_len};
ghost use Rattle.std.specs.Option.{option_map};
ghost use Rattle.cd_walks.specs.Walks.{IsFree, IsLeastCycle, cycle, items_of, walk};

use crate::levels::{is_marked, levels_of, may_loop};
use crate::near::round_of;
use cd_value::Memory;
use std::alloc::Global;

/// Whether the chain is among them.
fn is_among(chains: &[usize], chain: usize) -> bool
    ensures { result ≡ list_any (nat_eq chain) chains.now }
{
    chains.iter().any(|other| chain == *other)
}

/// Whether the chain is among them and marked.
fn is_next(chains: &[usize], marks: &[bool], chain: usize) -> bool
    ensures { result
        ≡ (list_any (nat_eq chain) chains.now && slice_index_or marks.now chain false) }
{
    is_among(chains, chain) && is_marked(marks, chain)
}

/// The least of the chains below a number that is marked.
fn next_of(chains: &[usize], marks: &[bool], count: usize) -> Option<usize>
    ensures { result
        ≡ find (λ chain. list_any (nat_eq chain) chains.now && slice_index_or marks.now chain false)
        (range_with_len 0 count) }
{
    for chain in 0..count {
        if is_next(chains, marks, chain) {
            return Some(chain);
        }
    }
    None
}

/// The walk from one chain to another of so many jumps that has the least numbers.
fn walk_of(
    alloc: Global,
    jumps: &[Vec<usize>],
    to: usize,
    count: usize,
    start: usize,
) -> Result<Vec<usize>, Memory>
    requires to_within { to < length jumps.now }
    requires start_within { start < length jumps.now }
    ensures { IfOk result (λ found. found.items ≡ walk (items_of jumps.now) to count start) }
{
    let mut levels = levels_of(alloc, jumps, to, count)?;
    let mut walk = Vec::new(alloc);
    let mut at = start;
    while let Some(level) = levels.pop() {
        walk.push(at)?;
        let chains = jumps[at].as_slice();
        let Some(next) = next_of(chains, level.as_slice(), jumps.len()) else {
            return Ok(walk);
        };
        at = next;
    }
    walk.push(at)?;
    Ok(walk)
}

/// The walk that `cycle_of` gives.
fn least_cycle(alloc: Global, jumps: &[Vec<usize>]) -> Result<Option<Vec<usize>>, Memory>
    ensures { IfOk result (λ found.
        option_map (λ walk. walk.items) found ≡ cycle (items_of jumps.now)) }
{
    if !may_loop(alloc, jumps)? {
        return Ok(None);
    }
    for chain in 0..jumps.len() {
        if let Some(count) = round_of(alloc, jumps, chain)? {
            return Ok(Some(walk_of(alloc, jumps, chain, count, chain)?));
        }
    }
    Ok(None)
}

/// The walk by jumps from the least chain that reaches itself to itself: a shortest one, and of
/// these the one that has the least numbers, compared in order. `jumps` has for each chain, by its
/// number, the numbers of the chains to which it jumps; there may be numbers that no chain has.
/// There is no walk exactly where no chain reaches itself.
pub fn cycle_of(alloc: Global, jumps: &[Vec<usize>]) -> Result<Option<Vec<usize>>, Memory>
    ensures value { IfOk result (λ found.
        option_map (λ walk. walk.items) found ≡ cycle (items_of jumps.now)) }

    // What this is, with no word of how it is found.
    ensures free { IfOk result (λ found. found ≡ None → IsFree (items_of jumps.now)) }
    ensures least { IfOk result (λ found. IfSome found (λ walk.
        (chain : ℕ) × (n : ℕ) × IsLeastCycle (items_of jumps.now) chain n walk.items)) }
{
    least_cycle(alloc, jumps)
}
