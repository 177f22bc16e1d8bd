//! How many jumps a chain needs to come back to itself. Rounds mark the chains from which at most
//! so many jumps lead to it, and end when a round marks no further one.
ghost use Rattle.std.specs.Prelude.{◌≡◌, ◌||◌, Bool, false, List, map, nat_eq, slice_index_or, IfOk, true};
ghost use Rattle.std.specs.List.{list_any};
ghost use Rattle.cd_walks.specs.Walks.{items_of, round};

use crate::levels::is_marked;
use cd_value::Memory;
use std::alloc::Global;

/// Whether a chain is the one sought, or marked.
fn is_near(marks: &[bool], to: usize, chain: usize) -> bool
    ensures { result ≡ (nat_eq to chain || slice_index_or marks.now chain false) }
{
    to == chain || is_marked(marks, chain)
}

/// Whether one of the chains is the one sought, or marked.
fn is_any_near(marks: &[bool], to: usize, chains: &[usize]) -> bool
    ensures { result
        ≡ list_any (λ chain. nat_eq to chain || slice_index_or marks.now chain false) chains.now }
{
    chains.iter().any(|chain| is_near(marks, to, *chain))
}

/// Marks the chains that jump to the one sought, or to a marked one.
fn nearer(
    alloc: Global,
    jumps: &[Vec<usize>],
    to: usize,
    marks: &[bool],
) -> Result<Vec<bool>, Memory>
    ensures { IfOk result (λ new. new.items
        ≡ map (λ chains.
        list_any (λ chain. nat_eq to chain || slice_index_or marks.now chain false) chains.items)
        jumps.now) }
{
    let new = jumps.iter().map(|chains| is_any_near(marks, to, chains));
    Ok(new.collect(alloc)?)
}

/// Whether they are the same marks.
fn are_same(marks: &[bool], others: &[bool]) -> bool
    ensures { result ≡ true → marks.now ≡ others.now }
{
    marks == others
}

/// The number of jumps on a shortest walk from a chain to itself.
pub fn round_of(alloc: Global, jumps: &[Vec<usize>], chain: usize) -> Result<Option<usize>, Memory>
    ensures { IfOk result (λ count. count ≡ round (items_of jumps.now) chain) }
{
    let mut marks = Vec::new(alloc);
    for n in 0..jumps.len() {
        let next = nearer(alloc, jumps, chain, marks.as_slice())?;
        if is_marked(next.as_slice(), chain) {
            return Ok(Some(n + 1));
        }
        if are_same(next.as_slice(), marks.as_slice()) {
            return Ok(None);
        }
        marks = next;
    }
    Ok(None)
}
