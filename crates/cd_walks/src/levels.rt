//! Levels: the chains from which so many jumps lead to one, and those at which so long a walk begins.
ghost use Rattle.std.specs.Prelude.{◌≡◌, ◌<◌, Bool, false, List, map, length, slice_index, slice_index_or, IfOk, true};
ghost use Rattle.std.specs.List.{list_any};
ghost use Rattle.cd_walks.specs.Levels.{AreLevels, Marks, is_deep};
ghost use Rattle.cd_walks.specs.Walks.{cycle, items_of, leads};

use cd_value::Memory;
use std::alloc::Global;

/// Whether a chain is marked.
pub fn is_marked(marks: &[bool], chain: usize) -> bool
    ensures { result ≡ slice_index_or marks.now chain false }
{
    match marks.get(chain) {
        Some(mark) => *mark,
        None => false,
    }
}

/// Whether one of the chains is marked.
fn is_any_marked(marks: &[bool], chains: &[usize]) -> bool
    ensures { result ≡ list_any (λ chain. slice_index_or marks.now chain false) chains.now }
{
    chains.iter().any(|chain| is_marked(marks, *chain))
}

/// Marks the chains that jump to a marked one.
fn before(alloc: Global, jumps: &[Vec<usize>], marks: &[bool]) -> Result<Vec<bool>, Memory>
    ensures { IfOk result (λ new. new.items
        ≡ map (λ chains. list_any (λ chain. slice_index_or marks.now chain false) chains.items)
        jumps.now) }
{
    let new = jumps.iter().map(|chains| is_any_marked(marks, chains));
    Ok(new.collect(alloc)?)
}

/// Marks the chain from which no jump leads to one: itself.
fn first_level(alloc: Global, jumps: &[Vec<usize>], to: usize) -> Result<Vec<bool>, Memory>
    requires { to < length jumps.now }
    ensures { IfOk result (λ level. Marks (leads (items_of jumps.now) to 0) level.items) }
{
    let mut level = Vec::with_capacity(alloc, jumps.len())?;
    for chain in 0..jumps.len() {
        level.push(to == chain)?;
    }
    Ok(level)
}

/// The levels of fewer than so many jumps: at each number the chains from which so many lead to
/// one.
pub fn levels_of(
    alloc: Global,
    jumps: &[Vec<usize>],
    to: usize,
    count: usize,
) -> Result<Vec<Vec<bool>>, Memory>
    requires { to < length jumps.now }
    ensures many { IfOk result (λ levels. length levels.items ≡ count) }
    ensures are { IfOk result (λ levels. AreLevels (items_of jumps.now) to levels.items) }
{
    let mut levels = Vec::with_capacity(alloc, count)?;
    let mut level = first_level(alloc, jumps, to)?;
    for _n in 0..count {
        let next = before(alloc, jumps, level.as_slice())?;
        levels.push(level)?;
        level = next;
    }
    Ok(levels)
}

/// Marks each chain: a walk of no jump begins there.
fn all_chains(alloc: Global, jumps: &[Vec<usize>]) -> Result<Vec<bool>, Memory>
    ensures { IfOk result (λ deep. Marks (is_deep (items_of jumps.now) 0) deep.items) }
{
    let mut deep = Vec::with_capacity(alloc, jumps.len())?;
    for _n in 0..jumps.len() {
        deep.push(true)?;
    }
    Ok(deep)
}

/// Whether some chain is marked.
fn has_marked(marks: &[bool]) -> bool
    ensures { result ≡ list_any (λ mark. mark) marks.now }
{
    marks.iter().any(|mark| *mark)
}

/// Whether a chain may reach itself. This takes as many rounds as a longest walk has jumps.
pub fn may_loop(alloc: Global, jumps: &[Vec<usize>]) -> Result<bool, Memory>
    ensures { IfOk result (λ may. may ≡ false → cycle (items_of jumps.now) ≡ None) }
{
    let mut deep = all_chains(alloc, jumps)?;
    for _n in 0..jumps.len() {
        deep = before(alloc, jumps, deep.as_slice())?;
        if !has_marked(deep.as_slice()) {
            return Ok(false);
        }
    }
    Ok(true)
}
