//! Why a table of chains is refused.
ghost use Rattle.std.specs.Prelude.{◌≡◌, ◌==◌, ◌≤◌, ℕ, List, length, map, min, not, is_some, position, IfOk, option_copied};
ghost use Rattle.std.specs.List.{find};
ghost use Rattle.cd_chain.specs.Chains.{number_of, weight};
ghost use Rattle.cd_chain.specs.Tables.{empty_rule, fault_of, first_fault, heavy, jump_table, looped, name_at, repeated, unknown};
ghost use Rattle.cd_chain.specs.Weights.{looked_up};
ghost use Rattle.cd_walks.specs.Walks.{items_of};

use crate::jumps::{jump_table, jumps_of, number_of};
use crate::weigh::{GREATEST_WEIGHT, looked_up, weights_of};
use crate::{Chain, ChainFault, Rule};
use cd_value::{Memory, Names, Text, TryCopy};
use cd_walks::cycle_of;
use std::alloc::Global;

/// Whether an earlier chain has the name.
fn repeated_of(chains: &[Chain], n: usize, chain: &Chain) -> Option<ChainFault>
    requires { n ≤ length chains.now }
    ensures { result ≡ repeated chains.now n chain.now }
{
    if number_of(&chains[..n], &chain.name).is_some() {
        Some(ChainFault::Duplicate(n as u64))
    } else {
        None
    }
}

fn first_repeated(chains: &[Chain]) -> Option<ChainFault>
    ensures { result ≡ first_fault (repeated chains.now) 0 chains.now }
{
    for (n, chain) in chains.iter().enumerate() {
        if let Some(fault) = repeated_of(chains, n, chain) {
            return Some(fault);
        }
    }
    None
}

/// The number of the first rule without a target.
fn empty_in(rules: &[Rule]) -> Option<usize>
    ensures { result ≡ position (λ rule. length rule.targets == 0) rules.now }
{
    rules.iter().position(|rule| rule.targets.is_empty())
}

/// Whether a rule has no target.
fn empty_rule_of(n: usize, chain: &Chain) -> Option<ChainFault>
    ensures { result ≡ empty_rule n chain.now }
{
    match empty_in(chain.rules.as_slice()) {
        Some(rule) => Some(ChainFault::EmptyRule(n as u64, rule as u64)),
        None => None,
    }
}

fn first_empty_rule(chains: &[Chain]) -> Option<ChainFault>
    ensures { result ≡ first_fault empty_rule 0 chains.now }
{
    for (n, chain) in chains.iter().enumerate() {
        if let Some(fault) = empty_rule_of(n, chain) {
            return Some(fault);
        }
    }
    None
}

/// Whether no chain has the name.
fn is_unknown(chains: &[Chain], name: &Text) -> bool
    ensures { result ≡ not (is_some (number_of name.now chains.now)) }
{
    number_of(chains, name).is_none()
}

/// The first name that no chain has.
fn first_unknown_name<'a>(chains: &[Chain], names: &[&'a Text]) -> Option<&'a Text>
    ensures { option_copied result
        ≡ find (λ name. not (is_some (number_of name chains.now)))
        (map (λ name. name.now) names.now) }
{
    for name in names {
        if is_unknown(chains, name) {
            return Some(name);
        }
    }
    None
}

/// Whether a jump goes to no chain.
fn unknown_of(
    alloc: Global,
    chains: &[Chain],
    n: usize,
    chain: &Chain,
) -> Result<Option<ChainFault>, Memory>
    ensures { IfOk result (λ fault. fault ≡ unknown chains.now n chain.now) }
{
    let names = jumps_of(alloc, chain)?;
    match first_unknown_name(chains, names.as_slice()) {
        Some(name) => {
            let name = name.copy(alloc)?;
            Ok(Some(ChainFault::UnknownChain(n as u64, name)))
        }
        None => Ok(None),
    }
}

fn first_unknown(alloc: Global, chains: &[Chain]) -> Result<Option<ChainFault>, Memory>
    ensures { IfOk result (λ fault. fault ≡ first_fault (unknown chains.now) 0 chains.now) }
{
    for (n, chain) in chains.iter().enumerate() {
        if let Some(fault) = unknown_of(alloc, chains, n, chain)? {
            return Ok(Some(fault));
        }
    }
    Ok(None)
}

/// The name of the chain of a number.
fn name_at(alloc: Global, chains: &[Chain], n: usize) -> Result<Text, Memory>
    ensures { IfOk result (λ name. name ≡ name_at chains.now n) }
{
    match chains.get(n) {
        Some(chain) => chain.name.copy(alloc),
        None => Ok(Text::new(alloc)),
    }
}

fn names_at(alloc: Global, chains: &[Chain], walk: &[usize]) -> Result<Names, Memory>
    ensures { IfOk result (λ names. names ≡ map (name_at chains.now) walk.now) }
{
    let mut names = Names::new(alloc);
    for n in walk {
        names.push(name_at(alloc, chains, *n)?)?;
    }
    Ok(names)
}

/// Whether a chain reaches itself by jumps.
#[tactic(auto, unfolding(crate::specs::Tables::looped))]
fn looped_of(
    alloc: Global,
    chains: &[Chain],
    jumps: &[Vec<usize>],
) -> Result<Option<ChainFault>, Memory>
    requires { items_of jumps.now ≡ jump_table chains.now }
    ensures { IfOk result (λ fault. fault ≡ looped chains.now) }
{
    match cycle_of(alloc, jumps)? {
        Some(walk) => {
            let names = names_at(alloc, chains, walk.as_slice())?;
            Ok(Some(ChainFault::JumpCycle(names)))
        }
        None => Ok(None),
    }
}

/// Whether a chain weighs more than it may.
fn heavy_of(chains: &[Chain], weights: &[u64], n: usize, chain: &Chain) -> Option<ChainFault>
    requires { (name : List ℕ) →
        looked_up chains.now weights.now name ≡ min 4097 (weight chains.now name) }
    ensures { result ≡ heavy chains.now n chain.now }
{
    if looked_up(chains, weights, &chain.name) > GREATEST_WEIGHT {
        Some(ChainFault::TooHeavy(n as u64))
    } else {
        None
    }
}

fn first_heavy(
    alloc: Global,
    chains: &[Chain],
    jumps: &[Vec<usize>],
) -> Result<Option<ChainFault>, Memory>
    requires { items_of jumps.now ≡ jump_table chains.now }
    ensures { IfOk result (λ fault. fault ≡ first_fault (heavy chains.now) 0 chains.now) }
{
    let weights = weights_of(alloc, chains, jumps)?;
    for (n, chain) in chains.iter().enumerate() {
        if let Some(fault) = heavy_of(chains, weights.as_slice(), n, chain) {
            return Ok(Some(fault));
        }
    }
    Ok(None)
}

/// Why the table is refused, or none.
pub fn fault_of(alloc: Global, chains: &[Chain]) -> Result<Option<ChainFault>, Memory>
    ensures { IfOk result (λ fault. fault ≡ fault_of chains.now) }
{
    if let Some(fault) = first_repeated(chains) {
        return Ok(Some(fault));
    }
    if let Some(fault) = first_empty_rule(chains) {
        return Ok(Some(fault));
    }
    if let Some(fault) = first_unknown(alloc, chains)? {
        return Ok(Some(fault));
    }
    let jumps = jump_table(alloc, chains)?;
    if let Some(fault) = looped_of(alloc, chains, jumps.as_slice())? {
        return Ok(Some(fault));
    }
    first_heavy(alloc, chains, jumps.as_slice())
}
