//! The jumps of chains, by name and by number.
ghost use Rattle.std.specs.Prelude.{◌≡◌, ◌++◌, ◌∷◌, [], map, IfOk, OnOk};
ghost use Rattle.std.specs.List.{filter_map};
ghost use Rattle.cd_chain.specs.Chains.{number_of};
ghost use Rattle.cd_chain.specs.Tables.{jump_numbers, jump_of, jump_table, jumps_of};
ghost use Rattle.cd_walks.specs.Walks.{items_of};

use crate::Chain;
use cd_target::Target;
use cd_value::{Memory, Text};
use std::alloc::Global;

/// The number of the chain of a name.
pub fn position_of(chains: &[Chain], name: &str) -> Option<usize>
    ensures { result ≡ number_of name.now chains.now }
{
    chains.iter().position(|chain| chain.name.as_str() == name)
}

/// The number of the chain of a name.
pub fn number_of(chains: &[Chain], name: &Text) -> Option<usize>
    ensures { result ≡ number_of name.now chains.now }
{
    position_of(chains, name.as_str())
}

/// Puts the jump of a target behind others, where it is one.
fn push_jump<'a>(names: &mut Vec<&'a Text>, target: &'a Target) -> Result<(), Memory>
    ensures { OnOk result (map (λ name. name.now) names.new.items
        ≡ map (λ name. name.now) names.old.items ++ filter_map jump_of (target.now ∷ [])) }
{
    match target {
        Target::Jump(name) => {
            names.push(name)?;
            Ok(())
        }
        _ => Ok(()),
    }
}

/// Puts the jumps of targets behind others.
fn push_jumps<'a>(names: &mut Vec<&'a Text>, targets: &'a [Target]) -> Result<(), Memory>
    ensures { OnOk result (map (λ name. name.now) names.new.items
        ≡ map (λ name. name.now) names.old.items ++ filter_map jump_of targets.now) }
{
    for target in targets {
        push_jump(names, target)?;
    }
    Ok(())
}

/// The names to which a chain jumps, rule by rule and then through its default targets.
pub fn jumps_of(alloc: Global, chain: &Chain) -> Result<Vec<&Text>, Memory>
    ensures { IfOk result (λ names. map (λ name. name.now) names.items ≡ jumps_of chain.now) }
{
    let mut names = Vec::new(alloc);
    for rule in chain.rules.as_slice() {
        push_jumps(&mut names, rule.targets.as_slice())?;
    }
    push_jumps(&mut names, chain.defaults.as_slice())?;
    Ok(names)
}

/// Puts the number of the chain of a name behind others, where there is one.
fn push_number(numbers: &mut Vec<usize>, chains: &[Chain], name: &Text) -> Result<(), Memory>
    ensures { OnOk result (numbers.new.items ≡ numbers.old.items
        ++ filter_map (λ name. number_of name chains.now) (name.now ∷ [])) }
{
    match number_of(chains, name) {
        Some(number) => {
            numbers.push(number)?;
            Ok(())
        }
        None => Ok(()),
    }
}

/// The numbers of the chains of names, without those that have none.
fn numbers_of(alloc: Global, chains: &[Chain], names: &[&Text]) -> Result<Vec<usize>, Memory>
    ensures { IfOk result (λ numbers. numbers.items
        ≡ filter_map (λ name. number_of name chains.now) (map (λ name. name.now) names.now)) }
{
    let mut numbers = Vec::new(alloc);
    for name in names {
        push_number(&mut numbers, chains, name)?;
    }
    Ok(numbers)
}

/// The numbers of the chains to which a chain jumps.
fn jump_numbers(alloc: Global, chains: &[Chain], chain: &Chain) -> Result<Vec<usize>, Memory>
    ensures { IfOk result (λ numbers. numbers.items ≡ jump_numbers chains.now chain.now) }
{
    let names = jumps_of(alloc, chain)?;
    numbers_of(alloc, chains, names.as_slice())
}

/// For each chain the numbers of the chains to which it jumps.
#[tactic(auto, unfolding(crate::specs::Tables::jump_table))]
pub fn jump_table(alloc: Global, chains: &[Chain]) -> Result<Vec<Vec<usize>>, Memory>
    ensures { IfOk result (λ found. items_of found.items ≡ jump_table chains.now) }
{
    let mut found = Vec::new(alloc);
    for chain in chains {
        found.push(jump_numbers(alloc, chains, chain)?)?;
    }
    Ok(found)
}
