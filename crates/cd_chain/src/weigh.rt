//! What chains weigh. Sums stop just above the greatest weight that a chain may have.
ghost use Rattle.std.specs.Prelude.{◌≡◌, ◌+◌, ◌≤◌, ℕ, true, List, length, min, map, IfOk, slice_index_or};
ghost use Rattle.std.specs.List.{sum_by};
ghost use Rattle.cd_chain.specs.Chains.{chain_weight, number_of, targets_of, weight};
ghost use Rattle.cd_chain.specs.Tables.{jump_table};
ghost use Rattle.cd_chain.specs.Weights.{AreWeights, looked_up};
ghost use Rattle.cd_walks.specs.Walks.{from, items_of};

use crate::Chain;
use crate::jumps::number_of;
use cd_value::{Memory, Text};
use std::alloc::Global;

/// The greatest weight that a chain may have.
pub const GREATEST_WEIGHT: u64 = 4096;
/// One more, at which sums stop.
const TOO_HEAVY: u64 = 4097;

/// The weight that stands at the chain of a name.
pub fn looked_up(chains: &[Chain], weights: &[u64], name: &Text) -> u64
    ensures { result ≡ looked_up chains.now weights.now name.now }
{
    match number_of(chains, name) {
        Some(number) => match weights.get(number) {
            Some(weight) => *weight,
            None => 0,
        },
        None => 0,
    }
}

/// The weight of a number.
fn weight_at(weights: &[u64], number: usize) -> u64
    ensures { result ≡ slice_index_or weights.now number 0 }
{
    match weights.get(number) {
        Some(weight) => *weight,
        None => 0,
    }
}

/// The numbers of the chains to which the chain of a number jumps.
fn jumps_at(jumps: &[Vec<usize>], number: usize) -> &[usize]
    ensures { result.now ≡ from (items_of jumps.now) number }
{
    match jumps.get(number) {
        Some(numbers) => numbers.as_slice(),
        None => &[],
    }
}

/// How many targets a chain has, at most so many.
fn target_count(chain: &Chain) -> u64
    ensures { result ≡ min 4097 (length (targets_of chain.now)) }
{
    let mut count = 0_u64;
    for rule in chain.rules.as_slice() {
        count = count
            .saturating_add(rule.targets.len() as u64)
            .min(TOO_HEAVY);
    }
    count
        .saturating_add(chain.defaults.len() as u64)
        .min(TOO_HEAVY)
}

/// A weight with those of the chains of numbers added, at most so much.
fn with_jumps(weight: u64, numbers: &[usize], weights: &[u64]) -> u64
    requires { weight ≤ 4097 }
    ensures { result
        ≡ min 4097 (weight + sum_by (λ n. slice_index_or weights.now n 0) numbers.now) }
{
    let mut sum = weight;
    for number in numbers {
        sum = sum
            .saturating_add(weight_at(weights, *number))
            .min(TOO_HEAVY);
    }
    sum
}

/// What a chain weighs, at most so much, by the weights of the others.
fn chain_weight(chain: &Chain, numbers: &[usize], weights: &[u64]) -> u64
    ensures { result ≡ min 4097
        (length (targets_of chain.now) + sum_by (λ n. slice_index_or weights.now n 0) numbers.now) }
{
    with_jumps(target_count(chain), numbers, weights)
}

/// The weights one jump deeper.
fn deeper(
    alloc: Global,
    chains: &[Chain],
    jumps: &[Vec<usize>],
    weights: &[u64],
) -> Result<Vec<u64>, Memory>
    requires { items_of jumps.now ≡ jump_table chains.now }
    ensures { IfOk result (λ new. new.items ≡ map
        (λ chain. min 4097 (chain_weight (looked_up chains.now weights.now) chain)) chains.now) }
{
    let mut new = Vec::with_capacity(alloc, chains.len())?;
    for (number, chain) in chains.iter().enumerate() {
        new.push(chain_weight(chain, jumps_at(jumps, number), weights))?;
    }
    Ok(new)
}

/// Whether they are the same weights.
fn are_same(weights: &[u64], others: &[u64]) -> bool
    ensures { result ≡ true → weights.now ≡ others.now }
{
    weights == others
}

/// What each chain weighs, at most so much. It ends one round after the longest walk.
pub fn weights_of(alloc: Global, chains: &[Chain], jumps: &[Vec<usize>]) -> Result<Vec<u64>, Memory>
    requires { items_of jumps.now ≡ jump_table chains.now }
    ensures { IfOk result (λ weights. (name : List ℕ) →
        looked_up chains.now weights.items name ≡ min 4097 (weight chains.now name)) }
{
    let mut weights = Vec::new(alloc);
    for _i in 0..chains.len() {
        let next = deeper(alloc, chains, jumps, weights.as_slice())?;
        if are_same(next.as_slice(), weights.as_slice()) {
            return Ok(next);
        }
        weights = next;
    }
    Ok(weights)
}
