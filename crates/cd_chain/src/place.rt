//! The next place of a chain under way: the rule whose matches hold next, or the default targets.
ghost use Rattle.cd_chain.specs.Frames.{at_defaults, behind_first, meets, next_in, next_place, runs, slot};
ghost use Rattle.cd_chain.specs.declared.data.Rule.{Rule};
ghost use Rattle.cd_value.specs.Identifier.{name_of};
ghost use Rattle.std.specs.Option.{option_copied};
ghost use Rattle.std.specs.Prelude.{◌≡◌, ◌<◌, drop, length, nat_lt, IfOk, slice_index_or};

use crate::frame::{Frame, slot};
use crate::{Chain, Rule, Rules};
use cd_match::{Matches, all_hold};
use cd_value::{DataSet, Memory, RateView, Rates, ValueList};
use std::alloc::Global;
use std::mem;

/// Whether a rule has targets, and all its matches hold.
fn does_run(
    alloc: Global,
    rule: &mut Rule,
    list: &ValueList,
    set: &DataSet,
    rates: Option<&Rates>,
    now: u64,
) -> Result<bool, Memory>
    ensures runs { IfOk result (λ found.
        found ≡ runs (meets set.now (option_copied rates.entry) now list.now) rule.old) }
    ensures same { rule.new ≡ rule.old }
{
    if rule.targets.is_empty() {
        return Ok(false);
    }
    let mut matches = mem::replace(&mut rule.matches, Matches::new(alloc)).into_vec();
    let verdict = all_hold(alloc, matches.as_mut_slice(), list, set, rates, now);
    rule.matches = Matches::from_vec(matches);
    verdict
}

/// The same for the rule of a number.
#[tactic(auto, using(crate::proofs::Places::put_back))]
fn does_run_at(
    alloc: Global,
    chain: &mut Chain,
    number: usize,
    list: &ValueList,
    set: &DataSet,
    rates: Option<&Rates>,
    now: u64,
) -> Result<bool, Memory>
    requires { number < length chain.old.rules }
    ensures runs { (rule : Rule) → IfOk result (λ found. found
        ≡ runs (meets set.now (option_copied rates.entry) now list.now)
        (slice_index_or chain.old.rules number rule)) }
    ensures same { chain.new ≡ chain.old }
{
    let mut rules = mem::replace(&mut chain.rules, Rules::new(alloc)).into_vec();
    let verdict = does_run(alloc, &mut rules[number], list, set, rates, now);
    chain.rules = Rules::from_vec(rules);
    verdict
}

/// How many rules have begun with the next one that runs, where so many have begun.
fn next_rule(
    alloc: Global,
    chain: &mut Chain,
    begun: usize,
    list: &ValueList,
    set: &DataSet,
    rates: Option<&Rates>,
    now: u64,
) -> Result<Option<usize>, Memory>
    ensures next { IfOk result (λ next. next
        ≡ behind_first (runs (meets set.now (option_copied rates.entry) now list.now)) begun
        (drop begun chain.old.rules)) }
    ensures same { chain.new ≡ chain.old }
{
    let count = chain.rules.len();
    for number in begun..count {
        let does_run = does_run_at(alloc, chain, number, list, set, rates, now)?;
        if does_run {
            return Ok(Some(number + 1));
        }
    }
    Ok(None)
}

/// The start of the default targets, where they haven't begun and there is one.
fn at_defaults(chain: &Chain, frame: Frame) -> Option<Frame>
    ensures { result ≡ at_defaults chain.now frame }
{
    let count = chain.rules.as_slice().len();
    if frame.begun <= count && !chain.defaults.is_empty() {
        Some(Frame {
            chain: frame.chain,
            begun: count + 1,
            target: 0,
        })
    } else {
        None
    }
}

/// Whether the place has a target.
fn has_target(chain: &Chain, frame: Frame) -> bool
    ensures { result ≡ nat_lt frame.target (length (slot chain.now frame.begun)) }
{
    frame.target < slot(chain, frame.begun).len()
}

/// The place of the next target of a chain.
fn next_in<V: RateView>(
    alloc: Global,
    chain: &mut Chain,
    frame: Frame,
    list: &ValueList,
    set: &DataSet,
    view: &V,
    now: u64,
) -> Result<Option<Frame>, Memory>
    ensures next { IfOk result (λ next. next
        ≡ next_in (meets set.now (V.rates_at view.now (name_of list.now.id)) now list.now)
        frame chain.old) }
    ensures same { chain.new ≡ chain.old }
{
    if has_target(chain, frame) {
        return Ok(Some(frame));
    }
    if frame.begun >= chain.rules.len() {
        return Ok(at_defaults(chain, frame));
    }
    let name = list.id.name(alloc)?;
    let rates = view.rates(&name);
    match next_rule(alloc, chain, frame.begun, list, set, rates, now)? {
        Some(begun) => Ok(Some(Frame {
            chain: frame.chain,
            begun,
            target: 0,
        })),
        None => Ok(at_defaults(chain, frame)),
    }
}

/// The place of the next target in a table.
#[tactic(auto, using(crate::proofs::Places::put_back))]
pub fn next_place<V: RateView>(
    alloc: Global,
    chains: &mut [Chain],
    frame: Frame,
    list: &ValueList,
    set: &DataSet,
    view: &V,
    now: u64,
) -> Result<Option<Frame>, Memory>
    ensures next { IfOk result (λ next. next
        ≡ next_place (meets set.now (V.rates_at view.now (name_of list.now.id)) now list.now)
        chains.old frame) }
    ensures same { chains.new ≡ chains.old }
{
    if frame.chain >= chains.len() {
        return Ok(None);
    }
    next_in(alloc, &mut chains[frame.chain], frame, list, set, view, now)
}
