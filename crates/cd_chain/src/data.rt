//! Chains, and what they leave.
ghost use Rattle.cd_chain.specs.Chains.{ended, run_of};
ghost use Rattle.cd_chain.specs.declared.data.Verdict.TheVariants.{Continue};
ghost use Rattle.cd_value.specs.declared.data.ValueList.{ValueList};
ghost use Rattle.std.specs.Prelude.{◌≡◌};

use cd_match::Matches;
use cd_target::Target;
use cd_value::{Memory, Names, Notification, Sequence, Text, TryCopy, ValueList};
use std::alloc::Global;

/// The targets of a rule, or the default targets of a chain, in order.
pub type Targets = Sequence<Target>;
/// The rules of a chain, in order.
pub type Rules = Sequence<Rule>;
/// Chains, each of which is called by its number among them.
pub type Chains = Sequence<Chain>;
/// What a chain asks the daemon to do, in order.
pub type Actions = Sequence<Action>;

/// A rule of a chain: its targets run where all its matches hold.
#[derive(Drop)]
pub struct Rule {
    pub matches: Matches,
    pub targets: Targets,
}

/// A chain, as the block `<Chain>` of collectd.conf(5): its rules, and the targets that run after
/// them.
#[derive(Drop)]
pub struct Chain {
    pub name: Text,
    pub rules: Rules,
    pub defaults: Targets,
}

/// How a chain ended: at its end, by the target `return`, or by `stop`.
#[derive(Clone, Copy, Debug, PartialEq, Eq)]
pub enum Verdict {
    Continue,
    Return,
    Stop,
}

/// What a chain asks the daemon to do.
#[derive(Drop)]
pub enum Action {
    /// The list, as it was at this target, goes to the write plugins of these names, or to all where
    /// no name is given.
    Write { names: Names, list: ValueList },
    Notify(Notification),
}

/// What a chain leaves: how it ended, the list as it is then, and what is to be done, in order.
#[derive(Drop)]
pub struct Run {
    pub verdict: Verdict,
    pub list: ValueList,
    pub actions: Actions,
}

/// The same of a list that its owner keeps: there is another list only where a target of the chain may have changed it.
#[derive(Drop)]
pub struct Evaluated {
    pub verdict: Verdict,
    pub changed: Option<ValueList>,
    pub actions: Actions,
}

impl Evaluated {
    /// What there is without a chain: the list goes on as it is.
    pub fn nothing(alloc: Global) -> Evaluated
        ensures { (list : ValueList) → run_of list result ≡ ended Continue list }
    {
        Evaluated {
            verdict: Verdict::Continue,
            changed: None,
            actions: Actions::new(alloc),
        }
    }
}

/// Why a table of chains is refused. Chains and rules are called by their numbers.
#[derive(Drop, PartialEq, Eq)]
pub enum ChainFault {
    /// The first chain whose name an earlier one has.
    Duplicate(u64),
    /// The first chain that has a rule without a target, and its first such rule.
    EmptyRule(u64, u64),
    /// The first chain that jumps to no chain, and the name that its first such jump gives.
    UnknownChain(u64, Text),
    /// The walk by jumps from the least chain that reaches itself to itself, by the chains' names: a
    /// shortest one, and of these the one that has the least numbers, compared in order.
    JumpCycle(Names),
    /// The first chain that weighs more than 4,096. A target weighs 1, a jump 1 more than its
    /// chain, and a chain as much as all its targets.
    TooHeavy(u64),
    /// Memory was lacking.
    Memory,
}

impl TryCopy for ChainFault {
    fn copy(&self, alloc: Global) -> Result<ChainFault, Memory> {
        match self {
            ChainFault::Duplicate(chain) => Ok(ChainFault::Duplicate(*chain)),
            ChainFault::EmptyRule(chain, rule) => Ok(ChainFault::EmptyRule(*chain, *rule)),
            ChainFault::UnknownChain(chain, name) => {
                Ok(ChainFault::UnknownChain(*chain, name.copy(alloc)?))
            }
            ChainFault::JumpCycle(walk) => Ok(ChainFault::JumpCycle(walk.copy(alloc)?)),
            ChainFault::TooHeavy(chain) => Ok(ChainFault::TooHeavy(*chain)),
            ChainFault::Memory => Ok(ChainFault::Memory),
        }
    }
}
