//! What is in force in a walk.
ghost use Rattle.cd_daemon.specs.Answers.{limits_of};
ghost use Rattle.cd_queue.specs.Drops.{AreInOrder};
ghost use Rattle.std.specs.Prelude.{IfOk};

use crate::names::{NAMED_HOST, NAMED_WRITER, NOBODY, STOPPED_HOST, TYPES};
use cd_chain::{Chain, ChainTable, Rule};
use cd_globals::Globals;
use cd_match::{Match, RegexMatch};
use cd_pattern::Field;
use cd_target::Target;
use cd_types::TypesDb;
use cd_value::{Memory, Names, Sequence, Text, ValueList};
use std::alloc::Global;

/// `Timeout`.
pub const TIMEOUT: u32 = 2;
/// `WriteQueueLimitHigh`.
pub const HIGH: u32 = 40;
/// `WriteQueueLimitLow`.
pub const LOW: u32 = 20;

/// Whether there is a chain before and one behind the cache. The one before it stops the lists of one host; the one
/// behind it writes those of another to two writers, of whom one is never there, and then each list to all.
#[derive(Clone, Copy, PartialEq, Eq)]
pub enum Filters {
    Absent,
    Present,
}

impl Filters {
    /// Whether there are chains, and a list is of that host.
    pub fn has_host(self, list: &ValueList, host: &str) -> bool {
        self == Filters::Present && list.id.host.as_str() == host
    }

    /// The numbers of the chains before and behind the cache.
    pub fn numbers(self) -> (Option<u64>, Option<u64>) {
        match self {
            Filters::Absent => (None, None),
            Filters::Present => (Some(0), Some(1)),
        }
    }

    /// The chains.
    pub fn table(self, alloc: Global) -> Result<ChainTable, Memory> {
        let mut chains = Sequence::new(alloc);
        if self == Filters::Present {
            chains.push(chain_before(alloc)?)?;
            chains.push(chain_behind(alloc)?)?;
        }
        match ChainTable::build(alloc, chains) {
            Ok(table) => Ok(table),
            Err(_) => Err(Memory),
        }
    }
}

fn chain_before(alloc: Global) -> Result<Chain, Memory> {
    let mut rules = Sequence::new(alloc);
    rules.push(rule_of(alloc, STOPPED_HOST, Target::Stop)?)?;
    Ok(Chain {
        name: Text::of(alloc, "PreCache")?,
        rules,
        defaults: Sequence::new(alloc),
    })
}

fn chain_behind(alloc: Global) -> Result<Chain, Memory> {
    let mut writers = Names::new(alloc);
    writers.push(Text::of(alloc, NAMED_WRITER)?)?;
    writers.push(Text::of(alloc, NOBODY)?)?;
    let mut rules = Sequence::new(alloc);
    rules.push(rule_of(alloc, NAMED_HOST, Target::Write(writers))?)?;
    let mut defaults = Sequence::new(alloc);
    defaults.push(Target::Write(Names::new(alloc)))?;
    Ok(Chain {
        name: Text::of(alloc, "PostCache")?,
        rules,
        defaults,
    })
}

/// The rule that a target is for the lists of a host.
fn rule_of(alloc: Global, host: &str, target: Target) -> Result<Rule, Memory> {
    let pattern = Text::from_string(format!(in alloc; "^{host}$")?);
    let mut patterns = Sequence::new(alloc);
    patterns.push((Field::Host, pattern))?;
    let Ok(host_match) = RegexMatch::new(alloc, patterns, false) else {
        return Err(Memory);
    };
    let mut matches = Sequence::new(alloc);
    matches.push(Match::Regex(host_match))?;
    let mut targets = Sequence::new(alloc);
    targets.push(target)?;
    Ok(Rule { matches, targets })
}

/// The types.
pub fn types(alloc: Global) -> Result<TypesDb, Memory> {
    match TypesDb::read_text(alloc, TYPES.as_bytes()) {
        Ok(types) => Ok(types),
        Err(_) => Err(Memory),
    }
}

/// The settings of the whole daemon.
pub fn globals(alloc: Global) -> Result<Globals, Memory>
    ensures { IfOk result (λ globals. AreInOrder (limits_of globals)) }
{
    let mut globals = Globals::defaults(alloc)?;
    globals.timeout = TIMEOUT;
    globals.high = HIGH;
    globals.low = LOW;
    Ok(globals)
}
