//! What a run of a chain costs. With three words, RULES, LISTS and TIMES, it runs a chain of that many rules over so
//! many lists in turn, so often, and prints the processor time of a run. Each rule has one regex match, which is asked
//! and does not hold; the default target is a write. Without words it prints nothing. It stands on cd_chain, with the
//! matches, the targets, the values and `anyhow`; its handles are the words, the clock of processor time and standard
//! output. It has no spec files: read `specs/Chains.antt` of cd_chain. A change begins at `rule_of`.
#![tactic(auto)]

use cd_chain::{Chain, ChainTable, Rule, Targets};
use cd_match::{Match, Matches, Patterns, RegexMatch};
use cd_pattern::Field;
use cd_target::Target;
use cd_value::{
    DataSet, DataSource, DsType, Identifier, Lists, Memory, Names, RateView, Rates, SECOND,
    Sequence, Text, Value, ValueList,
};
use std::alloc::Global;
use std::env;
use std::rt::CpuClock;

/// No rates under any name.
struct NoRates;

impl RateView for NoRates {
    ghost use Rattle.std.specs.Prelude.{None};

    ghost rates_at = { λ view name. None };

    fn rates(&self, _name: &Text) -> Option<&Rates> {
        None
    }
}

/// A rule of a number, that stops the lists of a type instance that none has.
fn rule_of(alloc: Global, number: u64) -> Result<Rule, Memory> {
    let mut patterns = Patterns::new(alloc);
    let pattern = Text::from_string(format!(in alloc; "^show_(tables|status){number}$")?);
    patterns.push((Field::TypeInstance, pattern))?;
    let Ok(test) = RegexMatch::new(alloc, patterns, false) else {
        return Err(Memory);
    };
    let mut matches = Matches::new(alloc);
    matches.push(Match::Regex(test))?;
    let mut targets = Targets::new(alloc);
    targets.push(Target::Stop)?;
    Ok(Rule { matches, targets })
}

/// A table of one chain with that many rules, and a write behind them.
fn table_of(alloc: Global, rules: u64) -> Result<ChainTable, Memory> {
    let mut chain = Chain {
        name: Text::of(alloc, "PostCache")?,
        rules: Sequence::new(alloc),
        defaults: Sequence::new(alloc),
    };
    for number in 0..rules {
        chain.rules.push(rule_of(alloc, number)?)?;
    }
    chain.defaults.push(Target::Write(Names::new(alloc)))?;
    let mut chains = Sequence::new(alloc);
    chains.push(chain)?;
    ChainTable::build(alloc, chains).map_err(|_| Memory)
}

/// A list of a number.
fn list_of(alloc: Global, number: u64) -> Result<ValueList, Memory> {
    let name = format!(in alloc; "web1.example.com/mysql-main/mysql_commands-command_{number}")?;
    let Ok(id) = Identifier::read(alloc, name.as_str()) else {
        return Err(Memory);
    };
    let mut values = Sequence::new(alloc);
    values.push(Value::Derive(7))?;
    Ok(ValueList {
        id,
        time: SECOND,
        interval: SECOND,
        values,
    })
}

fn lists_of(alloc: Global, lists: u64) -> Result<Lists, Memory> {
    let mut all = Lists::new(alloc);
    for number in 0..lists {
        all.push(list_of(alloc, number)?)?;
    }
    Ok(all)
}

/// The type of the lists.
fn set_of(alloc: Global) -> Result<DataSet, Memory> {
    let mut sources = Sequence::new(alloc);
    sources.push(DataSource {
        name: Text::of(alloc, "value")?,
        kind: DsType::Derive,
        min: None,
        max: None,
    })?;
    Ok(DataSet {
        name: Text::of(alloc, "mysql_commands")?,
        sources,
    })
}

/// Runs the first chain over each list, and says how many actions there were.
fn run_over(alloc: Global, table: &mut ChainTable, lists: &[ValueList], set: &DataSet) -> u64 {
    let mut actions = 0u64;
    for list in lists {
        actions = actions.wrapping_add(actions_of(alloc, table, list, set));
    }
    actions
}

/// How many actions a run of the first chain has.
fn actions_of(alloc: Global, table: &mut ChainTable, list: &ValueList, set: &DataSet) -> u64 {
    if table.is_empty() {
        return 0;
    }
    match table.run(alloc, 0, list, set, &NoRates, SECOND) {
        Ok(run) => run.actions.len() as u64,
        Err(_) => 0,
    }
}

/// Runs the chain over the lists so often, and says how many actions there were.
fn run_often(
    alloc: Global,
    table: &mut ChainTable,
    lists: &[ValueList],
    set: &DataSet,
    times: u64,
) -> u64 {
    let mut actions = 0u64;
    for _ in 0..times {
        actions = actions.wrapping_add(run_over(alloc, table, lists, set));
    }
    actions
}

fn main(rt: HostRuntime) -> anyhow::Result<()> {
    let alloc = rt.alloc();
    let mut words = env::args(&rt)?.skip(1);
    let (Some(rules), Some(lists), Some(times)) = (words.next(), words.next(), words.next()) else {
        return Ok(());
    };
    let (rules, lists, times) = (rules.parse()?, lists.parse::<u64>()?, times.parse::<u64>()?);
    let mut table = table_of(alloc, rules).map_err(|_| anyhow::anyhow!("no memory"))?;
    let all = lists_of(alloc, lists).map_err(|_| anyhow::anyhow!("no memory"))?;
    let set = set_of(alloc).map_err(|_| anyhow::anyhow!("no memory"))?;
    run_over(alloc, &mut table, all.as_slice(), &set);
    let start = rt.process_cpu_time()?;
    let actions = run_often(alloc, &mut table, all.as_slice(), &set, times);
    let nanos = rt.process_cpu_time()?.saturating_sub(start).as_nanos();
    let runs = u128::from(lists.saturating_mul(times).max(1));
    let each = nanos / runs;
    println!(rt; "{runs} runs with {actions} actions in {nanos} ns, {each} ns each")?;
    Ok(())
}
