//! The faults of chains, with their lines.
ghost use Rattle.cd_conf.specs.Parts.{args_of};
ghost use Rattle.cd_reading.specs.Gives.{Gives};
ghost use Rattle.cd_settings.specs.ChainLines.{accepted, chain_fault, inside, is_chain_named, is_text_of, jump_in, jumps_to, kind_of_fault, line_in, line_of_fault, names_chain, section_at, targets_in_rules, walk_line};
ghost use Rattle.cd_settings.specs.Faults.{settings_fault};
ghost use Rattle.std.specs.List.{find, list_any};
ghost use Rattle.std.specs.Prelude.{option_copied, ◌≡◌};

use crate::fault::{SettingsFault, SettingsKind};
use crate::items::{either, option, section};
use cd_chain::{ChainFault, ChainTable, Chains};
use cd_conf::{Arg, Item};
use cd_value::Text;
use std::alloc::Global;

/// The section of a number among those of a name.
fn section_at<'a>(items: &'a [Item], name: &str, number: u64) -> Option<&'a Item>
    ensures { option_copied result ≡ section_at name.now items.now number }
{
    let mut left = number;
    for item in items {
        if !section(item, name) {
            continue;
        }
        if left == 0 {
            return Some(item);
        }
        left -= 1;
    }
    None
}

/// What stands in a section, and nothing where there is none.
fn inside(item: Option<&Item>) -> &[Item]
    ensures { result.now ≡ inside (option_copied item.entry) }
{
    match item {
        Some(item) => item.children.as_slice(),
        None => &[],
    }
}

/// The line of an item, and 0 where there is none.
fn line_in(item: Option<&Item>) -> u32
    ensures { result ≡ line_in (option_copied item.entry) }
{
    match item {
        Some(item) => item.line,
        None => 0,
    }
}

/// Whether the only value of an item is a text.
fn is_text_of(item: &Item, text: &str) -> bool
    ensures { result ≡ is_text_of text.now (args_of item.now) }
{
    match item.args.as_slice() {
        [Arg::Words(value)] => value.as_str() == text,
        _ => false,
    }
}

/// Whether an item is the section of the chain of a name.
fn is_chain_named(item: &Item, name: &str) -> bool
    ensures { result ≡ is_chain_named name.now item.now }
{
    section(item, "Chain") && is_text_of(item, name)
}

/// The section of the chain of a name.
fn chain_named<'a>(items: &'a [Item], name: &str) -> Option<&'a Item>
    ensures { option_copied result ≡ find (is_chain_named name.now) items.now }
{
    items.iter().find(|item| is_chain_named(item, name))
}

/// Whether an item is an option that names a chain.
fn names_chain(item: &Item, name: &str) -> bool
    ensures { result ≡ names_chain name.now item.now }
{
    option(item, "Chain") && is_text_of(item, name)
}

/// Whether an option among these names a chain.
fn any_names_chain(items: &[Item], name: &str) -> bool
    ensures { result ≡ list_any (names_chain name.now) items.now }
{
    items.iter().any(|item| names_chain(item, name))
}

/// Whether an item is a target that jumps to a chain.
fn jumps_to(item: &Item, name: &str) -> bool
    ensures { result ≡ jumps_to name.now item.now }
{
    either(item, "Target")
        && is_text_of(item, "jump")
        && any_names_chain(item.children.as_slice(), name)
}

/// The first target among items that jumps to a chain.
fn first_jump<'a>(items: &'a [Item], name: &str) -> Option<&'a Item>
    ensures { option_copied result ≡ find (jumps_to name.now) items.now }
{
    items.iter().find(|item| jumps_to(item, name))
}

/// The first such target in the rules among items.
fn jump_in_rules<'a>(items: &'a [Item], name: &str) -> Option<&'a Item>
    ensures { option_copied result ≡ find (jumps_to name.now) (targets_in_rules items.now) }
{
    for item in items {
        if !section(item, "Rule") {
            continue;
        }
        if let Some(jump) = first_jump(item.children.as_slice(), name) {
            return Some(jump);
        }
    }
    None
}

/// The first jump to a chain from the one in which these items stand.
fn jump_in<'a>(items: &'a [Item], name: &str) -> Option<&'a Item>
    ensures { option_copied result ≡ jump_in items.now name.now }
{
    match jump_in_rules(items, name) {
        Some(jump) => Some(jump),
        None => first_jump(items, name),
    }
}

/// The line of the jump from the first chain of a walk to the second.
fn walk_line(items: &[Item], names: &[Text]) -> u32
    ensures { result ≡ walk_line items.now names.now }
{
    match names {
        [first, second, ..] => {
            let from = chain_named(items, first.as_str());
            line_in(jump_in(inside(from), second.as_str()))
        }
        _ => 0,
    }
}

/// The line of the fault of a table, and 0 for want of memory.
fn line_of_fault(items: &[Item], why: &ChainFault) -> u32
    ensures { result ≡ line_of_fault items.now why.now }
{
    match why {
        ChainFault::Duplicate(chain) => line_in(section_at(items, "Chain", *chain)),
        ChainFault::EmptyRule(chain, rule) => {
            let inner = inside(section_at(items, "Chain", *chain));
            line_in(section_at(inner, "Rule", *rule))
        }
        ChainFault::UnknownChain(chain, name) => {
            let inner = inside(section_at(items, "Chain", *chain));
            line_in(jump_in(inner, name.as_str()))
        }
        ChainFault::TooHeavy(chain) => line_in(section_at(items, "Chain", *chain)),
        ChainFault::JumpCycle(walk) => walk_line(items, walk.as_slice()),
        ChainFault::Memory => 0,
    }
}

/// The kind of a table's fault: the fault itself, but for want of memory.
fn kind_of_fault(why: ChainFault) -> SettingsKind
    ensures { result ≡ kind_of_fault why }
{
    match why {
        ChainFault::Memory => SettingsKind::Memory,
        why => SettingsKind::Chain(why),
    }
}

/// The fault of a table, at its line.
fn chain_fault(items: &[Item], why: ChainFault) -> SettingsFault
    ensures { result ≡ chain_fault items.now why }
{
    let line = line_of_fault(items, &why);
    SettingsFault {
        kind: kind_of_fault(why),
        line,
    }
}

/// The table of the chains that items make.
pub fn accepted(alloc: Global, items: &[Item], chains: Chains) -> Result<ChainTable, SettingsFault>
    ensures { Gives (λ table. table) settings_fault result (accepted items.now chains) }
{
    match ChainTable::build(alloc, chains) {
        Ok(table) => Ok(table),
        Err(refused) => Err(chain_fault(items, refused.why)),
    }
}
