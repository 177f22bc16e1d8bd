//! The sections of chains and of their rules.
ghost use Rattle.cd_conf.specs.Parts.{args_of};
ghost use Rattle.cd_reading.specs.Gives.{Gives};
ghost use Rattle.cd_settings.specs.BigPatterns.{chain_lines, item_fault, lines_given, match_lines, rule_lines, target_lines};
ghost use Rattle.cd_settings.specs.ChainOptions.{chain_of, rule_of, with_default, with_match, with_rule, with_target};
ghost use Rattle.cd_settings.specs.Forms as forms;
ghost use Rattle.cd_settings.specs.Tables.{given};

use crate::fault::ItemFault;
use crate::forms::{perhaps_text, text};
use crate::items::{either, needed, section, unknown};
use crate::matches::match_of;
use crate::section::Section;
use crate::targets::target_of;
use cd_chain::{Chain, Rule};
use cd_conf::Item;
use cd_value::{Sequence, Text};
use std::alloc::Global;

/// Puts a match behind the others of a rule.
fn add_match(alloc: Global, rule: &mut Rule, item: &Item) -> Result<(), ItemFault>
    ensures { let kind = forms.text (args_of item.now) in
        let changed = given item.now kind (with_match rule.old) in
        let free = lines_given kind match_lines item.now in
        Gives (λ _. rule.new) (item_fault free) result changed }
{
    let kind = needed(text(item), item)?;
    let test = match_of(alloc, kind, item)?;
    rule.matches.push(test)?;
    Ok(())
}

/// Puts a target behind the others of a rule.
fn add_target(alloc: Global, rule: &mut Rule, item: &Item) -> Result<(), ItemFault>
    ensures { let kind = forms.text (args_of item.now) in
        let changed = given item.now kind (with_target rule.old) in
        let free = lines_given kind target_lines item.now in
        Gives (λ _. rule.new) (item_fault free) result changed }
{
    let kind = needed(text(item), item)?;
    let target = target_of(alloc, kind, item)?;
    rule.targets.push(target)?;
    Ok(())
}

impl Section for Rule {
    ghost use Rattle.cd_settings.specs.BigPatterns.{rule_item_lines};
    ghost use Rattle.cd_settings.specs.ChainOptions.{rule_options};
    ghost use Rattle.cd_settings.specs.Tables.{by_table};

    type Fault = ItemFault;

    ghost change = { by_table rule_options };

    ghost lines = { rule_item_lines };

    fn take(&mut self, alloc: Global, item: &Item) -> Result<(), ItemFault> {
        by_table! { item, Ok(unknown(item)?);
            either "Match" => add_match(alloc, self, item),
            either "Target" => add_target(alloc, self, item),
        }
    }
}

/// A rule.
fn rule_of(alloc: Global, item: &Item) -> Result<Rule, ItemFault>
    ensures { Gives (λ rule. rule) (item_fault (rule_lines item.now)) result (rule_of item.now) }
{
    let mut rule = Rule {
        matches: Sequence::new(alloc),
        targets: Sequence::new(alloc),
    };
    rule.take_all(alloc, item.children.as_slice())?;
    Ok(rule)
}

/// Puts a rule behind the others of a chain.
fn add_rule(alloc: Global, chain: &mut Chain, item: &Item) -> Result<(), ItemFault>
    ensures { let named = forms.perhaps_text (args_of item.now) in
        let changed = given item.now named (with_rule chain.old) in
        let free = lines_given named (λ _. rule_lines) item.now in
        Gives (λ _. chain.new) (item_fault free) result changed }
{
    needed(perhaps_text(item), item)?;
    let rule = rule_of(alloc, item)?;
    chain.rules.push(rule)?;
    Ok(())
}

/// Puts a default target behind the others of a chain.
fn add_default(alloc: Global, chain: &mut Chain, item: &Item) -> Result<(), ItemFault>
    ensures { let kind = forms.text (args_of item.now) in
        let changed = given item.now kind (with_default chain.old) in
        let free = lines_given kind target_lines item.now in
        Gives (λ _. chain.new) (item_fault free) result changed }
{
    let kind = needed(text(item), item)?;
    let target = target_of(alloc, kind, item)?;
    chain.defaults.push(target)?;
    Ok(())
}

impl Section for Chain {
    ghost use Rattle.cd_settings.specs.BigPatterns.{chain_item_lines};
    ghost use Rattle.cd_settings.specs.ChainOptions.{chain_options};
    ghost use Rattle.cd_settings.specs.Tables.{by_table};

    type Fault = ItemFault;

    ghost change = { by_table chain_options };

    ghost lines = { chain_item_lines };

    fn take(&mut self, alloc: Global, item: &Item) -> Result<(), ItemFault> {
        by_table! { item, Ok(unknown(item)?);
            section "Rule" => add_rule(alloc, self, item),
            either "Target" => add_default(alloc, self, item),
        }
    }
}

/// A chain of a name.
pub fn chain_of(alloc: Global, name: &str, item: &Item) -> Result<Chain, ItemFault>
    ensures { let read = chain_of name.now item.now in
        let free = chain_lines name.now item.now in
        Gives (λ chain. chain) (item_fault free) result read }
{
    let mut chain = Chain {
        name: Text::of(alloc, name)?,
        rules: Sequence::new(alloc),
        defaults: Sequence::new(alloc),
    };
    chain.take_all(alloc, item.children.as_slice())?;
    Ok(chain)
}
