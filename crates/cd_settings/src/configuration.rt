//! What all items of a configuration set, chains with them.
ghost use Rattle.cd_conf.specs.Parts.{args_of};
ghost use Rattle.cd_reading.specs.Gives.{Gives};
ghost use Rattle.cd_settings.specs.BigPatterns.{chain_lines, item_fault, lines_given, pattern_lines};
ghost use Rattle.cd_settings.specs.Forms as forms;
ghost use Rattle.cd_settings.specs.Settings.{configuration_of};
ghost use Rattle.cd_settings.specs.Tables.{given};
ghost use Rattle.cd_settings.specs.TopLevel.{with_chain};

use crate::chains::chain_of;
use crate::fault::ItemFault;
use crate::forms::text;
use crate::items::{needed, section};
use crate::section::Section;
use crate::top_level::TopLevel;
use cd_chain::Chains;
use cd_conf::{Item, Items};
use cd_value::Sequence;
use std::alloc::Global;

/// What the items of a configuration set.
#[derive(Drop)]
pub struct Configuration {
    /// All but the chains.
    pub top: TopLevel,
    /// The chains in order.
    pub chains: Chains,
}

impl Configuration {
    /// Puts a chain behind the others.
    fn add_chain(&mut self, alloc: Global, item: &Item) -> Result<(), ItemFault>
        ensures { let name = forms.text (args_of item.now) in
            let changed = given item.now name (with_chain self.old) in
            let free = lines_given name chain_lines item.now in
            Gives (λ _. self.new) (item_fault free) result changed }
    {
        let name = needed(text(item), item)?;
        let chain = chain_of(alloc, name, item)?;
        self.chains.push(chain)?;
        Ok(())
    }

    /// What items set.
    pub fn of(alloc: Global, items: &Items) -> Result<Configuration, ItemFault>
        ensures { let read = configuration_of items.now in
            Gives (λ c. c) (item_fault (pattern_lines items.now)) result read }
    {
        let mut configuration = Configuration {
            top: TopLevel::start(alloc)?,
            chains: Sequence::new(alloc),
        };
        configuration.take_all(alloc, items.as_slice())?;
        Ok(configuration)
    }
}

impl Section for Configuration {
    ghost use Rattle.cd_settings.specs.BigPatterns.{top_item_lines};
    ghost use Rattle.cd_settings.specs.Tables.{by_table_or};
    ghost use Rattle.cd_settings.specs.TopLevel.{chain_sections, within_top};

    type Fault = ItemFault;

    ghost change = { by_table_or within_top chain_sections };

    ghost lines = { top_item_lines };

    fn take(&mut self, alloc: Global, item: &Item) -> Result<(), ItemFault> {
        by_table! { item, Ok(self.top.take(alloc, item)?);
            section "Chain" => self.add_chain(alloc, item),
        }
    }
}
