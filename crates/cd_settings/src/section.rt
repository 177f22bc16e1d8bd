//! Sections, whose items change a state one after the other.
ghost use Rattle.cd_conf.specs.declared.item.Item.{Item};
ghost use Rattle.cd_reading.specs.Gives.{Gives};
ghost use Rattle.cd_settings.specs.BigPatterns.{item_fault, lines_of_all};
ghost use Rattle.cd_settings.specs.Tables.{after_all};
ghost use Rattle.cd_settings.specs.declared.fault.ItemFault.{ItemFault};
ghost use Rattle.cd_settings.specs.declared.fault.SettingsFault.{SettingsFault};
ghost use Rattle.std.specs.Prelude.{List, Result, [], ℕ};

use crate::fault::{ItemFault, SettingsFault};
use cd_conf::Item;
use std::alloc::Global;

/// The fault of an item: of one that may have a pattern, or of one that has none.
pub trait AsItemFault {
    /// The fault, as of one that may have a pattern.
    ghost as_item_fault: { Self → ItemFault };
}

impl AsItemFault for SettingsFault {
    ghost use Rattle.cd_settings.specs.declared.fault.ItemFault.TheVariants as faults;

    ghost as_item_fault = { λ fault. faults.Fault fault };
}

impl AsItemFault for ItemFault {
    ghost as_item_fault = { λ fault. fault };
}

/// What the items of a section change.
pub trait Section {
    /// What an item is refused with.
    type Fault: AsItemFault;

    /// The state after an item, or the item's fault.
    ghost change: { Self → Item → Result Self SettingsFault };

    /// The lines of the patterns that the reading of an item comes to.
    ghost lines: { Self → Item → List ℕ } = { λ _ _. [] };

    /// Takes an item.
    fn take(&mut self, alloc: Global, item: &Item) -> Result<(), Self::Fault>
        ensures { let changed = change self.old item.now in
            let free = lines self.old item.now in
            Gives (λ _. self.new) (λ e. item_fault free (Self.Fault.as_item_fault e)) result changed };

    /// Takes items one after the other, until the first fault.
    final fn take_all(&mut self, alloc: Global, items: &[Item]) -> Result<(), Self::Fault>
        ensures { let changed = after_all change self.old items.now in
            let free = lines_of_all change lines self.old items.now in
            Gives (λ _. self.new) (λ e. item_fault free (Self.Fault.as_item_fault e)) result changed }
    {
        for item in items {
            self.take(alloc, item)?;
        }
        Ok(())
    }
}
