//! The options of the whole daemon.
use crate::fault::SettingsFault;
use crate::forms::{host, interval, whole};
use crate::items::{option, set, set_text, unknown};
use crate::section::Section;
use cd_conf::Item;
use cd_globals::Globals;
use std::alloc::Global;

impl Section for Globals {
    ghost use Rattle.cd_settings.specs.GlobalOptions.{global_options};
    ghost use Rattle.cd_settings.specs.Tables.{by_table};

    type Fault = SettingsFault;

    ghost change = { by_table global_options };

    fn take(&mut self, alloc: Global, item: &Item) -> Result<(), SettingsFault> {
        by_table! { item, unknown(item);
            option "Hostname" => set_text(alloc, &mut self.hostname, host(item), item),
            option "Interval" => set(&mut self.interval, interval(item), item),
            option "MaxReadInterval" => set(&mut self.longest, interval(item), item),
            option "Timeout" => set(&mut self.timeout, whole(item, 1, 1_000), item),
            option "ReadThreads" => set(&mut self.read_threads, whole(item, 1, 64), item),
            option "WriteThreads" => set(&mut self.write_threads, whole(item, 1, 64), item),
            option "WriteQueueLimitHigh" => set(&mut self.high, whole(item, 0, 1_000_000), item),
        }
    }
}
