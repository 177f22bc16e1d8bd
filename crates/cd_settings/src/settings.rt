//! The settings of a configuration.
ghost use Rattle.cd_reading.specs.Gives.{Gives};
ghost use Rattle.cd_settings.specs.BigPatterns.{told_of};
ghost use Rattle.cd_settings.specs.Faults.{settings_fault};
ghost use Rattle.cd_settings.specs.Settings.{finished, lower_limit, settings, settings_of};
ghost use Rattle.std.specs.Prelude.{Ok, ◌≡◌};

use crate::blocks::Blocks;
use crate::chain_lines::accepted;
use crate::configuration::Configuration;
use crate::fault::{SettingsFault, SettingsKind, as_settings_fault};
use crate::plugins::Listens;
use crate::top_level::TopLevel;
use cd_chain::ChainTable;
use cd_conf::{Item, Items};
use cd_globals::Globals;
use cd_types::TypesDb;
use cd_value::{Names, Text};
use std::alloc::Global;

/// The settings of a configuration, as collectd.conf(5) has its options.
#[derive(Drop)]
pub struct Settings {
    /// The options of the whole daemon.
    pub globals: Globals,
    /// The names of `LoadPlugin`, each once, in order.
    pub loaded: Names,
    /// What the plug-ins that read their options themselves are configured with.
    pub blocks: Blocks,
    /// The filter chains.
    pub chains: ChainTable,
    /// The number of the chain before the cache, where there is a chain of its name.
    pub pre: Option<u64>,
    /// The number of the chain behind the cache, where there is a chain of its name.
    pub post: Option<u64>,
    /// The path of the socket to listen on, where the plug-in `unixsock` is loaded.
    pub socket: Option<Text>,
    /// Where packets are received, at most `LISTENS_LIMIT` places.
    pub listens: Listens,
}

impl TopLevel {
    /// The lower limit of the write queue.
    fn lower_limit(&self) -> Result<u32, SettingsFault>
        ensures { result ≡ lower_limit self.now }
    {
        match self.low {
            Some(low) if self.globals.high > 0 && low.count > self.globals.high => {
                Err(SettingsFault {
                    kind: SettingsKind::LimitsCrossed,
                    line: low.line,
                })
            }
            Some(low) => Ok(low.count),
            None => Ok(self.globals.high / 2),
        }
    }

    /// The settings with a lower limit of the write queue and these chains.
    fn settings(
        self,
        alloc: Global,
        low: u32,
        chains: ChainTable,
    ) -> Result<Settings, SettingsFault>
        ensures { Gives (λ s. s) settings_fault result (Ok (settings self low chains)) }
    {
        let TopLevel {
            mut globals,
            loaded,
            blocks,
            unixsock,
            network,
            pre,
            post,
            ..
        } = self;
        globals.low = low;
        let socket = if loaded.has(&Text::of(alloc, "unixsock")?) {
            Some(unixsock.path)
        } else {
            None
        };
        let pre = chains.find(pre.as_str());
        let post = chains.find(post.as_str());
        Ok(Settings {
            globals,
            loaded: loaded.to_names(alloc)?,
            blocks,
            chains,
            pre,
            post,
            socket,
            listens: network.listens,
        })
    }
}

impl Configuration {
    /// The settings after all items.
    fn finish(self, alloc: Global, items: &[Item]) -> Result<Settings, SettingsFault>
        ensures { Gives (λ s. s) settings_fault result (finished items.now self) }
    {
        let Configuration { top, chains } = self;
        let low = top.lower_limit()?;
        let chains = accepted(alloc, items, chains)?;
        top.settings(alloc, low, chains)
    }
}

impl Settings {
    /// The settings that the items of a configuration make, as collectd.conf(5) has its options, or
    /// the first fault of the items and its line. Of a repeated option the last stands; TypesDB,
    /// LoadPlugin and Listen add. A bad pattern may also come at the line of an option whose text is a
    /// regular expression by its grammar, where all items before it are in order, since it may be too big
    /// when it is compiled. The types are those that the configuration names; no option asks for them yet.
    pub fn from_items(
        alloc: Global,
        items: &Items,
        _types: &TypesDb,
    ) -> Result<Settings, SettingsFault>
        ensures { Gives (λ s. s) (told_of items.now) result (settings_of items.now) }
    {
        match Configuration::of(alloc, items) {
            Ok(configuration) => configuration.finish(alloc, items.as_slice()),
            Err(fault) => Err(as_settings_fault(fault)),
        }
    }
}
