//! The top level of a configuration.
ghost use Rattle.cd_reading.specs.Gives.{Gives};
ghost use Rattle.cd_settings.specs.Faults.{settings_fault};
ghost use Rattle.cd_settings.specs.Tables.{given};
ghost use Rattle.cd_settings.specs.TopLevel.{plugin, start, with_low, with_name};
ghost use Rattle.std.specs.Prelude.{IfOk, Ok, option_copied, ◌≡◌};

use crate::blocks::{Blocks, add};
use crate::fault::{SettingsFault, SettingsKind};
use crate::forms::{off, one, text, texts, whole};
use crate::items::{at, ignore, needed, option, section, set_text, unknown};
use crate::loaded::Loaded;
use crate::plugins::{Network, UnixSock};
use crate::section::Section;
use cd_conf::Item;
use cd_globals::Globals;
use cd_value::{Memory, Sequence, Text};
use std::alloc::Global;

/// The lower limit of the write queue, as `WriteQueueLimitLow` names it.
#[derive(Clone, Copy)]
pub struct Low {
    /// The number of lists.
    pub count: u32,
    /// The line of the option.
    pub line: u32,
}

/// What the items of the top level set.
#[derive(Drop)]
pub struct TopLevel {
    /// The options of the whole daemon, but for the lower limit of the write queue.
    pub globals: Globals,
    /// That lower limit, where an option names it.
    pub low: Option<Low>,
    /// The plug-ins that are loaded, each once.
    pub loaded: Loaded,
    /// What the plug-ins that read their options themselves are configured with.
    pub blocks: Blocks,
    /// What the blocks of `unixsock` set.
    pub unixsock: UnixSock,
    /// What the blocks of `network` set.
    pub network: Network,
    /// The name of the chain before the cache.
    pub pre: Text,
    /// The name of the chain behind the cache.
    pub post: Text,
}

/// Puts a name behind the others, where it isn't among them.
fn load(
    alloc: Global,
    names: &mut Loaded,
    name: Option<&str>,
    item: &Item,
) -> Result<(), SettingsFault>
    ensures { let changed = given item.now (option_copied name.entry)
        (λ x _. Ok (with_name names.old x)) in
        Gives (λ _. names.new) settings_fault result changed }
{
    let Some(name) = name else {
        return Err(at(SettingsKind::WrongArgs, item));
    };
    names.add(Text::of(alloc, name)?)?;
    Ok(())
}

impl TopLevel {
    /// What stands before the first item.
    #[tactic(auto, unfolding(crate::specs::TopLevel::start))]
    pub fn start(alloc: Global) -> Result<TopLevel, Memory>
        ensures { IfOk result (λ t. t ≡ start) }
    {
        let globals = Globals::defaults(alloc)?;
        let path = Text::of(alloc, "/var/run/collectd-unixsock")?;
        Ok(TopLevel {
            globals,
            low: None,
            loaded: Loaded::new(alloc),
            blocks: Sequence::new(alloc),
            unixsock: UnixSock { path },
            network: Network {
                listens: Sequence::new(alloc),
            },
            pre: Text::of(alloc, "PreCache")?,
            post: Text::of(alloc, "PostCache")?,
        })
    }

    /// Takes the lower limit of the write queue, with its line.
    fn take_low(&mut self, count: Option<u32>, item: &Item) -> Result<(), SettingsFault>
        ensures { let changed = given item.now count (with_low self.old) in
            Gives (λ _. self.new) settings_fault result changed }
    {
        let count = needed(count, item)?;
        self.low = Some(Low {
            count,
            line: item.line,
        });
        Ok(())
    }

    /// Takes the block of a plug-in.
    fn take_plugin(
        &mut self,
        alloc: Global,
        name: Option<&str>,
        item: &Item,
    ) -> Result<(), SettingsFault>
        ensures { let changed = given item.now (option_copied name.entry) (plugin self.old) in
            Gives (λ _. self.new) settings_fault result changed }
    {
        let Some(name) = name else {
            return Err(at(SettingsKind::WrongArgs, item));
        };
        if !self.loaded.has(&Text::of(alloc, name)?) {
            Ok(())
        } else if name == "unixsock" {
            self.unixsock.take_all(alloc, item.children.as_slice())
        } else if name == "network" {
            self.network.take_all(alloc, item.children.as_slice())
        } else if name == "threshold" {
            unknown(item)
        } else {
            add(alloc, &mut self.blocks, name, &item.children)?;
            Ok(())
        }
    }
}

impl Section for TopLevel {
    ghost use Rattle.cd_settings.specs.Tables.{by_table_or};
    ghost use Rattle.cd_settings.specs.TopLevel.{top_options, within_globals};

    type Fault = SettingsFault;

    ghost change = { by_table_or within_globals top_options };

    fn take(&mut self, alloc: Global, item: &Item) -> Result<(), SettingsFault> {
        by_table! { item, self.globals.take(alloc, item);
            option "LoadPlugin" => load(alloc, &mut self.loaded, text(item), item),
            option "WriteQueueLimitLow" => self.take_low(whole(item, 0, 1_000_000), item),
            section "Plugin" => self.take_plugin(alloc, text(item), item),
            option "TypesDB" => ignore(texts(item), item),
            option "PreCacheChain" => set_text(alloc, &mut self.pre, text(item), item),
            option "PostCacheChain" => set_text(alloc, &mut self.post, text(item), item),
            option "BaseDir" => ignore(one(item), item),
            option "PluginDir" => ignore(one(item), item),
            option "PIDFile" => ignore(one(item), item),
            option "FQDNLookup" => ignore(one(item), item),
            option "AutoLoadPlugin" => ignore(off(item), item),
            option "CollectInternalStats" => ignore(off(item), item),
        }
    }
}
