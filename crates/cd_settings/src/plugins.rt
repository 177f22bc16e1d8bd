//! The blocks of the plug-ins `unixsock` and `network`.
ghost use Rattle.cd_reading.specs.Gives.{Gives};
ghost use Rattle.cd_settings.specs.Faults.{settings_fault};
ghost use Rattle.cd_settings.specs.Forms.{listen_of};
ghost use Rattle.cd_settings.specs.PluginOptions.{with_listen};
ghost use Rattle.cd_settings.specs.Tables.{given};
ghost use Rattle.std.specs.Option.{option_map};

use crate::fault::{SettingsFault, SettingsKind};
use crate::forms::{text, whole};
use crate::items::{at, childless, either, ignore, needed, option, set_text, unknown};
use crate::ports::address;
use crate::section::Section;
use cd_conf::Item;
use cd_value::{Sequence, Text};
use std::alloc::Global;

/// The port of a Listen that names none.
pub const PORT: u16 = 25_826;

/// The most Listens.
pub const LISTENS_LIMIT: usize = 4;

/// Where packets are received, as `Listen` of the plug-in `network` names it.
#[derive(Drop)]
pub struct Listen {
    /// The host as it is written.
    pub host: Text,
    /// The port, at least 1.
    pub port: u16,
}

/// Listens in order.
pub type Listens = Sequence<Listen>;

/// What the block of `unixsock` sets.
#[derive(Drop)]
pub struct UnixSock {
    /// The path of the socket.
    pub path: Text,
}

/// What the block of `network` sets.
#[derive(Drop)]
pub struct Network {
    /// Where packets are received, at most `LISTENS_LIMIT` places.
    pub listens: Listens,
}

impl Section for UnixSock {
    ghost use Rattle.cd_settings.specs.PluginOptions.{unixsock_options};
    ghost use Rattle.cd_settings.specs.Tables.{by_table};

    type Fault = SettingsFault;

    ghost change = { by_table unixsock_options };

    fn take(&mut self, alloc: Global, item: &Item) -> Result<(), SettingsFault> {
        by_table! { item, unknown(item);
            option "SocketFile" => set_text(alloc, &mut self.path, text(item), item),
            option "SocketGroup" => Ok(()),
            option "SocketPerms" => Ok(()),
            option "DeleteSocket" => Ok(()),
        }
    }
}

impl Network {
    /// Puts a Listen behind the others.
    fn take_listen(
        &mut self,
        alloc: Global,
        address: Option<(&str, u16)>,
        item: &Item,
    ) -> Result<(), SettingsFault>
        ensures { let listen = option_map (λ x. listen_of x.0.now x.1) address.entry in
            let changed = given item.now listen (with_listen self.old) in
            Gives (λ _. self.new) settings_fault result changed }
    {
        let (host, port) = needed(address, item)?;
        if self.listens.len() >= LISTENS_LIMIT {
            return Err(at(SettingsKind::TooMany, item));
        }
        childless(item)?;
        let host = Text::of(alloc, host)?;
        self.listens.push(Listen { host, port })?;
        Ok(())
    }
}

impl Section for Network {
    ghost use Rattle.cd_settings.specs.PluginOptions.{network_options};
    ghost use Rattle.cd_settings.specs.Tables.{by_table};

    type Fault = SettingsFault;

    ghost change = { by_table network_options };

    fn take(&mut self, alloc: Global, item: &Item) -> Result<(), SettingsFault> {
        by_table! { item, unknown(item);
            either "Listen" => self.take_listen(alloc, address(item), item),
            option "MaxPacketSize" => ignore(whole(item, 1_024, 65_535), item),
        }
    }
}
