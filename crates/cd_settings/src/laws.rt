//! Laws of settings.
ghost use Rattle.cd_settings.specs.Bounds.{AcceptedSettingsAreBounded};

/// Whatever the items, the settings that they make are within the bounds of each option: a host that an
/// identifier may have, intervals above 0 and at most 10^9 seconds, a timeout from 1 to 1,000, from 1 to 64
/// threads of a kind, a lower limit of the write queue that isn't above the upper one unless that is 0, and at
/// most `LISTENS_LIMIT` Listens, each with a port from 1 on. Each plug-in is loaded once and has one block at
/// most, each that has a block is loaded, and there is a socket exactly where `unixsock` is loaded.
pub fn accepted_settings_are_bounded()
    ensures { AcceptedSettingsAreBounded }
{}
