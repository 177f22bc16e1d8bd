//! What is handed to a run.
use cd_registry::{Kinds, Plug, Probe};
use cd_value::Text;
use std::marker::Send;

/// A plug-in that is handed to a run: the name under which it is registered, the kinds of its callbacks, and its
/// object.
#[derive(Drop)]
pub struct ShelvedOf<P> {
    pub name: Text,
    pub kinds: Kinds,
    pub object: P,
}

/// A reader that is handed to a run, which hands it back unread: its name, and its object.
#[derive(Drop)]
pub struct ShelvedProbeOf<Q> {
    pub name: Text,
    pub object: Q,
}

/// A plug-in in a box.
pub type Shelved = ShelvedOf<Box<dyn Plug + Send>>;

/// A reader in a box.
pub type ShelvedProbe = ShelvedProbeOf<Box<dyn Probe + Send>>;
