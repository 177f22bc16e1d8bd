//! The value cache as a plain list, for the programs that hold the cache and the daemon to it.
//!
//! - Stands on `cd_value`, and of `cd_cache` on the types alone: the list of entries is its own. It takes no handle.
//! - Read first `plain.rt`.
//! - The entries stand in the order of their names' bytes, each name once; no clause says so.
//! - A change of what the cache does begins in `cd_cache`, and comes here by hand.
#![tactic(auto)]

mod plain;

pub use plain::{Plain, PlainEntry, are_rates};
