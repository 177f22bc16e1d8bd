//! The value cache of collectd.conf(5): the last value list of each name, with its rates. It stands
//! on `cd_value` and takes no handle.
//!
//! Read first `specs/Cache.antt`: what a cache is to contracts, and what a list makes of it;
//! `specs/Rates.antt` has the rates, `specs/Lost.antt` the names that are lost. A `Cache` is seen
//! as its timeout and a finite map from names in their order. Its body is a hashed map and beside
//! it an index of the names, by the moment from which on they count as missing and by their bytes;
//! its type keeps that the index has exactly the map's names (`specs/Index.antt`). Begin a change
//! at `cache.rt`; `index.rt` has the index, `renewal.rt` what a newer list brings to its entry.
#![tactic(auto)]

mod cache;
mod entry;
mod index;
mod key;
mod rates;
mod renewal;

pub use cache::Cache;
pub use entry::{CacheEntry, Updated};
pub use key::HashKey;

#[cfg(test)]
mod tests;
