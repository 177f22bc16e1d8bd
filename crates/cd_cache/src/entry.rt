//! What the cache keeps.
ghost use Rattle.cd_cache.specs.Lost.{expiry};
ghost use Rattle.std.specs.Prelude.{◌*◌, ◌+◌, ◌≡◌};

use cd_value::{Rates, ValueList};

/// The last value list of a name, its rates against the list before it, and the moment of its
/// arrival in 2^-30 s.
#[derive(Drop)]
pub struct CacheEntry {
    pub list: ValueList,
    pub rates: Rates,
    pub arrival: u64,
}

impl CacheEntry {
    /// The moment in 2^-30 s from which on the entry counts as missing.
    pub(crate) fn expiry(&self, timeout: u32) -> u128
        ensures { result ≡ expiry timeout self.now }
    {
        moment_after(timeout, self.arrival, self.list.interval)
    }
}

/// The moment that many intervals after an arrival.
pub(crate) fn moment_after(timeout: u32, arrival: u64, interval: u64) -> u128
    ensures { result ≡ arrival + timeout * interval }
{
    u128::from(arrival) + u128::from(timeout) * u128::from(interval)
}

/// What became of a value list in the cache.
#[derive(Clone, Copy, Debug, PartialEq, Eq)]
pub enum Updated {
    /// It stands under its name.
    Stored,
    /// The cached list of its name is as new or newer, and the cache stayed as it was.
    Old,
}
