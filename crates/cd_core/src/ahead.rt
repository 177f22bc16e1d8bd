//! The rates in the cache as they will be once a list is stored.
ghost use Rattle.cd_cache.specs.Cache.{cached_rates, updated};
ghost use Rattle.cd_core.specs.Ahead.{rates_ahead};
ghost use Rattle.std.specs.Prelude.{IfOk, ℕ, ◌≡◌};

use cd_cache::Cache;
use cd_value::{DataSet, Memory, RateView, Rates, Text, ValueList};
use std::alloc::Global;

/// A cache, and the rates that will stand under a name, where the list that comes is newer.
#[derive(Drop)]
pub(crate) struct RatesAhead<'a> {
    cache: &'a Cache,
    name: Text,
    rates: Option<Rates>,
}

impl RateView for RatesAhead<'_> {
    ghost use Rattle.cd_core.specs.Ahead.{rates_ahead};

    ghost rates_at = { λ ahead. rates_ahead ahead.cache.now ahead.name ahead.rates };

    fn rates(&self, name: &Text) -> Option<&Rates> {
        match &self.rates {
            Some(rates) => {
                if self.name == *name {
                    Some(rates)
                } else {
                    self.cache.rates(name)
                }
            }
            None => self.cache.rates(name),
        }
    }
}

impl<'a> RatesAhead<'a> {
    /// The rates that there will be once a list of that data set is stored.
    pub(crate) fn of(
        alloc: Global,
        cache: &'a Cache,
        list: &ValueList,
        set: &DataSet,
    ) -> Result<RatesAhead<'a>, Memory>
        ensures { IfOk result (λ ahead. (now : ℕ) →
            rates_ahead ahead.cache.now ahead.name ahead.rates
            ≡ cached_rates (updated set.now list.now now cache.now)) }
    {
        let rates = cache.preview(alloc, list, set)?;
        let name = list.id.name(alloc)?;
        Ok(RatesAhead { cache, name, rates })
    }
}
