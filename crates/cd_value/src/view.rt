//! Rates by name, as a filter chain sees those of the value cache.
ghost use Rattle.std.specs.Option.{option_copied};
ghost use Rattle.std.specs.Prelude.{◌≡◌};

use crate::{Rates, Text};

/// What has rates under the names of value lists, as the value cache of collectd.conf(5).
pub trait RateView {
    ghost use Rattle.cd_value.specs.declared.data.Rate.{Rate};
    ghost use Rattle.std.specs.Prelude.{List, Option, ℕ};

    /// The rates under each name.
    ghost rates_at: { Self → List ℕ → Option (List Rate) };

    /// The rates under a name, where it has some.
    fn rates(&self, name: &Text) -> Option<&Rates>
        ensures { option_copied result ≡ rates_at self.now name.now };
}
