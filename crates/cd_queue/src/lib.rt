//! The write queue: value lists that wait to be handled, between two limits, as in collectd.conf(5),
//! WriteQueueLimitHigh and WriteQueueLimitLow.
//!
//! It stands on `cd_value` and takes no handle. Read `specs/Drops.antt` first: the rule for what is dropped, and
//! what becomes of lists that are offered one after another. Its invariant is that the low limit isn't above the
//! high one, where there is one. All its calls stand in `queue.rt`; a change of the rule begins in `Drops.antt`.
#![tactic(auto)]

mod queue;

pub use queue::WriteQueue;

#[cfg(test)]
mod tests;
