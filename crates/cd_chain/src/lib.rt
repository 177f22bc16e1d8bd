//! Filter chains, as collectd.conf(5) has them in "Filter configuration": which tables of chains are accepted, and what
//! a chain does with a value list. It stands on `cd_match`, `cd_target`, `cd_walks` and `cd_value`, with no handle.
//! Read first `specs/Chains.antt`: what a chain does, by its rules and targets; `specs/Tables.antt` has the faults of a
//! table. The invariant of a `ChainTable`: it has no fault, so that each chain comes to an end. Begin a change at
//! `table.rt`; acceptance stands in `accept.rt`, evaluation in `evaluate.rt`.
#![tactic(auto)]

mod accept;
mod data;
mod evaluate;
mod frame;
mod jumps;
mod laws;
mod place;
mod table;
mod weigh;

pub use data::{
    Action, Actions, Chain, ChainFault, Chains, Evaluated, Rule, Rules, Run, Targets, Verdict,
};
pub use laws::{jumps_do_what_chains_do, jumps_weigh_as_chains_do, nothing_else_does_so};
pub use table::ChainTable;

#[cfg(test)]
mod tests;
