//! The one-thread daemon: what it answers after a history, and which histories are its own.
//!
//! - Stands on `cd_history`, `cd_globals`, `cd_chain`, `cd_match`, `cd_cache`, `cd_queue`, `cd_types`, `cd_registry`
//!   and `cd_value`, and takes no handle. But for its laws it has definitions alone: other crates' contracts cite them.
//! - Read first `specs/Legal.antt`, then `Answers.antt`, `Handling.antt` with `Performing.antt`, `Flushes.antt`
//!   and `Calls.antt`.
//! - Each definition takes what is in force (`Opening`) and the history, and no state beside them.
//! - A new kind of entry begins in `specs/Legal.antt`, with its answer in `Answers.antt`.
#![tactic(auto)]

mod laws;

use cd_chain::ChainTable;
use cd_globals::Globals;
use cd_value::{DataSet, Sequence};
pub use laws::{
    answers_are_to_the_calls, closed_registration_is_not_called, closer_and_beginner_stay_known,
    daemon_without_work_is_idle, flush_is_under_way_until_its_counts,
    idle_daemon_hands_out_objects, idle_daemon_owes_no_answer, idle_daemon_tells_counts,
    object_handed_out_answered_all_calls, settled_daemon_makes_no_call,
    settled_daemon_stays_settled,
};

/// The filter chains in force, as collectd.conf(5) has them in "Filter configuration": the table, and the numbers in it
/// of the chains that run before and behind the cache ("PreCacheChain", "PostCacheChain"). A number that is no chain of
/// the table means that there is none.
#[derive(Drop)]
pub struct Rules {
    pub chains: ChainTable,
    pub pre: Option<u64>,
    pub post: Option<u64>,
}

/// What is in force from the start: the types that the daemon knows, the settings of the whole daemon, and the filter
/// chains.
#[derive(Drop)]
pub struct Opening {
    pub types: Sequence<DataSet>,
    pub globals: Globals,
    pub rules: Rules,
}
