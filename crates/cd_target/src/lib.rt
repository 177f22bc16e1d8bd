//! The targets of filter chains, as collectd.conf(5) has them in "Filter configuration". It stands on `cd_pattern` and
//! `cd_value`, and takes no handle.
//! Read first `specs/Targets.antt`: what the targets "set" and "replace" make of a value list; what a text with
//! placeholders becomes stands in `specs/Placeholders.antt`. The invariant: a rewriting keeps the type, the time, the
//! interval and the values, and what it leaves is an identifier again. Targets may cross threads: what holds them cites
//! `target_send` of `proofs/Crossing.antt`. A change begins at `target.rt`, which has the types.
#![tactic(auto)]

mod placeholders;
mod rewriting;
mod target;

use cd_pattern::Field;
use cd_value::{Sequence, Text};
pub use placeholders::message;
pub use rewriting::{rewrite, rewrite_in_place};
pub use target::{Replacing, Target};

/// The options of a target "set", in order: a field, and its new text with placeholders.
pub type Sets = Sequence<(Field, Text)>;
/// The options of a target "replace", in order.
pub type Replaces = Sequence<Replacing>;

#[cfg(test)]
mod tests;
