//! Fields of an identifier, and patterns that are looked for in them, as collectd.conf(5) has them in "Filter
//! configuration". It stands on `cd_value` and on the kit's `regex`, and takes no handle.
//! Read first `specs/Patterns.antt`: which texts are patterns, and where a pattern is found, by its text alone.
//! The invariant: a `Pattern` is seen as its text, which is a pattern, and the answers that it noted are right
//! (`specs/Seen.antt`). What holds patterns and crosses threads cites `pattern_send` of `proofs/Crossing.antt`. A
//! change begins in `pattern.rt`; `seen.rt` has the answers that are noted.
#![tactic(auto)]

mod field;
mod pattern;
mod seen;

pub use field::Field;
pub use pattern::{Pattern, PatternFault};

#[cfg(test)]
mod tests;
