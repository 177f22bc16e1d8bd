//! The matches of filter chains, as collectd.conf(5) has them in "Filter configuration": whether one holds of a value
//! list. It stands on `cd_pattern` and `cd_value`, and takes no handle.
//! Read first `specs/Matches.antt`: a line for each kind of match, as the manual page has it. No invariant of its own:
//! a match is seen as what its options say, a regex match as the texts of its patterns. What holds matches and crosses
//! threads cites `match_send` of `proofs/Crossing.antt`. A change begins in `verdict.rt`, with the match of its kind
//! beside it.
#![tactic(auto)]

mod compiled;
mod data;
mod value;
mod verdict;

use cd_pattern::Field;
use cd_value::{Sequence, Text};
pub use compiled::{BadPattern, CompiledPatterns, RegexMatch};
pub use data::{Match, ValueMatch};
pub use verdict::all_hold;

/// Fields, each with the text of a pattern for it.
pub type Patterns = Sequence<(Field, Text)>;
/// The matches of a rule, in order.
pub type Matches = Sequence<Match>;

#[cfg(test)]
mod tests;
