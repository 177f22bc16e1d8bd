//! The text of a configuration file, as collectd.conf(5) has it: its items, or its first fault and line; and the
//! canonical text of items. It stands on `cd_io` for sources, on `cd_text`, `cd_value` and `cd_reading`; no handle.
//! Read first `specs/Statements.antt` (lines, nesting, the first fault), `Values.antt`, `Numbers.antt` and
//! `Quotes.antt` (values), `Tree.antt` (items) and `Canonical.antt` (what is printed). The invariant: the line of a
//! `Place` is within the limit on texts. A change begins in `text.rt`; one of a value's form in `values.rt`.
#![tactic(auto)]

mod blanks;
mod canonical;
mod chars;
mod fault;
mod form;
mod head;
mod item;
mod laws;
mod limits;
mod lines;
mod numbers;
mod pile;
mod place;
mod quotes;
mod runs;
mod source;
mod text;
mod values;

pub use canonical::print;
pub use fault::{ConfFault, ConfKind};
pub use item::{Arg, Args, Item, Items};
pub use laws::{each_text_has_one_tree, print_is_read_again, printed_texts_are_read_again};
pub use limits::{DECIMALS_LIMIT, FILE_LIMIT, NESTING_LIMIT, NUMBER_LIMIT};
pub use source::read;
pub use text::read_text;

#[cfg(test)]
mod tests;
