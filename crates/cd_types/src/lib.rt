//! The data sets of types.db(5) by name, read from its text and printed, and which value lists fit them.
//! It stands on `cd_io` for sources, on `cd_text`, `cd_value` and `cd_reading`, and takes no handle.
//! Read first `specs/Types.antt` (the set of a name, what fits a set), `Entry.antt`, `Line.antt` and `Text.antt` (what
//! is read, the first fault), `Sets.antt`, `Printed.antt` and `Valid.antt`. The invariant: a `TypesDb` keeps each set
//! under its name. A change begins in `types_db.rt`, which holds the sets; one of the text's form in `entry.rt`.
#![tactic(auto)]

mod entry;
mod fault;
mod fit;
mod laws;
mod limits;
mod line;
mod print;
mod source;
mod text;
mod types_db;

pub use fault::{TypesFault, TypesKind};
pub use laws::{
    known_sets_are_valid, print_is_read_again, printed_bounds_are_read_again,
    the_last_of_a_name_stands,
};
pub use limits::{FILE_LIMIT, NAME_LIMIT, SOURCE_NAME_LIMIT, SOURCES_LIMIT};
pub use types_db::TypesDb;

#[cfg(test)]
mod tests;
