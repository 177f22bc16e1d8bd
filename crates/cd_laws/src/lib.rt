//! Laws between crates that don't stand on one another: a printed number of `cd_value` is read again by `cd_text`, and a
//! value list that `cd_target` writes over still fits the types of `cd_types`. It takes no handle.
//!
//! Read `specs/ReadBack.antt` first: what a printed number reads as. Each law is the contract of a
//! small function, with the statement in specs/. No type keeps an invariant. Begin a change at
//! `print.rt`; a further law gets a module of its own.
#![tactic(auto)]

mod fit;
mod print;

pub use fit::rewritten_list_fits;
pub use print::print_readable;

#[cfg(test)]
mod tests;
