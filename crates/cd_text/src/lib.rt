//! The words of a line, and the numbers and times that collectd's text formats write. It stands on
//! `cd_value` for texts and `cd_reading` for the words of readers, and takes no handle.
//!
//! Read first `specs/Quoting.antt` (the words of a line), `specs/Number.antt` and
//! `specs/Time.antt`: each result is a function of the whole text. No type keeps an invariant.
//! Begin a change at `cutter.rt`, which reads a line one character after the other, or at
//! `number.rt`, which cuts a number into parts and gives its value.
#![tactic(auto)]

mod cutter;
mod digits;
mod fault;
mod line_word;
mod number;
mod numbers;
mod quote;
mod scale;
mod time;
mod word;

pub use cutter::{line_words, words};
pub use fault::NumFault;
pub use line_word::{LineWord, LineWords};
pub use number::{read_millionths, read_millionths_bytes};
pub use numbers::{DIGITS_LIMIT, DURATION_LIMIT, EXPONENT_LIMIT, FRACTION_LIMIT, SECONDS_END};
pub use quote::quoted;
pub use time::{read_time, read_time_bytes, to_time};
pub use word::{Word, WordFault, Words};

#[cfg(test)]
mod tests;
