//! The plain values of the daemon: texts, identifiers, data sets, value lists, rates and
//! notifications. It stands on std alone and takes no handle.
//!
//! Read first `specs/Identifier.antt` (which fields make an identifier, and which one a text is)
//! and `specs/Rates.antt` (the rate of a value against the value before it). An `Identifier` keeps
//! its rule by the invariant of its type; a text and a list are seen as the list that they hold.
//! Begin a change at `data.rt`, which has the types; each other module has one kind's calls.
#![tactic(auto)]

mod data;
mod field;
mod identifier;
mod memory;
mod numbers;
mod print;
mod rate;
mod sequence;
mod text;
mod view;

pub use data::{
    DataSet, DataSource, DsType, FlushRequest, Notification, Offered, Rate, Severity, Value,
    ValueList,
};
pub use field::{clean, has_control, has_slash, longest_front};
pub use identifier::{IdFault, Identifier};
pub use memory::{Memory, Refused, TryCopy};
pub use numbers::{FIELD_LIMIT, MESSAGE_LIMIT, MILLIONTHS, NUMBER_LIMIT, SECOND, WRAP_OF_32_BITS};
pub use print::print_millionths;
pub use sequence::Sequence;
pub use text::Text;
pub use view::RateView;

/// The values of a value list, one for each data source of its type.
pub type Values = Sequence<Value>;
/// The data sources of a data set, in order.
pub type Sources = Sequence<DataSource>;
/// Value lists, in order.
pub type Lists = Sequence<ValueList>;
/// Rates, one for each data source.
pub type Rates = Sequence<Rate>;
/// Names, in order.
pub type Names = Sequence<Text>;
/// What became of each list that was offered to the write queue.
pub type Fates = Sequence<Offered>;
/// The times (in 2^-30 s) and names of cached value lists.
pub type Rows = Sequence<(u64, Text)>;

#[cfg(test)]
mod tests;
