//! The items of a configuration.
use cd_value::{Sequence, Text};

/// A value of an option or of a section's start.
#[derive(Drop)]
pub enum Arg {
    /// A text: a quoted string, or a word that is neither a number nor a flag.
    Words(Text),
    /// A number, in millionths.
    Number(i128),
    /// A flag.
    Flag(bool),
}

/// Values in order.
pub type Args = Sequence<Arg>;

/// An option, or a section with what stands in it.
#[derive(Drop)]
pub struct Item {
    /// The key as it is written.
    pub key: Text,
    /// Whether it is a section, which may be empty.
    pub section: bool,
    /// The values.
    pub args: Args,
    /// What stands in the section; an option has none.
    pub children: Items,
    /// The line where it begins, from 1.
    pub line: u32,
}

/// Items in order.
pub type Items = sqlite_items::Items<Item>;
