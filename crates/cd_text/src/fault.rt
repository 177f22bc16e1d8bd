//! Why a text is no number.

/// Why a text is no number or no time.
#[derive(Clone, Copy, Debug, PartialEq, Eq)]
pub enum NumFault {
    /// The text isn't of the form of a number or a time.
    BadNumber,
    /// The text is of the form, and its value passes the bound.
    OutOfRange,
}
