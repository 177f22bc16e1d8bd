//! The three words of the table, and how far two of them go.

/// The word with the next ticket.
pub(crate) const NEXT: usize = 0;

/// The word with the ticket that is served: the length of the history.
pub(crate) const SERVED: usize = 1;

/// The word with the next actor number.
pub(crate) const ACTORS: usize = 2;

/// The last value of the words that tickets and actor numbers are drawn from: 2^62. Where one has it, no more are
/// drawn.
pub const MOST: u64 = 1 << 62;
