//! The top calls.
/// Which of the top calls words are for.
#[derive(Clone, Copy, Debug, PartialEq, Eq)]
pub enum Which {
    /// The daemon, which runs until it is stopped.
    Serve,
    /// A run, which ends by itself.
    Run,
}
