//! The real outside. These objects tell nothing of content, and count their errors.
mod chance;
mod source;
mod streams;
mod time;
mod world;

pub use chance::RealDice;
pub use source::ReaderSource;
pub use streams::Streams;
pub use time::RealClock;
pub use world::RealWorld;
