//! What a link is told for lines and events, and the history of a run over lines. But for a law it has definitions
//! and lemmas alone.
//!
//! - Stands on `cd_daemon` and `cd_sock` and what they stand on, and takes no handle.
//! - Read first `specs/Transcripts.antt`, then `specs/LineRuns.antt`; proofs of runs cite `proofs/Kept.antt` and
//!   `proofs/Ends.antt` too.
//! - A transcript is a relation between lines, the events that they use, and a text: a session's own events serve as
//!   well as those of a whole run. It goes on, and is one alone (`one_transcript`); the rules of a run make one
//!   history.
//! - A new command of a socket begins with a case of `IsTranscript` and one of `ServesLine`.
#![tactic(auto)]

mod laws;

pub use laws::one_transcript;
