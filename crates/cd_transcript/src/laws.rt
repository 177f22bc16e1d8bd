//! Laws of all transcripts.
ghost use Rattle.cd_daemon.specs.declared.Opening.{Opening};
ghost use Rattle.cd_history.specs.History.{Event};
ghost use Rattle.cd_sock.specs.Lines.{Cut};
ghost use Rattle.cd_transcript.specs.Transcripts.{IsTranscript, line_says};
ghost use Rattle.std.specs.Prelude.{List, ℕ, ◌≡◌};

/// Lines and the events that they use have one transcript alone.
pub fn one_transcript()
    ensures { (K : Opening) (lines : List Cut) (events : List Event) (text other : List ℕ) →
        IsTranscript (line_says K) lines events text →
        IsTranscript (line_says K) lines events other → text ≡ other }
{}
