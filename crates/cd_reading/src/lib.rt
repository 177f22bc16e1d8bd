//! Definitions and lemmas for the readers of collectd's text formats: what a reader gives, and the
//! first fault of what it reads. It has no code.
#![tactic(auto)]
