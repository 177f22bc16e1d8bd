//! What is registered.
use crate::{Plug, Probe};
use std::marker::Send;

/// What is registered: a plug-in that is called, or one that is read.
#[derive(Drop)]
pub enum MemberOf<P, Q> {
    Plug(P),
    Probe(Q),
}

/// A member whose type is hidden in a box.
pub type Member = MemberOf<Box<dyn Plug + Send>, Box<dyn Probe + Send>>;
