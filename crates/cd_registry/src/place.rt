//! Where objects are.

/// Where the object of a registration is: at home, with an actor for a call or a reading, or handed out for good.
#[derive(Drop)]
pub enum Place<P, Q> {
    PlugHome(P),
    ProbeHome(Q),
    PlugOut(u64),
    ProbeOut(u64),
    Retired,
}
