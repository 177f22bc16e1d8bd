//! What is asked of the daemon, and what it answers.
use cd_core::{AcceptFault, FlushEnd, FlushFault, Got, HandleFault, QueryFault, RegisterFault};
use cd_history::Handled;
use cd_registry::{Answer, AnsweredCall, Call, Kinds, NotRegistered, RetireFault};
use cd_value::{Fates, FlushRequest, Lists, Rows, Text};

/// What is asked, by whom, and at which moment in 2^-30 s.
#[derive(Drop)]
pub struct Event {
    pub actor: u64,
    pub now: u64,
    pub step: Step,
}

/// What is asked.
#[derive(Drop)]
pub enum Step {
    Register(Joining),
    Close(Text),
    Retire(u64),
    Take,
    /// The plug-in comes home that stands at this place among those that are out; the places go round.
    Done(u64),
    /// The lists, each with its word of the dice.
    Accept(Lists, Vec<u64>),
    Handle,
    Get(Text),
    List,
    FlushBegin(FlushRequest),
    FlushEnd(u64),
    Stop,
}

/// A plug-in that is registered: its name and kinds, the answers that it will give before it answers `Done`, and its
/// block of the configuration.
#[derive(Drop)]
pub struct Joining {
    pub name: Text,
    pub kinds: Kinds,
    pub answers: Vec<Answer>,
    pub block: Text,
}

/// What is answered.
#[derive(Drop)]
pub enum Reply {
    Registered(Result<u64, RegisterFault>),
    Closed(Result<u64, NotRegistered>),
    /// The calls that the plug-in got, with its answers.
    Retired(Result<Vec<AnsweredCall>, RetireFault>),
    /// The number of the registration, and the call.
    Taken(u64, Call),
    NoneReady,
    /// The number of the registration, and the answer.
    CameHome(u64, Answer),
    NoneOut,
    Accepted(Result<Fates, AcceptFault>),
    Handled(Result<Handled, HandleFault>),
    Got(Result<Got, QueryFault>),
    Listed(Rows),
    FlushBegun(Result<u64, FlushFault>),
    FlushEnded(Result<(u64, u64), FlushEnd>),
    Stopped,
    /// What no daemon answers: a reader is handed out, or two plug-ins of one registration are out, or a list that is
    /// offered doesn't fit its type.
    Never,
}
