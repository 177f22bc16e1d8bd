//! Whether two answers are the same.
use crate::step::Reply;
use cd_cache_plain::are_rates;
use cd_core::{AcceptFault, Got, QueryFault};
use cd_registry::{AnsweredCall, Call, RetireFault};
use cd_value::{Fates, Rows, ValueList};

impl Reply {
    pub fn is_same(&self, other: &Reply) -> bool {
        match (self, other) {
            (Reply::Registered(one), Reply::Registered(other)) => *one == *other,
            (Reply::Closed(one), Reply::Closed(other)) => *one == *other,
            (Reply::Retired(one), Reply::Retired(other)) => is_same_retired(one, other),
            (Reply::Taken(one, call), Reply::Taken(other, same)) => {
                *one == *other && is_same_call(call, same)
            }
            (Reply::NoneReady, Reply::NoneReady) => true,
            (Reply::CameHome(one, answer), Reply::CameHome(other, same)) => {
                *one == *other && *answer == *same
            }
            (Reply::NoneOut, Reply::NoneOut) => true,
            (Reply::Accepted(one), Reply::Accepted(other)) => is_same_accepted(one, other),
            (Reply::Handled(one), Reply::Handled(other)) => *one == *other,
            (Reply::Got(one), Reply::Got(other)) => is_same_got(one, other),
            (Reply::Listed(one), Reply::Listed(other)) => are_same_rows(one, other),
            (Reply::FlushBegun(one), Reply::FlushBegun(other)) => *one == *other,
            (Reply::FlushEnded(one), Reply::FlushEnded(other)) => *one == *other,
            (Reply::Stopped, Reply::Stopped) => true,
            _ => false,
        }
    }
}

fn is_same_retired(
    one: &Result<Vec<AnsweredCall>, RetireFault>,
    other: &Result<Vec<AnsweredCall>, RetireFault>,
) -> bool {
    match (one, other) {
        (Ok(one), Ok(other)) => are_same_calls(one.as_slice(), other.as_slice()),
        (Err(one), Err(other)) => *one == *other,
        _ => false,
    }
}

fn are_same_calls(calls: &[AnsweredCall], others: &[AnsweredCall]) -> bool {
    if calls.len() != others.len() {
        return false;
    }
    for (one, other) in calls.iter().zip(others) {
        if one.answer != other.answer || !is_same_call(&one.call, &other.call) {
            return false;
        }
    }
    true
}

/// Whether two calls are the same. Those of a kind that the core doesn't make yet never are.
fn is_same_call(call: &Call, other: &Call) -> bool {
    match (call, other) {
        (Call::Configure(block), Call::Configure(same)) => *block == *same,
        (Call::Write(list), Call::Write(same)) => is_same_list(list, same),
        (
            Call::Flush {
                number,
                timeout,
                name,
            },
            Call::Flush {
                number: same_number,
                timeout: same_timeout,
                name: same_name,
            },
        ) => *number == *same_number && *timeout == *same_timeout && *name == *same_name,
        _ => false,
    }
}

fn is_same_list(list: &ValueList, other: &ValueList) -> bool {
    list.id.host == other.id.host
        && list.id.plugin == other.id.plugin
        && list.id.plugin_instance == other.id.plugin_instance
        && list.id.type_name == other.id.type_name
        && list.id.type_instance == other.id.type_instance
        && list.time == other.time
        && list.interval == other.interval
        && list.values.as_slice() == other.values.as_slice()
}

fn is_same_accepted(one: &Result<Fates, AcceptFault>, other: &Result<Fates, AcceptFault>) -> bool {
    match (one, other) {
        (Ok(one), Ok(other)) => one.as_slice() == other.as_slice(),
        (Err(one), Err(other)) => *one == *other,
        _ => false,
    }
}

fn is_same_got(one: &Result<Got, QueryFault>, other: &Result<Got, QueryFault>) -> bool {
    match (one, other) {
        (Ok(one), Ok(other)) => {
            one.names.as_slice() == other.names.as_slice()
                && are_rates(one.rates.as_slice(), other.rates.as_slice())
        }
        (Err(one), Err(other)) => *one == *other,
        _ => false,
    }
}

fn are_same_rows(rows: &Rows, others: &Rows) -> bool {
    if rows.len() != others.len() {
        return false;
    }
    for (row, other) in rows.as_slice().iter().zip(others.as_slice()) {
        if row.0 != other.0 || row.1 != other.1 {
            return false;
        }
    }
    true
}
