//! What is lost of many names, and how many are looked at for it.
use crate::draw::counters;
use cd_cache::Cache;
use cd_value::{Identifier, Memory, SECOND, Sequence, ValueList};
use std::alloc::Global;

/// How many names there are. The list of each number comes at as many seconds, with an interval of 10 s.
pub const COUNT: u64 = 1_000;

/// So many names are lost, and so many were looked at.
#[derive(Clone, Copy)]
pub struct Losses {
    pub lost: usize,
    pub looks: u64,
}

/// The list of a number.
fn list_of(alloc: Global, number: u64) -> Result<ValueList, Memory> {
    let text = format!(in alloc; "h/p-{number}/t")?;
    let Ok(id) = Identifier::read(alloc, text.as_str()) else {
        return Err(Memory);
    };
    Ok(ValueList {
        id,
        time: number.saturating_mul(SECOND),
        interval: 10 * SECOND,
        values: Sequence::new(alloc),
    })
}

/// What is lost of the names at a second, with a timeout of 2 intervals.
pub fn lost_at(alloc: Global, second: u64) -> Result<Losses, Memory> {
    let mut cache = Cache::new(alloc, 2);
    let set = counters(alloc)?;
    for number in 1..=COUNT {
        let list = list_of(alloc, number)?;
        cache.update(alloc, &list, &set, list.time)?;
    }
    let mut looks = 0;
    let lost = cache.lost_with(alloc, second.saturating_mul(SECOND), &mut looks)?;
    Ok(Losses {
        lost: lost.len(),
        looks,
    })
}
