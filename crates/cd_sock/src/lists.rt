//! The value lists of PUTVAL.
ghost use Rattle.cd_reading.specs.Gives.{Gives};
ghost use Rattle.cd_sock.specs.Faults.{line_fault};
ghost use Rattle.cd_sock.specs.Meaning.{lists_of, lists_or_fault, value_fault};
ghost use Rattle.cd_sock.specs.Values.{has_count, has_time};
ghost use Rattle.std.specs.List.{list_all};
ghost use Rattle.std.specs.Prelude.{IfOk, option_map, ◌≡◌};

use crate::LineFault;
use crate::values::{has_count, has_time, read_list};
use cd_text::LineWord;
use cd_value::{DataSource, Identifier, Lists, Memory, Sequence, TryCopy, ValueList};
use std::alloc::Global;

/// The lists of all but the last value word, with room for one more; none where a word has a fault.
fn earlier_lists(
    alloc: Global,
    sources: &[DataSource],
    words: &[LineWord],
    id: &Identifier,
    now: u64,
    interval: u64,
) -> Result<Option<Vec<ValueList>>, Memory>
    ensures { IfOk result (λ lists. option_map (λ v. v.items) lists
        ≡ lists_of sources.now id.now now interval words.now) }
{
    let mut lists = Vec::with_capacity(alloc, words.len() + 1)?;
    for word in words {
        let id = id.copy(alloc)?;
        let Some(list) = read_list(alloc, sources, word, id, now, interval)? else {
            return Ok(None);
        };
        lists.push(list)?;
    }
    Ok(Some(lists))
}

/// The lists of one value word or more; none where a word has a fault. The last list takes the
/// identifier, and each other one a copy.
fn try_lists(
    alloc: Global,
    sources: &[DataSource],
    words: &[LineWord],
    id: Identifier,
    now: u64,
    interval: u64,
) -> Result<Option<Lists>, Memory>
    ensures { IfOk result (λ lists. lists ≡ lists_of sources.now id now interval words.now) }
{
    let Some((last, earlier)) = words.split_last() else {
        return Ok(Some(Sequence::new(alloc)));
    };
    let Some(mut lists) = earlier_lists(alloc, sources, earlier, &id, now, interval)? else {
        return Ok(None);
    };
    let Some(list) = read_list(alloc, sources, last, id, now, interval)? else {
        return Ok(None);
    };
    lists.push(list)?;
    Ok(Some(Sequence::from_vec(lists)))
}

fn all_have_times(words: &[LineWord]) -> bool
    ensures { result ≡ list_all has_time words.now }
{
    words.iter().all(|word| has_time(word))
}

fn all_have_counts(sources: &[DataSource], words: &[LineWord]) -> bool
    ensures { result ≡ list_all (has_count sources.now) words.now }
{
    words.iter().all(|word| has_count(sources, word))
}

/// The first fault of value words, one of which has one.
fn value_fault(sources: &[DataSource], words: &[LineWord]) -> LineFault
    ensures { result ≡ value_fault sources.now words.now }
{
    if !all_have_times(words) {
        LineFault::BadTime
    } else if !all_have_counts(sources, words) {
        LineFault::WrongNumberOfValues
    } else {
        LineFault::BadValue
    }
}

/// The lists of one value word or more, or their first fault.
pub fn read_lists(
    alloc: Global,
    sources: &[DataSource],
    words: &[LineWord],
    id: Identifier,
    now: u64,
    interval: u64,
) -> Result<Lists, LineFault>
    ensures { Gives (λ lists. lists) line_fault result
        (lists_or_fault sources.now id now interval words.now) }
{
    match try_lists(alloc, sources, words, id, now, interval)? {
        Some(lists) => Ok(lists),
        None => Err(value_fault(sources, words)),
    }
}
