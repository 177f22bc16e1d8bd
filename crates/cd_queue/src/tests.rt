//! Cases worked by hand from the rule.
ghost use Rattle.cd_queue.specs.Drops.{after_offer, fate_of};
ghost use Rattle.std.specs.Prelude.{IfOk, length, ◌≡◌, ◌≤◌};

use crate::WriteQueue;
use cd_value::{Identifier, Memory, Offered, Sequence, ValueList};
use std::alloc::Global;
use std::test::Fail;

fn list_at(alloc: Global, time: u64) -> Result<ValueList, Fail> {
    Ok(ValueList {
        id: Identifier::read(alloc, "h/p/gauge")?,
        time,
        interval: 1,
        values: Sequence::new(alloc),
    })
}

fn lists_at(alloc: Global, times: &[u64]) -> Result<Sequence<ValueList>, Fail> {
    let mut lists = Sequence::new(alloc);
    for time in times {
        lists.push(list_at(alloc, *time)?)?;
    }
    Ok(lists)
}

/// Offers a list, which is let go where memory is lacking.
fn offer(queue: &mut WriteQueue, list: ValueList, word: u64) -> Result<Offered, Memory>
    ensures fate { IfOk result (λ fate.
        fate ≡ fate_of queue.old.limits (length queue.old.lists) word) }
    ensures lists { IfOk result (λ fate.
        queue.new.lists ≡ after_offer queue.old.lists list fate) }
    ensures limits { queue.new.limits ≡ queue.old.limits }
{
    queue.offer(list, word).map_err(|refused| refused.why)
}

/// A queue with that many lists.
fn queue_of(alloc: Global, high: u32, low: u32, waiting: usize) -> Result<WriteQueue, Fail>
    requires { low ≤ high }
{
    let mut queue = WriteQueue::new(alloc, high, low);
    for time in 0..waiting {
        offer(&mut queue, list_at(alloc, time as u64)?, 2)?;
    }
    Ok(queue)
}

#[test]
fn drops_by_word(rt: HostRuntime) -> Result<(), Fail> {
    let alloc = rt.alloc();
    let (kept, dropped) = (Offered::Kept, Offered::Dropped);
    for (waiting, fates) in [
        (0, [kept, kept, kept]),
        (1, [kept, kept, kept]),
        (2, [dropped, kept, kept]),
        (3, [dropped, dropped, kept]),
        (4, [dropped, dropped, dropped]),
    ] {
        for (word, fate) in fates.iter().enumerate() {
            let mut queue = queue_of(alloc, 4, 2, waiting)?;
            let got = offer(&mut queue, list_at(alloc, 9)?, word as u64)?;
            assert_eq!(rt; got, *fate, "{waiting} wait, word {word}");
        }
    }
    Ok(())
}

#[test]
fn keeps_order(rt: HostRuntime) -> Result<(), Fail> {
    let alloc = rt.alloc();
    let mut queue = WriteQueue::new(alloc, 2, 2);
    queue.reserve(2)?;
    let lists = lists_at(alloc, &[1, 2, 3])?;
    assert_eq!(rt; lists.len(), 3);
    let offered = queue.offer_all(alloc, lists, &[5, 6, 7]);
    let fates = offered.map_err(|refused| refused.why)?;
    assert_eq!(rt;
        fates.as_slice(),
        [Offered::Kept, Offered::Kept, Offered::Dropped].as_slice()
    );
    assert_eq!(rt; queue.len(), 2);
    assert_eq!(rt; queue.front().map(|list| list.time), Some(1));
    assert_eq!(rt; queue.pop().map(|list| list.time), Some(1));
    assert_eq!(rt; queue.pop().map(|list| list.time), Some(2));
    assert!(rt; queue.pop().is_none());
    Ok(())
}

#[test]
fn has_no_limit(rt: HostRuntime) -> Result<(), Fail> {
    let alloc = rt.alloc();
    let mut queue = WriteQueue::new(alloc, 0, 7);
    for time in 0..100 {
        let got = offer(&mut queue, list_at(alloc, time)?, 0)?;
        assert_eq!(rt; got, Offered::Kept);
    }
    assert_eq!(rt; queue.len(), 100);
    Ok(())
}
