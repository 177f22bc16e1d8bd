//! The write queue and its calls.
ghost use Rattle.cd_queue.specs.Drops.{AreInOrder, after_offer, after_offers, fate_of, fates_of, is_dropped};
ghost use Rattle.std.specs.Prelude.{IfErr, IfOk, IsOk, OnErr, OnOk, [], drop, length, option_copied, slice_get, vec_len, ◌+◌, ◌<◌, ◌≡◌, ◌≤◌};
ghost use Rattle.std.specs.Vec.{vec_capacity};

use cd_value::{Memory, Offered, Refused, Sequence, ValueList};
use std::alloc::Global;
use std::collections::VecDeque;
use std::marker::Model;

/// Value lists that wait to be handled, the first that came first, as in collectd.conf(5), WriteQueueLimitHigh and
/// WriteQueueLimitLow. Contracts see for how many more lists there is room beside the lists; "as before" doesn't speak
/// of it.
#[derive(Drop)]
pub struct WriteQueue {
    high: u32,
    low: u32,
    lists: VecDeque<ValueList>,
}

impl Model for WriteQueue {
    ghost use Rattle.cd_queue.specs.Drops.{AreInOrder, Queue};
    ghost use Rattle.std.specs.Prelude.{◌-◌};
    ghost use Rattle.std.specs.VecDeque.{deque_capacity, deque_len};

    ghost Value = { Queue };

    ghost view = { λ queue. record {
      limits = record { high = queue.high; low = queue.low };
      lists = queue.lists.items;
      spare = deque_capacity queue.lists - deque_len queue.lists;
    } };

    ghost invariant = { λ queue. AreInOrder (record { high = queue.high; low = queue.low }) };
}

impl WriteQueue {
    /// An empty queue. A `high` of 0 means that there is no limit.
    pub fn new(alloc: Global, high: u32, low: u32) -> WriteQueue
        requires { AreInOrder (record { high = high; low = low }) }
        ensures limits { result.limits ≡ record { high = high; low = low } }
        ensures empty { result.lists ≡ [] }
    {
        WriteQueue {
            high,
            low,
            lists: VecDeque::new(alloc),
        }
    }

    /// Puts a list behind the others, or drops it, by the rule and its word of the dice.
    pub fn offer(
        &mut self,
        list: ValueList,
        word: u64,
    ) -> Result<Offered, Refused<ValueList, Memory>>
        ensures fate { IfOk result (λ fate.
            fate ≡ fate_of self.old.limits (length self.old.lists) word) }
        ensures lists { IfOk result (λ fate.
            self.new.lists ≡ after_offer self.old.lists list fate) }
        ensures err { OnErr result (self.new.lists ≡ self.old.lists) }
        ensures back { IfErr result (λ refused. refused.value ≡ list) }
        ensures limits { self.new.limits ≡ self.old.limits }

        // Where there is room it takes no memory, and room for one list at most.
        ensures room { 0 < self.old.spare → IsOk result }
        ensures spare { self.old.spare ≤ self.new.spare + 1 }
    {
        if self.drops(word) {
            return Ok(Offered::Dropped);
        }
        match self.lists.push_back(list) {
            Ok(()) => Ok(Offered::Kept),
            Err(refused) => Err(Refused {
                value: refused.value,
                why: Memory,
            }),
        }
    }

    /// Offers lists in order, each with its word, and gives what became of each; all of them or, where memory is
    /// lacking, none.
    pub fn offer_all(
        &mut self,
        alloc: Global,
        lists: Sequence<ValueList>,
        words: &[u64],
    ) -> Result<Sequence<Offered>, Refused<Sequence<ValueList>, Memory>>
        requires { length words.now ≡ length lists }
        ensures fates { IfOk result (λ fates.
            fates ≡ fates_of self.old.limits (length self.old.lists) words.now) }
        ensures lists { IfOk result (λ fates.
            self.new.lists ≡ after_offers self.old.lists lists fates) }
        ensures err { OnErr result (self.new.lists ≡ self.old.lists) }
        ensures back { IfErr result (λ refused. refused.value ≡ lists) }
        ensures limits { self.new.limits ≡ self.old.limits }
    {
        let Ok(fates) = Vec::with_capacity(alloc, lists.len()) else {
            return Err(Refused {
                value: lists,
                why: Memory,
            });
        };
        if self.reserve(lists.len() as u64).is_err() {
            return Err(Refused {
                value: lists,
                why: Memory,
            });
        }
        Ok(self.offer_each(lists, words, fates))
    }

    /// Offers lists in order, each with its word, where there is room for all of them and for their fates.
    fn offer_each(
        &mut self,
        lists: Sequence<ValueList>,
        words: &[u64],
        mut fates: Vec<Offered>,
    ) -> Sequence<Offered>
        requires words { length words.now ≡ length lists }
        requires room { length lists ≤ self.old.spare }
        requires empty { vec_len fates ≡ 0 }
        requires capacity { length lists ≤ vec_capacity fates }
        ensures fates { result ≡ fates_of self.old.limits (length self.old.lists) words.now }
        ensures lists { self.new.lists ≡ after_offers self.old.lists lists result }
        ensures limits { self.new.limits ≡ self.old.limits }
    {
        let mut rest = lists.into_vec().into_iter();
        for word in words {
            let Some(list) = rest.next() else {
                unreachable!()
            };
            match self.offer(list, *word) {
                Ok(fate) => fates.push_reserved(fate),
                Err(_) => unreachable!(),
            }
        }
        Sequence::from_vec(fates)
    }

    /// Makes room for a number of lists.
    pub fn reserve(&mut self, lists: u64) -> Result<(), Memory>
        ensures ok { OnOk result (lists ≤ self.new.spare) }
        ensures lists { self.new.lists ≡ self.old.lists }
        ensures limits { self.new.limits ≡ self.old.limits }
        ensures room { lists ≤ self.old.spare → IsOk result }
        ensures spare { self.old.spare ≤ self.new.spare }
    {
        self.lists.reserve(lists as usize)?;
        Ok(())
    }

    /// The first list.
    pub fn front(&self) -> Option<&ValueList>
        ensures { option_copied result ≡ slice_get self.now.lists 0 }
    {
        self.lists.front()
    }

    /// Takes the first list out.
    pub fn pop(&mut self) -> Option<ValueList>
        ensures first { result ≡ slice_get self.old.lists 0 }
        ensures rest { self.new.lists ≡ drop 1 self.old.lists }
        ensures limits { self.new.limits ≡ self.old.limits }
        ensures spare { self.old.spare ≤ self.new.spare }
    {
        self.lists.pop_front()
    }

    /// The number of lists.
    pub fn len(&self) -> u64
        ensures { result ≡ length self.now.lists }
    {
        self.lists.len() as u64
    }

    /// Whether a list with this word is dropped.
    fn drops(&self, word: u64) -> bool
        ensures { result ≡ is_dropped self.now.limits (length self.now.lists) word }
    {
        if self.high == 0 {
            return false;
        }
        let high = u64::from(self.high);
        let low = u64::from(self.low);
        let waiting = self.lists.len() as u64;
        high <= waiting || low <= waiting && word % (1 + high - low) < 1 + waiting - low
    }
}
