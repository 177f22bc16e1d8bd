//! Flushes, as FLUSH of collectd-unixsock(5) asks for them.
ghost use Rattle.cd_core.specs.Replies.{begin_reply, end_reply};
ghost use Rattle.cd_daemon.specs.Flushes.{flush_begun_by};
ghost use Rattle.cd_history.specs.declared.entry.Entry.TheVariants as entry;
ghost use Rattle.std.specs.List.{filter, find};
ghost use Rattle.std.specs.Prelude.{IfSome, OnErr, nat_eq, not, ℕ, ◌≡◌};

use crate::asking::{calls_of, missed, plugins_meant};
use crate::posting::{post_all, reserve_all};
use crate::{Core, Flush, FlushEnd, FlushFault};
use cd_registry::{TellsCalls, TellsReadings};
use cd_value::FlushRequest;
use std::alloc::Global;

impl<P: TellsCalls, Q: TellsReadings> Core<P, Q> {
    ghost use Rattle.cd_core.specs.Seen.{seen};
    ghost use Rattle.cd_core.specs.Stands.{Anyhow, Makes};

    /// Begins a flush, and gives its number: each live plug-in that is named and flushed, or where none is named each
    /// that is flushed, is called once for each name of values that is given, or once for all. `Stopping` after a stop;
    /// `Memory` where it was lacking, or as many flushes were begun as are counted. Then all is as it was.
    pub fn flush_begin(&mut self, alloc: Global, request: &FlushRequest) -> Result<u64, FlushFault>
        ensures step { IfSome (begin_reply result) (λ reply. (actor : ℕ) →
            Makes (seen P.plug_tells Q.probe_tells self.old)
            (seen P.plug_tells Q.probe_tells self.new) Anyhow
            (entry.FlushOpen actor request.now reply)) }
        ensures err { OnErr result (seen P.plug_tells Q.probe_tells self.new
            ≡ seen P.plug_tells Q.probe_tells self.old) }
    {
        if self.stopped {
            return Err(FlushFault::Stopping);
        }
        let number = self.begun;
        let Some(next) = number.checked_add(1) else {
            return Err(FlushFault::Memory);
        };
        let Ok(plugins) = plugins_meant(alloc, &self.registry, request) else {
            return Err(FlushFault::Memory);
        };
        let Ok(posts) = calls_of(alloc, number, request, plugins.as_slice()) else {
            return Err(FlushFault::Memory);
        };
        let unanswered = posts.len() as u64;
        if self.flushes.reserve(1).is_err() {
            return Err(FlushFault::Memory);
        }
        if reserve_all(&mut self.registry, posts.as_slice()).is_err() {
            return Err(FlushFault::Memory);
        }
        self.flushes.push_reserved(Flush {
            number,
            unanswered,
            successful: 0,
            errors: missed(request, plugins.as_slice()),
        });
        post_all(&mut self.registry, posts);
        self.begun = next;
        Ok(number)
    }

    /// The counts of a flush, once all its calls have answers: those answered with `Done`, and the others with the
    /// pairs for which there was nobody to call. The flush is forgotten. Only the actor that began it asks for it.
    /// Before, `NotYet` says how many calls have none; `NoSuchFlush`: no flush of the number is under way.
    pub fn flush_end(&mut self, number: u64) -> Result<(u64, u64), FlushEnd>
        ensures step { (actor : ℕ) → Makes (seen P.plug_tells Q.probe_tells self.old)
            (seen P.plug_tells Q.probe_tells self.new)
            (λ K H. IfSome (flush_begun_by number H) (λ beginner. beginner ≡ actor))
            (entry.FlushClose actor number (end_reply result)) }
        ensures err { OnErr result (seen P.plug_tells Q.probe_tells self.new
            ≡ seen P.plug_tells Q.probe_tells self.old) }
    {
        let Some(flush) = flush_of_number(&self.flushes, number) else {
            return Err(FlushEnd::NoSuchFlush);
        };
        if flush.unanswered != 0 {
            return Err(FlushEnd::NotYet(flush.unanswered));
        }
        forget(&mut self.flushes, number);
        Ok((flush.successful, flush.errors))
    }
}

/// The flush of a number, where it is under way.
fn flush_of_number(flushes: &[Flush], number: u64) -> Option<Flush>
    ensures { result ≡ find (λ flush. nat_eq flush.number number) flushes.now }
{
    for flush in flushes {
        if flush.number == number {
            return Some(*flush);
        }
    }
    None
}

/// Takes the flush of a number out.
fn forget(flushes: &mut Vec<Flush>, number: u64)
    ensures { flushes.new.items ≡ filter (λ flush. not (nat_eq flush.number number))
        flushes.old.items }
{
    flushes.retain(|flush| flush.number != number);
}
