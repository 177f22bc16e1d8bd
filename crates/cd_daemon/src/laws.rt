//! Laws of all histories of the daemon.
ghost use Rattle.cd_daemon.specs.Answers.{flush_close_answer, is_idle, queued, ready, retire_answer};
ghost use Rattle.cd_daemon.specs.Calls.{answered_calls, calls_to};
ghost use Rattle.cd_daemon.specs.Flushes.{flush_begun_by, flush_errors, flush_successful, flush_unanswered, tells_counts, under_way};
ghost use Rattle.cd_daemon.specs.Legal.{IsLegal};
ghost use Rattle.cd_daemon.specs.Settled.{IsSettled};
ghost use Rattle.cd_daemon.specs.declared.Opening.{Opening};
ghost use Rattle.cd_history.specs.History.{History, ◌▸◌};
ghost use Rattle.cd_history.specs.Leases.{answered, answers_to, taken_by};
ghost use Rattle.cd_history.specs.Order.{IsFrontOf};
ghost use Rattle.cd_history.specs.Registrations.{closed_by, is_closed, is_retired};
ghost use Rattle.cd_history.specs.declared.entry.Entry.TheVariants as entry;
ghost use Rattle.cd_history.specs.declared.entry.FlushEnd.TheVariants as ends;
ghost use Rattle.cd_value.specs.declared.data.FlushRequest.{FlushRequest};
ghost use Rattle.std.specs.List.{list_all, list_any};
ghost use Rattle.std.specs.Prelude.{IsTrue, None, Ok, Some, [], false, map, nat_eq, not, ℕ, ◌≡◌};

/// A daemon that stopped and has no list left stays so, whatever comes after: it takes no list any more.
pub fn settled_daemon_stays_settled()
    ensures { (K : Opening) (P H : History) →
        IsLegal K H → IsFrontOf P H → IsSettled P → IsSettled H }
{}

/// Nor does it make a call any more, to any registration.
pub fn settled_daemon_makes_no_call()
    ensures { (K : Opening) (P H : History) (r : ℕ) →
        IsLegal K H → IsFrontOf P H → IsSettled P → calls_to K r H ≡ calls_to K r P }
{}

/// The calls of a registration that were answered are the first of all its calls, in order, and each has the answer
/// that came in its turn.
pub fn answers_are_to_the_calls()
    ensures { (K : Opening) (P : History) (r : ℕ) → IsLegal K P →
        answered r P ≡ answered_calls (calls_to K r P) (answers_to r P) }
{}

/// An idle daemon owes no flush an answer: where no plug-in is ready and none is out, each call that a flush made was
/// answered.
pub fn idle_daemon_owes_no_answer()
    ensures { (K : Opening) (P : History) (f : ℕ) →
        IsLegal K P → ready K P ≡ None → ((r : ℕ) → taken_by r P ≡ None) →
        flush_unanswered f P ≡ 0 }
{}

/// So it tells the counts of each flush that is under way.
pub fn idle_daemon_tells_counts()
    ensures { (K : Opening) (P : History) (f : ℕ) →
        IsLegal K P → ready K P ≡ None → ((r : ℕ) → taken_by r P ≡ None) →
        IsTrue (list_any (nat_eq f) (under_way P)) →
        flush_close_answer P f ≡ ends.Counts (flush_successful f P) (flush_errors f P) }
{}

/// A flush is under way from its beginning on, until its counts are told.
pub fn flush_is_under_way_until_its_counts()
    ensures begun { (P : History) (actor f : ℕ) (request : FlushRequest) →
        IsTrue (list_any (nat_eq f) (under_way (P ▸ entry.FlushOpen actor request (Ok f)))) }
    ensures stays { (P H : History) (f : ℕ) (front : IsFrontOf P H) →
        IsTrue (list_all (λ e. not (tells_counts f e)) front.later) →
        IsTrue (list_any (nat_eq f) (under_way P)) → IsTrue (list_any (nat_eq f) (under_way H)) }
{}

/// Who closed a registration stays known, and so does who began a flush.
pub fn closer_and_beginner_stay_known()
    ensures closed { (P : History) (r actor : ℕ) →
        closed_by r P ≡ Some actor → IsTrue (is_closed r P) }
    ensures closer { (K : Opening) (P H : History) (r actor : ℕ) → IsLegal K H → IsFrontOf P H →
        closed_by r P ≡ Some actor → closed_by r H ≡ Some actor }
    ensures beginner { (K : Opening) (P H : History) (f actor : ℕ) → IsLegal K H → IsFrontOf P H →
        flush_begun_by f P ≡ Some actor → flush_begun_by f H ≡ Some actor }
{}

/// No call is made to a registration once it is closed.
pub fn closed_registration_is_not_called()
    ensures { (K : Opening) (P H : History) (r : ℕ) → IsLegal K H → IsFrontOf P H →
        IsTrue (is_closed r P) → calls_to K r H ≡ calls_to K r P }
{}

/// Where the object of a registration may be handed out, all calls to it were answered.
pub fn object_handed_out_answered_all_calls()
    ensures { (K : Opening) (P : History) (r : ℕ) → IsLegal K P → retire_answer K P r ≡ Ok tt →
        map (λ one. one.call) (answered r P) ≡ calls_to K r P }
{}

/// An idle daemon hands out the object of each closed registration that it didn't hand out before.
pub fn idle_daemon_hands_out_objects()
    ensures { (K : Opening) (P : History) (r : ℕ) →
        IsLegal K P → ready K P ≡ None → ((r : ℕ) → taken_by r P ≡ None) →
        IsTrue (is_closed r P) → is_retired r P ≡ false → retire_answer K P r ≡ Ok tt }
{}

/// The daemon is idle where no list is queued and no plug-in is ready.
pub fn daemon_without_work_is_idle()
    ensures { (K : Opening) (P : History) →
        queued P ≡ [] → ready K P ≡ None → IsTrue (is_idle K P) }
{}
