//! Laws of all lists of steps.
ghost use Rattle.cd_daemon.specs.Answers.{is_idle, ready};
ghost use Rattle.cd_daemon.specs.Legal.{IsLegal};
ghost use Rattle.cd_core.specs.Objects.{IsLent};
ghost use Rattle.cd_core.specs.Seen.{CoreSeen};
ghost use Rattle.cd_core.specs.Stands.{Stands};
ghost use Rattle.cd_core.specs.Steps.{AllMay, AreSteps, Step, core_after, history_after, is_brought_home_by, is_home_of};
ghost use Rattle.cd_daemon.specs.declared.Opening.{Opening};
ghost use Rattle.cd_history.specs.History.{Event, History, ◌▸◌};
ghost use Rattle.cd_history.specs.Order.{IsFrontOf};
ghost use Rattle.cd_history.specs.declared.entry.Entry.TheVariants as entry;
ghost use Rattle.cd_registry.specs.Rows.{At, IsPlugOut};
ghost use Rattle.cd_registry.specs.declared.calls.Call.{Call};
ghost use Rattle.cd_registry.specs.declared.plug.PlugTells.{PlugTells};
ghost use Rattle.std.specs.List.{list_all};
ghost use Rattle.std.specs.Prelude.{Bool, IsTrue, List, None, [], false, not, true, ℕ, ◌≡◌};

/// The clauses of the steps compose: whatever steps are made, each as a method's clause has it, in whatever order and
/// by whomever may make them, the core stands for the history of their events. So each reply is that of the one-thread
/// daemon, with whatever plug-ins out for calls.
pub fn every_list_of_steps_stands()
    ensures { (K : Opening) (core : CoreSeen) (P : History) (steps : List Step) →
        Stands K core P → AreSteps core steps → AllMay K P steps →
        Stands K (core_after core steps) (history_after P steps) }
{}

/// A plug-in that is out with an actor stays so, and what it told at home stays so too, until it comes home: whatever
/// comes meanwhile, the actor may bring it home.
pub fn plugin_stays_out_until_it_comes_home()
    ensures { (K : Opening) (P : History) (e : Event) (actor reg : ℕ) (call : Call)
        (told : PlugTells) →
        IsLegal K (P ▸ e) → is_home_of reg e ≡ false →
        IsLent P actor reg call told → IsLent (P ▸ e) actor reg call told }
{}

/// So it does along a history: nobody but the actor brings it home.
pub fn plugin_stays_out_until_its_actor_brings_it_home()
    ensures { (K : Opening) (P H : History) (actor reg : ℕ) (call : Call) (told : PlugTells)
        (front : IsFrontOf P H) →
        IsLegal K H → IsTrue (list_all (λ e. not (is_brought_home_by actor reg e)) front.later) →
        IsLent P actor reg call told → IsLent H actor reg call told }
{}

/// A core without a list in its queue is idle where no plug-in is ready.
pub fn core_without_work_is_idle()
    ensures { (K : Opening) (core : CoreSeen) (P : History) →
        Stands K core P → core.queue ≡ [] → ready K P ≡ None → IsTrue (is_idle K P) }
{}

/// To look whether there is work changes nothing: the core stands for the history with that event too.
pub fn looking_changes_nothing()
    ensures { (K : Opening) (core : CoreSeen) (P : History) (actor : ℕ) (idle : Bool) →
        Stands K core P → (idle ≡ true → IsTrue (is_idle K P)) →
        Stands K core (P ▸ entry.Look actor idle) }
{}

/// A plug-in that is out with an actor is out in the core: so it may be given home.
pub fn plugin_that_is_out_may_come_home()
    ensures { (K : Opening) (core : CoreSeen) (P : History) (actor reg : ℕ) (call : Call)
        (told : PlugTells) →
        Stands K core P → IsLent P actor reg call told → At core.rows reg IsPlugOut }
{}
