//! A link in memory.
ghost use Rattle.cd_io.specs.Link.{Hears, Says, heard_count, is_quiet};
ghost use Rattle.std.specs.Prelude.{IfOk, MatchOption, None, Ok, Some, [], is_err, length, ℕ, ◌-◌, ◌<◌, ◌^◌, ◌≡◌, ◌≤◌};

use crate::{Failed, Heard, Link};
use std::alloc::Global;

/// Which calls on a link in memory don't go through, and how much one call gives. The calls of `hear` are numbered
/// from 0, and so are those of `say`.
#[derive(Drop)]
pub struct LinkPlan {
    /// The calls of `hear` that fail.
    pub failing_hears: Vec<u64>,
    /// The calls of `hear` that bring nothing, where they don't fail.
    pub quiet_hears: Vec<u64>,
    /// The calls of `say` that fail.
    pub failing_says: Vec<u64>,
    /// How many bytes one call of `hear` gives at most; 0 counts as 1.
    pub piece_limit: usize,
}

impl LinkPlan {
    /// All calls go through, and a call of `hear` gives what the buffer holds.
    pub fn new(alloc: Global) -> Self
        ensures failing_hears { result.failing_hears.items ≡ [] }
        ensures quiet_hears { result.quiet_hears.items ≡ [] }
        ensures failing_says { result.failing_says.items ≡ [] }
        ensures piece_limit { result.piece_limit ≡ 2 ^ 64 - 1 }
    {
        LinkPlan {
            failing_hears: Vec::new(alloc),
            quiet_hears: Vec::new(alloc),
            failing_says: Vec::new(alloc),
            piece_limit: usize::MAX,
        }
    }
}

/// A link whose peer has sent all that it will send.
///
/// `say` takes a whole piece where it doesn't fail. What was said is no longer told once memory to keep it was
/// lacking.
#[derive(Drop)]
pub struct MemLink {
    input: Vec<u8>,
    taken: usize,
    output: Option<Vec<u8>>,
    plan: LinkPlan,
    hears: u64,
    says: u64,
    faults: u64,
    quiets: u64,
    ghost within: { taken ≤ length input.items },
}

impl MemLink {
    ghost use Rattle.cd_io.specs.MemLink.{hears_of, plan_of, says_of, told_first};

    /// A link on which the peer has sent `input`.
    pub fn new(alloc: Global, input: Vec<u8>, plan: LinkPlan) -> Self
        ensures tells { ⟦<MemLink as Link>⟧.link_tells result ≡ told_first input.items }
        ensures plan { plan_of result ≡ plan }
        ensures hears { hears_of result ≡ 0 }
        ensures says { says_of result ≡ 0 }
    {
        MemLink {
            input,
            taken: 0,
            output: Some(Vec::new(alloc)),
            plan,
            hears: 0,
            says: 0,
            faults: 0,
            quiets: 0,
        }
    }

    /// What was said, where it is told.
    pub fn output(&self) -> Option<&[u8]>
        ensures { MatchOption result ((⟦<MemLink as Link>⟧.link_tells self.now).said ≡ None)
            (λ bytes. (⟦<MemLink as Link>⟧.link_tells self.now).said ≡ Some bytes.now) }
    {
        match &self.output {
            Some(bytes) => Some(bytes.as_slice()),
            None => None,
        }
    }
}

// The clauses of the trait, and that just the calls of the plan fail or are quiet.
impl Link for MemLink {
    ghost use Rattle.cd_io.specs.MemLink.{fails_to_hear, fails_to_say, hears_of, is_planned_quiet, next_number, plan_of, planned_count, says_of, tells_of};

    ghost link_tells = { tells_of };

    fn hear(&mut self, buf: &mut [u8]) -> Result<Heard, Failed>
        requires { 0 < length buf.old }
        ensures got { heard_count result ≤ length buf.new }
        ensures some { (n : ℕ) → result ≡ Ok (Heard.Got n) → 0 < n }
        ensures hears { Hears result buf.new (tells_of self.old) (tells_of self.new) }

        // The plan decides how the call goes.
        ensures fails { is_err result ≡ fails_to_hear (plan_of self.old) (hears_of self.old) }
        ensures is_quiet { is_quiet result
            ≡ is_planned_quiet (plan_of self.old) (hears_of self.old) }
        ensures count { heard_count result ≡ planned_count self.old (length buf.old) }
        ensures plan { plan_of self.new ≡ plan_of self.old }
        ensures hears_next { hears_of self.new ≡ next_number (hears_of self.old) }
        ensures says_next { says_of self.new ≡ says_of self.old }
    {
        let number = self.hears;
        self.hears = number.saturating_add(1);
        if self.plan.failing_hears.contains(&number) {
            return Err(Failed::counted(&mut self.faults));
        }
        if self.plan.quiet_hears.contains(&number) {
            self.quiets = self.quiets.saturating_add(1);
            return Ok(Heard::Quiet);
        }
        let rest = &self.input[self.taken..];
        if rest.is_empty() {
            return Ok(Heard::End);
        }
        let most = buf.len().min(self.plan.piece_limit.max(1));
        let count = rest.len().min(most);
        buf[..count].copy_from_slice(&rest[..count]);
        self.taken += count;
        Ok(Heard::Got(count))
    }

    fn say(&mut self, text: &[u8]) -> Result<usize, Failed>
        ensures bound { IfOk result (λ n. n ≤ length text.now) }
        ensures some { IfOk result (λ n. 0 < length text.now → 0 < n) }
        ensures says { Says result text.now (tells_of self.old) (tells_of self.new) }

        // The plan decides whether the call fails, and the others take the whole text.
        ensures fails { is_err result ≡ fails_to_say (plan_of self.old) (says_of self.old) }
        ensures whole { IfOk result (λ n. n ≡ length text.now) }
        ensures plan { plan_of self.new ≡ plan_of self.old }
        ensures hears_next { hears_of self.new ≡ hears_of self.old }
        ensures says_next { says_of self.new ≡ next_number (says_of self.old) }
    {
        let number = self.says;
        self.says = number.saturating_add(1);
        if self.plan.failing_says.contains(&number) {
            return Err(Failed::counted(&mut self.faults));
        }
        if let Some(output) = &mut self.output {
            if output.extend_from_slice(text).is_err() {
                self.output = None;
            }
        }
        Ok(text.len())
    }
}
