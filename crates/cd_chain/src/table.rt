//! Tables of chains that were accepted.
ghost use Rattle.cd_chain.specs.Chains.{number_of, run_numbered, run_of};
ghost use Rattle.cd_chain.specs.Refusals.{IsFaultOf, TellsLeastWalk};
ghost use Rattle.cd_chain.specs.Tables.{fault_of};
ghost use Rattle.cd_match.specs.Matches.{Scene};
ghost use Rattle.cd_target.specs.Targets.{Keeps};
ghost use Rattle.std.specs.Prelude.{◌≡◌, ◌==◌, ◌<◌, length, IfOk, IfErr, IfSome, None};

use crate::accept::fault_of;
use crate::evaluate::run_on;
use crate::jumps::position_of;
use crate::{Chain, ChainFault, Chains, Evaluated};
use cd_value::{DataSet, Memory, RateView, Refused, ValueList};
use std::alloc::Global;
use std::marker::Model;

/// Filter chains that jump to one another, as in collectd.conf(5), "Filter configuration". Their
/// names differ, each rule has a target, each jump goes to a chain, no chain reaches itself, and
/// none weighs more than 4,096.
#[derive(Drop)]
pub struct ChainTable {
    chains: Vec<Chain>,
}

impl Model for ChainTable {
    ghost use Rattle.cd_chain.specs.Tables.{is_accepted};
    ghost use Rattle.cd_chain.specs.declared.data.Chain.{Chain};
    ghost use Rattle.std.specs.Prelude.{List, IsTrue};

    ghost Value = { List Chain };

    ghost view = { λ table. table.chains.items };

    ghost invariant = { λ table. IsTrue (is_accepted table.chains.items) };
}

impl ChainTable {
    /// A table of these chains. They are handed back where they are refused.
    pub fn build(alloc: Global, chains: Chains) -> Result<ChainTable, Refused<Chains, ChainFault>>
        ensures ok { IfOk result (λ table. table ≡ chains) }
        ensures accepted { IfOk result (λ table. fault_of table ≡ None) }
        ensures back { IfErr result (λ refused. refused.value ≡ chains) }
        ensures cause { IfErr result (λ refused. IsFaultOf chains refused.why) }

        // A cycle is told by the least walk.
        ensures least { IfErr result (λ refused. TellsLeastWalk chains refused.why) }
    {
        match fault_of(alloc, chains.as_slice()) {
            Ok(None) => Ok(ChainTable {
                chains: chains.into_vec(),
            }),
            Ok(Some(why)) => Err(Refused { value: chains, why }),
            Err(Memory) => Err(Refused {
                value: chains,
                why: ChainFault::Memory,
            }),
        }
    }

    /// The number of chains.
    pub fn len(&self) -> usize
        ensures { result ≡ length self.now }
    {
        self.chains.len()
    }

    /// Whether there is no chain.
    pub fn is_empty(&self) -> bool
        ensures { result ≡ (length self.now == 0) }
    {
        self.chains.is_empty()
    }

    /// The number of the chain of a name.
    pub fn find(&self, name: &str) -> Option<u64>
        ensures number { result ≡ number_of name.now self.now }
        ensures inside { IfSome result (λ number. number < length self.now) }
    {
        match position_of(self.chains.as_slice(), name) {
            Some(number) => Some(number as u64),
            None => None,
        }
    }

    /// What the chain of a number does with a list that fits its data set: how it ends, the list as it is then, and
    /// what is to be done, in order, as in collectd.conf(5), "Filter configuration". The list is copied at the first
    /// target that rewrites it, and at each write. The view has the rates under each name, in millionths; the moment is
    /// in 2^-30 s. The table stays as it was, also where `Memory` was lacking.
    pub fn run<V: RateView>(
        &mut self,
        alloc: Global,
        chain: u64,
        list: &ValueList,
        set: &DataSet,
        view: &V,
        now: u64,
    ) -> Result<Evaluated, Memory>
        requires { chain < length self.old }
        ensures run { IfOk result (λ done. let scene : Scene
            = record { set = set.now; rates = V.rates_at view.now; now = now } in
            run_of list.now done ≡ run_numbered scene self.old chain list.now) }

        // A list that fitted its data set still does.
        ensures keeps { IfOk result (λ done. Keeps list.now (run_of list.now done).list) }
        ensures same { self.new ≡ self.old }
    {
        run_on(
            alloc,
            self.chains.as_mut_slice(),
            chain as usize,
            list,
            set,
            view,
            now,
        )
    }
}
