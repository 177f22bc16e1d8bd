//! Laws of all tables of filter chains that are accepted.
ghost use Rattle.cd_chain.specs.Chains.{chain_named, chain_weight, ended, out, run_chain, step_or, weight};
ghost use Rattle.cd_chain.specs.Tables.{fault_of};
ghost use Rattle.cd_chain.specs.declared.data.Chain.{Chain};
ghost use Rattle.cd_chain.specs.declared.data.Run.{Run};
ghost use Rattle.cd_chain.specs.declared.data.Verdict.TheVariants.{Continue};
ghost use Rattle.cd_match.specs.Matches.{Scene};
ghost use Rattle.cd_value.specs.declared.data.ValueList.{ValueList};
ghost use Rattle.std.specs.Prelude.{List, None, Some, ℕ, ◌≡◌};

/// A chain does what its rules and targets say, and a jump in it what the other chain does.
pub fn jumps_do_what_chains_do()
    ensures { (scene : Scene) (table : List Chain) (name : List ℕ) (chain : Chain) (list : ValueList) →
        fault_of table ≡ None → chain_named name table ≡ Some chain →
        out scene table name list ≡ run_chain scene (out scene table) chain list }
{}

/// Nothing but this is so of each chain; a name of no chain leaves a list as it is.
pub fn nothing_else_does_so()
    ensures { (scene : Scene) (table : List Chain) (other : List ℕ → ValueList → Run) →
        fault_of table ≡ None →
        ((name : List ℕ) →
        other name ≡ step_or (run_chain scene) (ended Continue) other (chain_named name table)) →
        (name : List ℕ) → other name ≡ out scene table name }
{}

/// A chain weighs what its targets weigh, and a jump 1 more than the chain that it goes to.
pub fn jumps_weigh_as_chains_do()
    ensures { (table : List Chain) (name : List ℕ) (chain : Chain) →
        fault_of table ≡ None → chain_named name table ≡ Some chain →
        weight table name ≡ chain_weight (weight table) chain }
{}
