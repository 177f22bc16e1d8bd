//! Value lists that are written over fit as they did.
ghost use Rattle.cd_target.specs.Targets.{Keeps, rewritten};
ghost use Rattle.cd_target.specs.declared.target.Target.{Target};
ghost use Rattle.cd_types.specs.Types.{fits};
ghost use Rattle.cd_value.specs.declared.data.DataSet.{DataSet};
ghost use Rattle.cd_value.specs.declared.data.ValueList.{ValueList};
ghost use Rattle.std.specs.Prelude.{List, ◌≡◌};

/// What keeps the type and the values of a list fits exactly where that list does; so it is with what a target makes of
/// a list, and with what a filter chain leaves of it.
pub fn rewritten_list_fits()
    ensures kept { (sets : List DataSet) (old new : ValueList) →
        Keeps old new → fits sets new ≡ fits sets old }
    ensures rewritten { (sets : List DataSet) (target : Target) (list : ValueList) →
        fits sets (rewritten target list) ≡ fits sets list }
{}
