//! Laws of what is printed, and of which set of a name stands.
ghost use Rattle.cd_types.specs.Entry.{bound_of};
ghost use Rattle.cd_types.specs.Latest.{TheLastStands};
ghost use Rattle.cd_types.specs.Printed.{bound_text, sets_text};
ghost use Rattle.cd_types.specs.Sets.{with_sets};
ghost use Rattle.cd_types.specs.Text.{sets_of_text};
ghost use Rattle.cd_types.specs.Types.{builtin};
ghost use Rattle.cd_types.specs.Valid.{AreValid};
ghost use Rattle.cd_types.specs.declared.limits.TheConstants.{FILE_LIMIT};
ghost use Rattle.cd_value.specs.declared.data.DataSet.{DataSet};
ghost use Rattle.cd_value.specs.declared.numbers.TheConstants.{NUMBER_LIMIT};
ghost use Rattle.std.specs.Prelude.{IfSome, List, Ok, Option, length, nat_abs, ℕ, ℤ, ◌≡◌, ◌≤◌};

/// Of the sets of one name that are put one after the other the last stands, and a name that none of
/// them has keeps its set.
pub fn the_last_of_a_name_stands()
    ensures { (others old : List DataSet) → TheLastStands others old (with_sets others old) }
{}

/// A bound that is printed is read as itself, where it isn't beyond the limit on numbers.
pub fn printed_bounds_are_read_again()
    ensures { (bound : Option ℤ) → IfSome bound (λ n. nat_abs n ≤ NUMBER_LIMIT) →
        bound_of (bound_text bound) ≡ Some bound }
{}

/// The sets that are known are valid and stand in the order of their names, each name once: those
/// that a text gives, the built-in ones, and valid ones with others put among them.
pub fn known_sets_are_valid()
    ensures read { (bytes : List ℕ) (sets : List DataSet) → sets_of_text bytes ≡ Ok sets →
        AreValid sets }
    ensures builtin { AreValid builtin }
    ensures merged { (others old : List DataSet) → AreValid others → AreValid old →
        AreValid (with_sets others old) }
{}

/// Reading what `print` printed of valid sets gives those sets again, where the printed text isn't
/// longer than a text of types.db(5) may be. Sets that were read are valid.
pub fn print_is_read_again()
    ensures valid { (sets : List DataSet) → AreValid sets → length (sets_text sets) ≤ FILE_LIMIT →
        sets_of_text (sets_text sets) ≡ Ok sets }
    ensures read { (bytes : List ℕ) (sets : List DataSet) → sets_of_text bytes ≡ Ok sets →
        length (sets_text sets) ≤ FILE_LIMIT → sets_of_text (sets_text sets) ≡ Ok sets }
{}
