//! Laws of what is printed and read.
ghost use Rattle.cd_conf.specs.Blanks.{behind_blanks};
ghost use Rattle.cd_conf.specs.Canonical.{value_text};
ghost use Rattle.cd_conf.specs.Position.{at};
ghost use Rattle.cd_conf.specs.Quotes.{is_one_line};
ghost use Rattle.cd_conf.specs.ReadAgain.{PrintIsOneForm, PrintIsReadAgain};
ghost use Rattle.cd_conf.specs.Tree.{EachTextHasOneTree};
ghost use Rattle.cd_conf.specs.Values.{value_at};
ghost use Rattle.cd_conf.specs.declared.item.Arg.TheVariants.{Words};
ghost use Rattle.std.specs.Prelude.{IsTrue, List, [], ℕ, ◌++◌, ◌∷◌, ◌≡◌};
ghost use Rattle.std.specs.Str.{IsUtf8, chars};

/// A text that is printed as a value is read as itself, whatever follows it.
pub fn printed_texts_are_read_again()
    ensures { (t rest : List ℕ) (line : ℕ) → IsUtf8 t → IsTrue (is_one_line (chars t)) →
        value_at (at line (chars (value_text (Words t)) ++ rest))
        ≡ Ok (Some (Words t ∷ [], behind_blanks (at line rest))) }
{}

/// Reading what `print` printed of items that were read gives those items again, but for their
/// lines: each option, section start and section end has a line of its own, from 1. It holds where
/// the printed text isn't longer than a configuration text may be. Items that differ in their lines
/// alone are printed alike, so printing what was read again gives the same text.
pub fn print_is_read_again()
    ensures read { PrintIsReadAgain }
    ensures form { PrintIsOneForm }
{}

/// A text has one tree: items that write out the statements of one text are the same.
pub fn each_text_has_one_tree()
    ensures { EachTextHasOneTree }
{}
