//! Laws of what files come to.
ghost use Rattle.cd_opening.specs.Laws.{TextsHaveOneAnswer};
ghost use Rattle.cd_settings.specs.Settings.{settings_of};
ghost use Rattle.std.specs.Prelude.{[]};
ghost use Rattle.std.specs.Result.{IsOk};

use cd_conf::each_text_has_one_tree;

/// Where a world tells its files, what `open_configuration` answers of their texts is one answer: the whole, or a fault
/// of a text. A bad pattern at the line of an option whose text is a pattern, where all items before it are in order,
/// is none of these, since it may be too big when it is compiled.
pub fn texts_have_one_answer()
    ensures { TextsHaveOneAnswer }
{
    each_text_has_one_tree();
}

/// No item makes settings: `open_defaults` fails where memory is lacking, and nowhere else.
pub fn no_item_makes_settings()
    ensures { IsOk (settings_of []) }
{}
