//! Words as they stand in their line.
ghost use Rattle.std.specs.Prelude.{IfOk, OnOk, [], string_bytes, ◌++◌, ◌∷◌, ◌≡◌};

use crate::word::Word;
use cd_value::{Memory, Text};
use smallvec::SmallVec;
use std::alloc::{AllocError, Global};
use std::borrow::CowStr;
use std::marker::Model;

/// A word of a line. It borrows its text from the line where no quote stands in it, and contracts see it as a `Word`.
#[derive(Drop)]
pub struct LineWord<'a> {
    text: CowStr<'a>,
    start: u64,
}

impl<'a> Model for LineWord<'a> {
    ghost use Rattle.cd_text.specs.declared.word.Word.{Word};
    ghost use Rattle.std.specs.Cow.{cow_str_bytes};

    ghost Value = { Word };

    ghost view = { λ word. record { text = cow_str_bytes word.text; start = word.start } };
}

impl<'a> LineWord<'a> {
    /// The word that stands at a byte place of its line.
    pub(crate) fn borrowed(text: &'a str, start: u64) -> Self
        ensures { result ≡ record { text = text.now; start = start } }
    {
        LineWord {
            text: CowStr::Borrowed(text),
            start,
        }
    }

    /// The word that quotes in the line made.
    pub(crate) fn owned(text: String, start: u64) -> Self
        ensures { result ≡ record { text = string_bytes text; start = start } }
    {
        LineWord {
            text: CowStr::Owned(text),
            start,
        }
    }

    /// The word without its quotes.
    pub fn text(&self) -> &str
        ensures { result.now ≡ self.now.text }
    {
        self.text.as_str()
    }

    /// The word with a text of its own.
    pub(crate) fn to_word(&self, alloc: Global) -> Result<Word, Memory>
        ensures { IfOk result (λ word. word ≡ self.now) }
    {
        let text = Text::of(alloc, self.text())?;
        Ok(Word {
            text,
            start: self.start,
        })
    }
}

/// The empty word at the place 0.
impl<'a> Default for LineWord<'a> {
    fn default() -> Self {
        LineWord {
            text: CowStr::Borrowed(""),
            start: 0,
        }
    }
}

/// Words of a line in order, which contracts see as a list. Few of them take no memory.
#[derive(Drop)]
pub struct LineWords<'a> {
    words: SmallVec<LineWord<'a>, 4>,
}

impl<'a> Model for LineWords<'a> {
    ghost use Rattle.cd_text.specs.declared.word.Word.{Word};
    ghost use Rattle.std.specs.Prelude.{List};

    ghost Value = { List Word };

    ghost view = { λ list. list.words.items };
}

impl<'a> LineWords<'a> {
    /// No word.
    pub(crate) fn new(alloc: Global) -> Self
        ensures { result ≡ [] }
    {
        LineWords {
            words: SmallVec::new(alloc),
        }
    }

    /// Puts a word behind the others.
    pub(crate) fn push(&mut self, word: LineWord<'a>) -> Result<(), AllocError>
        ensures { OnOk result (self.new ≡ self.old ++ word.entry ∷ []) }
    {
        self.words.push(word)?;
        Ok(())
    }

    /// The words as a slice.
    pub fn as_slice(&self) -> &[LineWord<'a>]
        ensures { result.now ≡ self.now }
    {
        self.words.as_slice()
    }
}
