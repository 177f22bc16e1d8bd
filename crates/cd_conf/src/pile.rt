//! The items that have been read, with the sections that are still open.
ghost use Rattle.cd_conf.specs.Faults.{conf_fault};
ghost use Rattle.cd_conf.specs.Pile.{Reads, open_section, opens_in, statements_in};
ghost use Rattle.cd_conf.specs.Statements.{End, Open, OptionOf, StartOf, closed, open_behind, statement_of};
ghost use Rattle.cd_conf.specs.Tree.{statements_of_items};
ghost use Rattle.cd_conf.specs.declared.head.LineKind.TheVariants.{SectionEnd};
ghost use Rattle.cd_reading.specs.Gives.{Gives};
ghost use Rattle.std.specs.Prelude.{Err, IsOk, List, MatchResult, OnOk, [], ◌++◌, ◌∷◌, ◌≡◌};

use crate::fault::{ConfFault, ConfKind};
use crate::head::{Head, LineKind};
use crate::item::{Args, Item, Items};
use crate::limits::NESTING_LIMIT;
use cd_value::{Memory, Text};
use std::alloc::Global;
use std::mem;

/// A section that is open, and what stands before it at its level.
#[derive(Drop)]
pub struct OpenSection {
    pub before: Items,
    pub key: Text,
    pub args: Args,
    pub line: u32,
}

/// The items so far of the innermost section, and the sections that are open, the outermost first.
#[derive(Drop)]
pub struct Pile {
    pub sections: Vec<OpenSection>,
    pub here: Items,
}

impl Pile {
    /// Nothing was read.
    pub fn new(alloc: Global) -> Self
        ensures statements { statements_in result ≡ [] }
        ensures opens { opens_in result ≡ [] }
    {
        Pile {
            sections: Vec::new(alloc),
            here: Items::new(alloc),
        }
    }

    /// Whether a head may stand here.
    pub fn allows(&self, line: u32, head: &Head) -> Result<(), ConfFault>
        ensures { MatchResult result
            (λ _. IsOk (open_behind (opens_in self.now) line head.now.kind head.now.key))
            (λ fault. open_behind (opens_in self.now) line head.now.kind head.now.key ≡ Err fault) }
    {
        match head.kind {
            LineKind::OptionLine => Ok(()),
            LineKind::SectionStart => {
                if self.sections.len() >= NESTING_LIMIT {
                    Err(ConfFault {
                        kind: ConfKind::TooDeep,
                        line,
                    })
                } else {
                    Ok(())
                }
            }
            LineKind::SectionEnd => self.allows_end(line, &head.key),
        }
    }

    /// Whether the innermost section has this key, whatever the case of its letters.
    fn allows_end(&self, line: u32, key: &Text) -> Result<(), ConfFault>
        ensures { MatchResult result
            (λ _. IsOk (open_behind (opens_in self.now) line SectionEnd key.now))
            (λ fault. open_behind (opens_in self.now) line SectionEnd key.now ≡ Err fault) }
    {
        match self.sections.last() {
            Some(section) if section.key.as_str().eq_ignore_ascii_case(key.as_str()) => Ok(()),
            _ => Err(ConfFault {
                kind: ConfKind::WrongEnd,
                line,
            }),
        }
    }

    /// Adds an option.
    fn put_option(&mut self, alloc: Global, key: Text, args: Args, line: u32) -> Result<(), Memory>
        ensures { OnOk result
            (Reads self.old self.new (OptionOf key args line) (opens_in self.old)) }
    {
        let children = Items::new(alloc);
        self.here.push(Item {
            key,
            section: false,
            args,
            children,
            line,
        })?;
        Ok(())
    }

    /// Opens a section.
    fn put_start(&mut self, alloc: Global, key: Text, args: Args, line: u32) -> Result<(), Memory>
        ensures { OnOk result (Reads self.old self.new (StartOf key args line)
            (open_section key line ∷ opens_in self.old)) }
    {
        let before = mem::replace(&mut self.here, Items::new(alloc));
        self.sections.push(OpenSection {
            before,
            key,
            args,
            line,
        })?;
        Ok(())
    }

    /// Ends the innermost section.
    fn put_end(&mut self) -> Result<(), Memory>
        ensures { (o : Open) (os : List Open) → opens_in self.old ≡ o ∷ os →
            OnOk result (Reads self.old self.new End os) }
    {
        let Some(section) = self.sections.pop() else {
            return Ok(());
        };
        let OpenSection {
            before,
            key,
            args,
            line,
        } = section;
        let children = mem::replace(&mut self.here, before);
        self.here.push(Item {
            key,
            section: true,
            args,
            children,
            line,
        })?;
        Ok(())
    }

    /// Adds what a line says.
    pub fn put(&mut self, alloc: Global, head: Head, args: Args, line: u32) -> Result<(), Memory>
        ensures { (further : List Open) →
            open_behind (opens_in self.old) line head.kind head.key ≡ Ok further →
            OnOk result (Reads self.old self.new
            (statement_of head.kind head.key args line) further) }
    {
        let Head { kind, key } = head;
        match kind {
            LineKind::OptionLine => self.put_option(alloc, key, args, line),
            LineKind::SectionStart => self.put_start(alloc, key, args, line),
            LineKind::SectionEnd => self.put_end(),
        }
    }

    /// The items, where no section is open.
    pub fn finish(self) -> Result<Items, ConfFault>
        ensures { Gives statements_of_items conf_fault result
            (closed (opens_in self) (statements_in self)) }
    {
        let Pile { sections, here } = self;
        match sections.last() {
            Some(section) => Err(ConfFault {
                kind: ConfKind::UnclosedSection,
                line: section.line,
            }),
            None => Ok(here),
        }
    }
}
