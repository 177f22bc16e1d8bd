//! Files in memory.
ghost use Rattle.std.specs.List.{slice_get};
ghost use Rattle.std.specs.Option.{option_map};
ghost use Rattle.std.specs.Prelude.{IfOk, IfSome, IsSome, OnErr, [], length, map, ◌∷◌, ◌≡◌, ◌≤◌};
ghost use Rattle.std.specs.Str.{bytes_eq};

use crate::{MemSource, Source, SourcePlan};
use std::alloc::{AllocError, Global};

/// A file in memory: its path, and the texts of its openings in order, of which the last stands for all later ones.
/// Each opening is read by the file's plan.
#[derive(Drop)]
pub struct MemFile {
    path: String,
    texts: Vec<Vec<u8>>,
    plan: SourcePlan,
    opened: usize,
    ghost within: { opened ≤ length texts.items },
}

impl MemFile {
    ghost use Rattle.cd_io.specs.MemFile.{plan_of, shown};
    ghost use Rattle.cd_io.specs.MemSource.{BeginsBy, no_plan, plan_tells, told_first};
    ghost use Rattle.cd_io.specs.World.{later};

    /// The file of a path with these texts.
    pub fn new(
        alloc: Global,
        path: &str,
        texts: Vec<Vec<u8>>,
        plan: SourcePlan,
    ) -> Result<Self, AllocError>
        ensures shown { IfOk result (λ file.
            shown file ≡ record { path = path.now; texts = map (λ v. v.items) texts.items }) }
        ensures plan { IfOk result (λ file. plan_of file ≡ plan_tells plan) }
    {
        Ok(MemFile {
            path: String::from_str(alloc, path)?,
            texts,
            plan,
            opened: 0,
        })
    }

    /// The file of a path with one text, whose readings all go through.
    pub fn of(alloc: Global, path: &str, text: &[u8]) -> Result<Self, AllocError>
        ensures shown { IfOk result (λ file.
            shown file ≡ record { path = path.now; texts = text.now ∷ [] }) }
        ensures plan { IfOk result (λ file. plan_of file ≡ no_plan) }
    {
        let mut texts = Vec::new(alloc);
        texts.push(text.to_vec(alloc)?)?;
        MemFile::new(alloc, path, texts, SourcePlan::new(alloc))
    }

    /// Whether the file lies at a path.
    pub(crate) fn lies_at(&self, path: &str) -> bool
        ensures { result ≡ bytes_eq (shown self.now).path path.now }
    {
        self.path.as_str() == path
    }

    /// A source of the text of the next opening, where there is one.
    pub(crate) fn source(&self, alloc: Global) -> Result<Option<MemSource>, AllocError>
        ensures found { IfOk result (λ found. option_map ⟦<MemSource as Source>⟧.source_tells found
            ≡ option_map told_first (slice_get (shown self.now).texts 0)) }
        ensures begins { IfOk result (λ found. IfSome found (BeginsBy (plan_of self.now))) }
        ensures lacking { OnErr result (IsSome (slice_get (shown self.now).texts 0)) }
    {
        match self.texts.get(self.opened) {
            Some(text) => {
                let plan = self.plan.copy(alloc)?;
                Ok(Some(MemSource::new(text.to_vec(alloc)?, plan)))
            }
            None => Ok(None),
        }
    }

    /// Goes on to the text of the opening after the next, where there is one.
    pub(crate) fn advance(&mut self)
        ensures shown { shown self.new ≡ later (shown self.old) }
        ensures plan { plan_of self.new ≡ plan_of self.old }
    {
        if self.texts.len() - self.opened > 1 {
            self.opened += 1;
        }
    }
}
