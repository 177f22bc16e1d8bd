//! A whole text of types.db(5).
ghost use Rattle.cd_reading.specs.Gives.{Gives};
ghost use Rattle.cd_types.specs.Faults.{at_line, has_no_line, types_fault};
ghost use Rattle.cd_types.specs.Line.{set_of_line};
ghost use Rattle.cd_types.specs.Sets.{with_sets};
ghost use Rattle.cd_types.specs.Text.{is_newline, put_sets, sets_from, sets_of_text};
ghost use Rattle.std.specs.List.{slice_split};
ghost use Rattle.std.specs.Option.{option_to_list};
ghost use Rattle.std.specs.Prelude.{IfErr, IfOk, None, OnOk, [], length, map, true, ◌+◌, ◌<◌, ◌≡◌, ◌≤◌};

use crate::fault::{TypesFault, TypesKind};
use crate::limits::FILE_LIMIT;
use crate::line::set_of_line;
use crate::types_db::TypesDb;
use cd_value::DataSet;
use std::alloc::{AllocError, Global};

/// The lines of a text.
fn lines_of(alloc: Global, text: &[u8]) -> Result<Vec<&[u8]>, AllocError>
    ensures { IfOk result (λ v. map (λ line. line.now) v.items ≡ slice_split is_newline text.now) }
{
    text.split(|b| *b == b'\n').collect(alloc)
}

/// The set of a line, with the line's number at its fault.
fn set_at(alloc: Global, number: u32, line: &[u8]) -> Result<Option<DataSet>, TypesFault>
    requires { 0 < number }
    ensures { Gives (λ set. set) types_fault result (at_line number (set_of_line line.now)) }
{
    match set_of_line(alloc, line) {
        Ok(set) => Ok(set),
        Err(TypesKind::Memory) => Err(TypesFault {
            kind: TypesKind::Memory,
            line: 0,
        }),
        Err(kind) => Err(TypesFault { kind, line: number }),
    }
}

impl TypesDb {
    /// Puts the set of a line in its place.
    fn put_line(&mut self, alloc: Global, set: Option<DataSet>) -> Result<(), TypesFault>
        ensures ok { OnOk result (self.new ≡ with_sets (option_to_list set) self.old) }
        ensures err { IfErr result (λ fault. types_fault fault ≡ None) }
    {
        if let Some(set) = set {
            self.put(alloc, set)?;
        }
        Ok(())
    }

    /// The sets of a text of types.db(5), or its first fault. The line is 0 where the text is too
    /// long, and where memory is lacking.
    pub fn read_text(alloc: Global, bytes: &[u8]) -> Result<TypesDb, TypesFault>
        ensures value { Gives (λ db. db) types_fault result (sets_of_text bytes.now) }
        ensures line { IfErr result (λ fault. has_no_line fault.kind ≡ true → fault.line ≡ 0) }
    {
        read_short(alloc, bytes)
    }
}

/// The sets of a text, or its first fault.
#[tactic(auto, unfolding(crate::specs::Text::sets_of_text))]
fn read_short(alloc: Global, bytes: &[u8]) -> Result<TypesDb, TypesFault>
    ensures { Gives (λ db. db) types_fault result (sets_of_text bytes.now) }
{
    if bytes.len() > FILE_LIMIT {
        return Err(TypesFault {
            kind: TypesKind::TooLong,
            line: 0,
        });
    }
    let lines = lines_of(alloc, bytes)?;
    read_lines(alloc, &lines)
}

/// The sets of lines, or the first fault.
fn read_lines(alloc: Global, lines: &[&[u8]]) -> Result<TypesDb, TypesFault>
    requires { length lines.now ≤ FILE_LIMIT + 1 }
    ensures { Gives (λ db. db) types_fault result
        (put_sets [] (sets_from 1 (map (λ line. line.now) lines.now))) }
{
    let mut db = TypesDb::new(alloc);
    for (i, line) in lines.iter().enumerate() {
        let set = set_at(alloc, i as u32 + 1, line)?;
        db.put_line(alloc, set)?;
    }
    Ok(db)
}
