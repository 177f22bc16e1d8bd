//! A text of types.db(5) from a source.
ghost use Rattle.cd_io.specs.Causes.{Counts};
ghost use Rattle.cd_io.specs.Source.{IsAtEnd};
ghost use Rattle.cd_io.specs.Told.{Takes};
ghost use Rattle.cd_reading.specs.Gives.{Gives};
ghost use Rattle.cd_types.specs.Faults.{has_no_line, is_read_fault, source_fault, text_fault};
ghost use Rattle.cd_types.specs.Text.{sets_of_text};
ghost use Rattle.std.specs.Prelude.{IfErr, IfSome, List, OnOk, true, ℕ, ◌≡◌};

use crate::fault::{TypesFault, TypesKind};
use crate::limits::FILE_LIMIT;
use crate::types_db::TypesDb;
use cd_io::{ReadAllFault, Source, read_all};
use std::alloc::Global;

/// The fault of a source that wasn't read to its end.
fn source_fault(fault: ReadAllFault) -> TypesFault
    ensures { result ≡ source_fault fault }
{
    let kind = match fault {
        ReadAllFault::Failed => TypesKind::ReadFault,
        ReadAllFault::TooLong => TypesKind::TooLong,
        ReadAllFault::Memory => TypesKind::Memory,
    };
    TypesFault { kind, line: 0 }
}

impl TypesDb {
    /// The sets of the text that a source gives, as types.db(5) has it, or its first fault;
    /// `ReadFault` where a call on the source failed. The line is 0 at that fault, where the text is
    /// too long, and where memory is lacking.
    pub fn read<S: Source>(alloc: Global, source: &mut S) -> Result<TypesDb, TypesFault>
        // The sets or the fault are those of a text: of the source's bytes, where it tells them.
        ensures value { (text : List ℕ)
            × IfSome (S.source_tells source.old).left (λ bytes. bytes ≡ text)
            × Gives (λ db. db) text_fault result (sets_of_text text) }
        ensures line { IfErr result (λ fault. has_no_line fault.kind ≡ true → fault.line ≡ 0) }
        ensures ended { OnOk result (IsAtEnd (S.source_tells source.new)) }
        ensures takes { (bytes : List ℕ)
            × Takes bytes (S.source_tells source.old).left (S.source_tells source.new).left }
        ensures faults { Counts (is_read_fault result)
            (S.source_tells source.old).faults (S.source_tells source.new).faults }
    {
        match read_all(alloc, source, FILE_LIMIT) {
            Ok(bytes) => TypesDb::read_text(alloc, bytes.as_slice()),
            Err(fault) => Err(source_fault(fault)),
        }
    }
}
