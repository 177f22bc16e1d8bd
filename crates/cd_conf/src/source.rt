//! A configuration text from a source.
ghost use Rattle.cd_conf.specs.Faults.{is_read_fault, is_read_kind, source_fault, text_fault};
ghost use Rattle.cd_conf.specs.Statements.{statements_of_text};
ghost use Rattle.cd_conf.specs.Tree.{statements_of_items};
ghost use Rattle.cd_io.specs.Causes.{Counts};
ghost use Rattle.cd_io.specs.Source.{IsAtEnd};
ghost use Rattle.cd_io.specs.Told.{Takes};
ghost use Rattle.cd_reading.specs.Gives.{Gives};
ghost use Rattle.std.specs.Prelude.{IfErr, IfSome, List, OnOk, true, ℕ, ◌≡◌};

use crate::fault::{ConfFault, ConfKind};
use crate::item::Items;
use crate::limits::FILE_LIMIT;
use crate::text::read_text;
use cd_io::{ReadAllFault, Source, read_all};
use std::alloc::Global;

/// The fault of a source that wasn't read to its end.
fn source_fault(fault: ReadAllFault) -> ConfFault
    ensures { result ≡ source_fault fault }
{
    let kind = match fault {
        ReadAllFault::Failed => ConfKind::ReadFault,
        ReadAllFault::TooLong => ConfKind::TooLong,
        ReadAllFault::Memory => ConfKind::Memory,
    };
    ConfFault { kind, line: 0 }
}

/// The items of the configuration text that a source gives, or its first fault, as
/// collectd.conf(5) has the text; `ReadFault` where a call on the source failed.
pub fn read<S: Source>(alloc: Global, source: &mut S) -> Result<Items, ConfFault>
    // The items or the fault are those of a text: of the source's bytes, where it tells them.
    ensures value { (text : List ℕ)
        × IfSome (S.source_tells source.old).left (λ bytes. bytes ≡ text)
        × Gives statements_of_items text_fault result (statements_of_text text) }
    ensures line { IfErr result (λ fault. is_read_kind fault.kind ≡ true → fault.line ≡ 0) }
    ensures ended { OnOk result (IsAtEnd (S.source_tells source.new)) }
    ensures takes { (bytes : List ℕ)
        × Takes bytes (S.source_tells source.old).left (S.source_tells source.new).left }
    ensures faults { Counts (is_read_fault result)
        (S.source_tells source.old).faults (S.source_tells source.new).faults }
{
    match read_all(alloc, source, FILE_LIMIT) {
        Ok(bytes) => read_text(alloc, bytes.as_slice()),
        Err(fault) => Err(source_fault(fault)),
    }
}
