//! A line of types.db(5).
ghost use Rattle.cd_reading.specs.Gives.{Gives};
ghost use Rattle.cd_types.specs.Faults.{kind_fault};
ghost use Rattle.cd_types.specs.Line.{is_blank, runs_of, set_of, set_of_line, set_of_runs, sources_of, without_return};
ghost use Rattle.std.specs.List.{slice_split};
ghost use Rattle.std.specs.Prelude.{IfOk, map, ◌≡◌};
ghost use Rattle.std.specs.Str.{is_utf8};

use crate::entry::{is_name, name_text, source_behind};
use crate::fault::TypesKind;
use crate::limits::NAME_LIMIT;
use cd_value::{DataSet, Sources};
use std::alloc::{AllocError, Global};

/// Whether a byte is a blank.
fn is_blank(b: u8) -> bool
    ensures { result ≡ is_blank b }
{
    b == b' ' || b == b'\t'
}

/// The parts of a line before, between and behind blanks.
fn blank_parts(alloc: Global, line: &[u8]) -> Result<Vec<&[u8]>, AllocError>
    ensures { IfOk result (λ v. map (λ part. part.now) v.items ≡ slice_split is_blank line.now) }
{
    line.split(|b| is_blank(*b)).collect(alloc)
}

/// The runs of a line between blanks.
fn runs_of(alloc: Global, line: &[u8]) -> Result<Vec<&[u8]>, AllocError>
    ensures { IfOk result (λ v. map (λ run. run.now) v.items ≡ runs_of line.now) }
{
    let parts = blank_parts(alloc, line)?;
    let mut runs: Vec<&[u8]> = Vec::new(alloc);
    for part in &parts {
        let run: &[u8] = part;
        if !run.is_empty() {
            runs.push(run)?;
        }
    }
    Ok(runs)
}

/// The line without the carriage return at its end.
fn without_return(line: &[u8]) -> &[u8]
    ensures { result.now ≡ without_return line.now }
{
    if !line.is_empty() && line[line.len() - 1] == b'\r' {
        &line[..line.len() - 1]
    } else {
        line
    }
}

/// The sources of entries.
fn sources_of(alloc: Global, entries: &[&[u8]]) -> Result<Sources, TypesKind>
    ensures { Gives (λ sources. sources) kind_fault result
        (sources_of (map (λ entry. entry.now) entries.now)) }
{
    let mut sources = Sources::new(alloc);
    for (i, entry) in entries.iter().enumerate() {
        let source = source_behind(alloc, &entries[..i], entry)?;
        sources.push(source)?;
    }
    Ok(sources)
}

/// The set of a name and entries.
fn set_of(alloc: Global, name: &[u8], entries: &[&[u8]]) -> Result<DataSet, TypesKind>
    ensures { Gives (λ set. set) kind_fault result
        (set_of name.now (map (λ entry. entry.now) entries.now)) }
{
    if !is_name(name, NAME_LIMIT) {
        return Err(TypesKind::BadName);
    }
    if entries.is_empty() {
        return Err(TypesKind::BadSource);
    }
    let sources = sources_of(alloc, entries)?;
    let name = name_text(alloc, name, NAME_LIMIT)?;
    Ok(DataSet { name, sources })
}

/// The set of the runs of a line; `None` where there is none, or a comment.
fn set_of_runs(alloc: Global, runs: &[&[u8]]) -> Result<Option<DataSet>, TypesKind>
    ensures { Gives (λ set. set) kind_fault result (set_of_runs (map (λ run. run.now) runs.now)) }
{
    let [name, entries @ ..] = runs else {
        return Ok(None);
    };
    if !name.is_empty() && name[0] == b'#' {
        return Ok(None);
    }
    Ok(Some(set_of(alloc, name, entries)?))
}

/// Whether the bytes are UTF-8.
fn is_text(bytes: &[u8]) -> bool
    ensures { result ≡ is_utf8 bytes.now }
{
    match str::from_utf8(bytes) {
        Ok(_) => true,
        Err(_) => false,
    }
}

/// The set of a line; `None` for a blank line and a comment.
#[tactic(auto, unfolding(crate::specs::Line::set_of_line))]
pub fn set_of_line(alloc: Global, line: &[u8]) -> Result<Option<DataSet>, TypesKind>
    ensures { Gives (λ set. set) kind_fault result (set_of_line line.now) }
{
    if !is_text(line) {
        return Err(TypesKind::NotText);
    }
    let runs = runs_of(alloc, without_return(line))?;
    set_of_runs(alloc, &runs)
}
