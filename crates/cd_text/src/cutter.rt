//! A line cut into its words.
ghost use Rattle.cd_reading.specs.Gives.{Gives, Refuses};
ghost use Rattle.cd_text.specs.Cutting.{BeginsWord, IsAtWord, IsCutOff, IsReadOn, begins_word, ends_run, is_blank_byte};
ghost use Rattle.cd_text.specs.Cutting.{left, part_adds};
ghost use Rattle.cd_text.specs.Quoting.{adds, fault, quoting_after, words_of};
ghost use Rattle.cd_text.specs.declared.word.Word.{Word};
ghost use Rattle.std.specs.List.{position, position_or_len};
ghost use Rattle.std.specs.Prelude.{IfErr, IfOk, List, OnOk, [], length, slice_index, string_bytes, unwrap_or, ◌++◌, ◌+◌};
ghost use Rattle.std.specs.Prelude.{◌<◌, ◌==◌, ◌^◌, ◌≡◌};

use crate::line_word::{LineWord, LineWords};
use crate::word::{WordFault, Words};
use std::alloc::{AllocError, Global};

/// Whether a character stands outside quotes, inside, or inside after a backslash.
#[derive(Clone, Copy)]
enum Quoting {
    Outside,
    Inside,
    Escaped,
}

/// What a character is to its word.
#[derive(Clone, Copy)]
enum Part {
    /// A blank between words.
    Blank,
    /// A quote or a backslash that isn't part of the text.
    Mark,
    /// A character of the text.
    Letter,
}

/// What is left of a line, and its byte place in the line.
#[derive(Clone, Copy)]
struct Rest<'a> {
    text: &'a str,
    place: u64,
}

/// A word with quotes as far as it goes, the bytes behind its first quote that were used for it, and the quoting after
/// them.
#[derive(Drop)]
struct OpenWord {
    text: String,
    used: usize,
    quoting: Quoting,
}

/// The quoting after a character.
fn switched(quoting: Quoting, c: char) -> Quoting
    ensures { result ≡ quoting_after quoting c }
{
    match quoting {
        Quoting::Outside => if c == '"' {
            Quoting::Inside
        } else {
            Quoting::Outside
        },
        Quoting::Inside => {
            if c == '"' {
                Quoting::Outside
            } else if c == '\\' {
                Quoting::Escaped
            } else {
                Quoting::Inside
            }
        }
        Quoting::Escaped => Quoting::Inside,
    }
}

/// What a character is.
fn part_of(quoting: Quoting, c: char) -> Part
    ensures { part_adds result c ≡ adds quoting c }
{
    match quoting {
        Quoting::Outside => match c {
            ' ' | '\t' => Part::Blank,
            '"' => Part::Mark,
            _ => Part::Letter,
        },
        Quoting::Inside => if c == '"' || c == '\\' {
            Part::Mark
        } else {
            Part::Letter
        },
        Quoting::Escaped => Part::Letter,
    }
}

fn is_blank(byte: u8) -> bool
    ensures { result ≡ is_blank_byte byte }
{
    byte == b' ' || byte == b'\t'
}

/// The place of the first byte that isn't blank.
fn place_of_word(text: &[u8]) -> Option<usize>
    ensures { result ≡ position begins_word text.now }
{
    text.iter().position(|byte| !is_blank(*byte))
}

/// The place of the first byte that doesn't stand for itself outside quotes.
fn place_of_end(text: &[u8]) -> Option<usize>
    ensures { result ≡ position ends_run text.now }
{
    text.iter()
        .position(|byte| is_blank(*byte) || *byte == b'"')
}

/// How many blanks a text begins with.
#[tactic(auto, using(crate::proofs::Places::place_or_len))]
fn count_blanks(text: &[u8]) -> usize
    ensures { result ≡ position_or_len begins_word text.now }
{
    match place_of_word(text) {
        Some(place) => place,
        None => text.len(),
    }
}

/// How many bytes a text begins with that stand for themselves outside quotes.
#[tactic(auto, using(crate::proofs::Places::place_or_len))]
fn run_len(text: &[u8]) -> usize
    ensures { result ≡ position_or_len ends_run text.now }
{
    match place_of_end(text) {
        Some(place) => place,
        None => text.len(),
    }
}

fn begins_with_quote(text: &str) -> bool
    ensures { result ≡ (slice_index text.now 0 == 34) }
{
    let bytes = text.as_bytes();
    !bytes.is_empty() && bytes[0] == b'"'
}

/// What is left behind blanks.
fn skip_blanks(rest: Rest) -> Rest
    requires { rest.place + length rest.text.now < 2 ^ 64 }
    ensures { IsAtWord rest.entry result }
{
    let count = count_blanks(rest.text.as_bytes());
    let (_, text) = rest.text.split_at(count);
    Rest {
        text,
        place: rest.place + count as u64,
    }
}

/// Adds what a character is to its word.
fn add(text: &mut String, part: Part, c: char) -> Result<(), AllocError>
    ensures { OnOk result (string_bytes text.new
        ≡ string_bytes text.old ++ unwrap_or (part_adds part c) []) }
{
    match part {
        Part::Blank | Part::Mark => Ok(()),
        Part::Letter => text.push(c),
    }
}

/// The word that a text begins with, whose first character isn't blank, with a text of its own.
fn read_on(alloc: Global, text: &str) -> Result<OpenWord, AllocError>
    ensures { IfOk result (IsReadOn text.now) }
{
    let mut word = OpenWord {
        text: String::with_capacity(alloc, text.len())?,
        used: 0,
        quoting: Quoting::Outside,
    };
    for c in text.chars() {
        let part = part_of(word.quoting, c);
        if let Part::Blank = part {
            return Ok(word);
        }
        add(&mut word.text, part, c)?;
        word.quoting = switched(word.quoting, c);
        word.used += c.len_utf8();
    }
    Ok(word)
}

/// Cuts off a word with quotes.
fn cut_quoted<'a>(alloc: Global, rest: Rest<'a>) -> Result<(LineWord<'a>, Rest<'a>), WordFault>
    requires begins { BeginsWord rest.text.now }
    requires room { rest.place + length rest.text.now < 2 ^ 64 }
    ensures ok { IfOk result (λ r. IsCutOff rest.entry r.0 r.1) }
    ensures err { IfErr result (λ e.
        (words : List Word) → Refuses (fault e) (left words rest.entry)) }
{
    let word = read_on(alloc, rest.text)?;
    match word.quoting {
        Quoting::Outside => {
            let (_, text) = rest.text.split_at(word.used);
            let place = rest.place + word.used as u64;
            Ok((LineWord::owned(word.text, rest.place), Rest { text, place }))
        }
        _ => Err(WordFault::Unterminated),
    }
}

/// Cuts off the word that begins what is left of a line.
fn cut_word<'a>(alloc: Global, rest: Rest<'a>) -> Result<(LineWord<'a>, Rest<'a>), WordFault>
    requires begins { BeginsWord rest.text.now }
    requires room { rest.place + length rest.text.now < 2 ^ 64 }
    ensures ok { IfOk result (λ r. IsCutOff rest.entry r.0 r.1) }
    ensures err { IfErr result (λ e.
        (words : List Word) → Refuses (fault e) (left words rest.entry)) }
{
    let run = run_len(rest.text.as_bytes());
    let (word, text) = rest.text.split_at(run);
    if begins_with_quote(text) {
        return cut_quoted(alloc, rest);
    }
    let place = rest.place + run as u64;
    Ok((LineWord::borrowed(word, rest.place), Rest { text, place }))
}

/// The words of a line: its longest runs of characters outside blanks (space, tab), as the commands
/// of collectd-unixsock(5) have them.
///
/// A `"` switches quoting on and off and isn't part of the text, so an empty quoted word is a word.
/// Inside quotes blanks belong to the word, and a backslash followed by a character stands for that
/// character. Outside quotes a backslash stands for itself. A line that ends inside quotes is
/// `Unterminated`. A word in which no quote stands takes no memory of its own.
pub fn line_words<'a>(alloc: Global, line: &'a str) -> Result<LineWords<'a>, WordFault>
    ensures { Gives (λ ws. ws) fault result (words_of line.now) }
{
    let mut words = LineWords::new(alloc);
    let mut rest = skip_blanks(Rest {
        text: line,
        place: 0,
    });
    while !rest.text.is_empty() {
        match cut_word(alloc, rest) {
            Ok((word, behind)) => {
                words.push(word)?;
                rest = skip_blanks(behind);
            }
            Err(fault) => return Err(fault),
        }
    }
    Ok(words)
}

/// The words of a line, each with a text of its own: those that `line_words` gives.
pub fn words(alloc: Global, line: &str) -> Result<Words, WordFault>
    ensures { Gives (λ ws. ws) fault result (words_of line.now) }
{
    let mut words = Words::new(alloc);
    let cut = line_words(alloc, line)?;
    for word in cut.as_slice() {
        words.push(word.to_word(alloc)?)?;
    }
    Ok(words)
}
