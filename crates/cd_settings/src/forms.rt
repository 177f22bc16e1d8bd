//! The forms that the values of an option have.
ghost use Rattle.cd_conf.specs.Parts.{args_of};
ghost use Rattle.cd_settings.specs.Forms.{are_texts, between, delay, filled, flag, host, interval, is_any, is_host, is_text, number, off, one, perhaps_text, satisfy, severity, severity_of, some_number, text, texts, two_texts, whole};
ghost use Rattle.std.specs.Option.{option_map};
ghost use Rattle.std.specs.Prelude.{IfSome, option_copied, ◌≡◌, ◌≤◌};

use cd_conf::{Arg, Item};
use cd_text::{DURATION_LIMIT, to_time};
use cd_value::{FIELD_LIMIT, Severity, has_control, has_slash};

/// One value.
pub fn one(item: &Item) -> Option<()>
    ensures { result ≡ one (args_of item.now) }
{
    match item.args.as_slice() {
        [_] => Some(()),
        _ => None,
    }
}

/// One text.
pub fn text(item: &Item) -> Option<&str>
    ensures { option_copied result ≡ text (args_of item.now) }
{
    match item.args.as_slice() {
        [Arg::Words(text)] => Some(text.as_str()),
        _ => None,
    }
}

fn is_text(arg: &Arg) -> bool
    ensures { result ≡ is_text arg.now }
{
    matches!(arg, Arg::Words(_))
}

/// Whether each value is a text.
fn are_texts(args: &[Arg]) -> bool
    ensures { result ≡ are_texts args.now }
{
    args.iter().all(|arg| is_text(arg))
}

/// One or more texts.
pub fn texts(item: &Item) -> Option<()>
    ensures { result ≡ texts (args_of item.now) }
{
    let args = item.args.as_slice();
    if !args.is_empty() && are_texts(args) {
        Some(())
    } else {
        None
    }
}

/// Whether a text may be the host of an identifier.
fn is_host(text: &str) -> bool
    ensures { result ≡ is_host text.now }
{
    !has_control(text) && text.len() <= FIELD_LIMIT && !text.is_empty() && !has_slash(text)
}

/// One text that may be the host of an identifier.
pub fn host(item: &Item) -> Option<&str>
    ensures { option_copied result ≡ host (args_of item.now) }
{
    match text(item) {
        Some(text) if is_host(text) => Some(text),
        _ => None,
    }
}

/// The flag `false`.
pub fn off(item: &Item) -> Option<()>
    ensures { result ≡ off (args_of item.now) }
{
    match item.args.as_slice() {
        [Arg::Flag(false)] => Some(()),
        _ => None,
    }
}

/// One number, in millionths.
fn number(args: &[Arg]) -> Option<i128>
    ensures { result ≡ number args.now }
{
    match args {
        [Arg::Number(number)] => Some(*number),
        _ => None,
    }
}

/// Seconds above 0 and at most 10^9, in 2^-30 s.
pub fn interval(item: &Item) -> Option<u64>
    ensures { result ≡ interval (args_of item.now) }
{
    match number(item.args.as_slice()) {
        Some(number) if number > 0 && number <= DURATION_LIMIT => Some(to_time(number)),
        _ => None,
    }
}

/// One number between these, all in millionths.
fn between(args: &[Arg], least: u64, most: u64) -> Option<u64>
    ensures value { result ≡ between least most args.now }
    ensures most { IfSome result (λ n. n ≤ most) }
{
    match number(args) {
        Some(number) if number >= least as i128 && number <= most as i128 => Some(number as u64),
        _ => None,
    }
}

/// One whole number between these.
pub fn whole_in(args: &[Arg], least: u32, most: u32) -> Option<u32>
    ensures { result ≡ whole least most args.now }
{
    let least = u64::from(least) * 1_000_000;
    let most = u64::from(most) * 1_000_000;
    match between(args, least, most) {
        Some(millionths) if millionths % 1_000_000 == 0 => Some((millionths / 1_000_000) as u32),
        _ => None,
    }
}

/// One whole number between these.
pub fn whole(item: &Item, least: u32, most: u32) -> Option<u32>
    ensures { result ≡ whole least most (args_of item.now) }
{
    whole_in(item.args.as_slice(), least, most)
}

/// Seconds from 0 to 10^9, in 2^-30 s.
pub fn delay(item: &Item) -> Option<u64>
    ensures { result ≡ delay (args_of item.now) }
{
    match number(item.args.as_slice()) {
        Some(number) if number >= 0 && number <= DURATION_LIMIT => Some(to_time(number)),
        _ => None,
    }
}

/// One number, in millionths, for an option that may be missing.
pub fn some_number(item: &Item) -> Option<Option<i128>>
    ensures { result ≡ some_number (args_of item.now) }
{
    match number(item.args.as_slice()) {
        Some(number) => Some(Some(number)),
        None => None,
    }
}

/// No value or one text.
pub fn perhaps_text(item: &Item) -> Option<()>
    ensures { result ≡ perhaps_text (args_of item.now) }
{
    match item.args.as_slice() {
        [] => Some(()),
        [Arg::Words(_)] => Some(()),
        _ => None,
    }
}

/// One text that isn't empty.
pub fn filled(item: &Item) -> Option<&str>
    ensures { option_copied result ≡ filled (args_of item.now) }
{
    match text(item) {
        Some(text) if !text.is_empty() => Some(text),
        _ => None,
    }
}

/// Two texts.
pub fn two_texts(item: &Item) -> Option<(&str, &str)>
    ensures { option_map (λ x. (x.0.now, x.1.now)) result ≡ two_texts (args_of item.now) }
{
    match item.args.as_slice() {
        [Arg::Words(first), Arg::Words(second)] => Some((first.as_str(), second.as_str())),
        _ => None,
    }
}

/// One flag.
pub fn flag(item: &Item) -> Option<bool>
    ensures { result ≡ flag (args_of item.now) }
{
    match item.args.as_slice() {
        [Arg::Flag(flag)] => Some(*flag),
        _ => None,
    }
}

/// Whether a text is `Any`, or else `All`, without case.
fn is_any(text: &str) -> Option<bool>
    ensures { result ≡ is_any text.now }
{
    if text.eq_ignore_ascii_case("All") {
        Some(false)
    } else if text.eq_ignore_ascii_case("Any") {
        Some(true)
    } else {
        None
    }
}

/// Whether one source is enough: `Any`, or else `All`.
pub fn satisfy(item: &Item) -> Option<bool>
    ensures { result ≡ satisfy (args_of item.now) }
{
    match item.args.as_slice() {
        [Arg::Words(text)] => is_any(text.as_str()),
        _ => None,
    }
}

/// The severity that a text names, without case.
fn severity_of(text: &str) -> Option<Severity>
    ensures { result ≡ severity_of text.now }
{
    if text.eq_ignore_ascii_case("FAILURE") {
        Some(Severity::Failure)
    } else if text.eq_ignore_ascii_case("WARNING") {
        Some(Severity::Warning)
    } else if text.eq_ignore_ascii_case("OKAY") {
        Some(Severity::Okay)
    } else {
        None
    }
}

/// A severity.
pub fn severity(item: &Item) -> Option<Severity>
    ensures { result ≡ severity (args_of item.now) }
{
    match item.args.as_slice() {
        [Arg::Words(text)] => severity_of(text.as_str()),
        _ => None,
    }
}
