//! The host and the port of a Listen.
ghost use Rattle.cd_conf.specs.Parts.{args_of};
ghost use Rattle.cd_settings.specs.Forms.{address, is_plain, is_port, listen_of, only, port, port_of_text};
ghost use Rattle.std.specs.Char.{is_ascii_digit};
ghost use Rattle.std.specs.List.{list_all};
ghost use Rattle.std.specs.Option.{option_map};
ghost use Rattle.std.specs.Prelude.{IsTrue, Some, ◌≡◌};
ghost use Rattle.std.specs.Str.Parse.{digits_value};

use crate::forms::whole_in;
use crate::plugins::PORT;
use cd_conf::{Arg, Item};

/// Whether each byte is a digit.
fn all_digits(text: &[u8]) -> bool
    ensures { result ≡ list_all is_ascii_digit text.now }
{
    text.iter().all(|byte| byte.is_ascii_digit())
}

/// Whether a text is decimal digits without a leading zero.
fn is_plain(text: &[u8]) -> bool
    ensures { result ≡ is_plain text.now }
{
    !text.is_empty() && text[0] >= b'1' && all_digits(text)
}

/// The number that decimal digits without a leading zero write, where it is a port.
fn port_of_digits(text: &str) -> Option<u16>
    requires { IsTrue (is_plain text.now) }
    ensures { result ≡ only is_port (Some (digits_value 10 text.now)) }
{
    match text.parse::<u16>() {
        Ok(port) if port >= 1 => Some(port),
        _ => None,
    }
}

/// The port that a text writes.
fn port_of_text(text: &str) -> Option<u16>
    ensures { result ≡ port_of_text text.now }
{
    if is_plain(text.as_bytes()) {
        port_of_digits(text)
    } else {
        None
    }
}

/// A port as a text or a whole number.
fn port(args: &[Arg]) -> Option<u16>
    ensures { result ≡ port args.now }
{
    match args {
        [Arg::Words(text)] => port_of_text(text.as_str()),
        _ => match whole_in(args, 1, 65_535) {
            Some(port) => Some(port as u16),
            None => None,
        },
    }
}

/// The host and the port that a Listen names.
pub fn address(item: &Item) -> Option<(&str, u16)>
    ensures { let listen = option_map (λ x. listen_of x.0.now x.1) result in
        listen ≡ address (args_of item.now) }
{
    match item.args.as_slice() {
        [Arg::Words(host)] => Some((host.as_str(), PORT)),
        [Arg::Words(host), _] => match port(&item.args.as_slice()[1..]) {
            Some(port) => Some((host.as_str(), port)),
            None => None,
        },
        _ => None,
    }
}
