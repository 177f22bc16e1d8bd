//! Runs of decimal digits, and where a text is cut.
ghost use Rattle.cd_text.specs.Digits.{are_digits, is_dot};
ghost use Rattle.std.specs.List.{position};
ghost use Rattle.std.specs.Prelude.{IsTrue, length, ◌*◌, ◌+◌, ◌<◌, ◌^◌, ◌≡◌, ◌≤◌};
ghost use Rattle.std.specs.Str.Parse.{digits_value_after, starts_with_minus, without_leading_sign};

/// Whether the text begins with a minus.
pub fn begins_with_minus(text: &[u8]) -> bool
    ensures { result ≡ starts_with_minus text.now }
{
    !text.is_empty() && text[0] == b'-'
}

/// The text after its sign.
pub fn after_sign(text: &[u8]) -> &[u8]
    ensures { result.now ≡ without_leading_sign text.now }
{
    if !text.is_empty() && (text[0] == b'-' || text[0] == b'+') {
        &text[1..]
    } else {
        text
    }
}

/// The place of the first dot.
pub fn place_of_dot(text: &[u8]) -> Option<usize>
    ensures { result ≡ position is_dot text.now }
{
    text.iter().position(|b| *b == b'.')
}

/// Whether each byte is a digit.
pub fn all_digits(text: &[u8]) -> bool
    ensures { result ≡ are_digits text.now }
{
    text.iter().all(|b| b.is_ascii_digit())
}

/// The number that digits write when they follow those of `front`.
pub fn with_digits(front: u128, digits: &[u8]) -> u128
    requires digits { IsTrue (are_digits digits.now) }
    requires room { (front + 1) * 10 ^ length digits.now ≤ 10 ^ 38 }
    ensures value { result ≡ digits_value_after 10 front digits.now }
    ensures low { front * 10 ^ length digits.now ≤ result }
    ensures high { result < (front + 1) * 10 ^ length digits.now }
{
    let mut value = front;
    for digit in digits {
        value = value * 10 + (*digit - b'0') as u128;
    }
    value
}
