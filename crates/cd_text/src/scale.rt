//! Numbers scaled by powers of ten.
ghost use Rattle.cd_text.specs.Millionths.{scaled_millionths};
ghost use Rattle.std.specs.Prelude.{IfSome, ◌*◌, ◌+◌, ◌/◌, ◌<◌, ◌^◌, ◌≡◌, ◌≤◌};

use crate::numbers::DIGITS_LIMIT;
use cd_value::NUMBER_LIMIT;

/// The power of ten.
#[tactic(auto, using(crate::proofs::Powers::tens))]
fn ten_to(k: u32) -> u128
    requires { k ≤ 38 }
    ensures value { result ≡ 10 ^ k }
    ensures above { 0 < result }
{
    10u128.pow(k)
}

/// `n` times `10^shift`, in millionths, where it is at most `10^24`.
fn scaled_up(n: u128, shift: u32) -> Option<u128>
    requires { 0 < n }
    ensures value { result ≡ scaled_millionths n shift 0 }
    ensures small { IfSome result (λ m. m ≤ NUMBER_LIMIT) }
{
    if shift > 24 {
        return None;
    }
    let most = ten_to(24 - shift);
    if n > most {
        return None;
    }
    Some(n * ten_to(shift + 6))
}

/// `n` by `10^shift`, in millionths, where it is at most `10^24`.
fn scaled_down(n: u128, shift: u32) -> Option<u128>
    requires { n < 10 ^ DIGITS_LIMIT }
    ensures value { result ≡ scaled_millionths n 0 shift }
    ensures small { IfSome result (λ m. m ≤ NUMBER_LIMIT) }
{
    if shift > 42 {
        return Some(0);
    }
    if shift > 12 {
        return Some(n / ten_to(shift - 6));
    }
    let most = ten_to(24 + shift);
    if n > most {
        return None;
    }
    if shift > 6 {
        Some(n / ten_to(shift - 6))
    } else {
        Some(n * ten_to(6 - shift))
    }
}

/// `n` times `10^up` by `10^down`, in millionths, where it is at most `10^24`.
#[tactic(auto, using(crate::proofs::Powers::cases))]
pub fn scaled(n: u128, up: u32, down: u32) -> Option<u128>
    requires { n < 10 ^ DIGITS_LIMIT }
    ensures value { result ≡ scaled_millionths n up down }
    ensures small { IfSome result (λ m. m ≤ NUMBER_LIMIT) }
{
    if n == 0 {
        Some(0)
    } else if down <= up {
        scaled_up(n, up - down)
    } else {
        scaled_down(n, down - up)
    }
}
