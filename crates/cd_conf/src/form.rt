//! The digits of a number.
ghost use Rattle.std.specs.Prelude.{◌≤◌};

/// The digits of a number without its sign.
#[derive(Clone, Copy)]
pub struct Form<'a> {
    pub base: u32,
    pub whole: &'a [u8],
    /// The digits behind the dot.
    pub decimals: &'a [u8],
    ghost least: { 1 ≤ base },
    ghost greatest: { base ≤ 36 },
}
