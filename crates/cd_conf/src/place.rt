//! A place in a text.
ghost use Rattle.cd_conf.specs.declared.limits.TheConstants.{FILE_LIMIT};
ghost use Rattle.std.specs.Prelude.{length, ◌+◌, ◌≤◌};

/// The rest of a text from a place on.
#[derive(Clone, Copy)]
pub struct Place<'a> {
    /// The line of the place, from 1.
    pub line: u32,
    /// What follows.
    pub rest: &'a str,
    ghost within: { line + length rest.now ≤ FILE_LIMIT + 1 },
}
