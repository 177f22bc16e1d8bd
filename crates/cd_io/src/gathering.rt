//! Replies gathered, so that many go out in one piece.
ghost use Rattle.cd_io.specs.Gathered.{Finishes, Flushes, gathered};
ghost use Rattle.cd_io.specs.Link.{Hears, Says, heard_count};
ghost use Rattle.cd_io.specs.declared.gathering.TheConstants.{GATHER_LIMIT};
ghost use Rattle.std.specs.Prelude.{IfOk, Ok, OnErr, OnOk, [], drop, false, is_err, length, true, vec_capacity, ℕ, ◌++◌, ◌<◌, ◌||◌, ◌≡◌, ◌≤◌, ◌⊎◌};

use crate::{Failed, Heard, Link};
use std::alloc::Global;

/// How many bytes a gathering link keeps at most.
pub const GATHER_LIMIT: usize = 65_536;

/// A link over another that keeps what is said, and says it before it hears again, or where its room is full. From the
/// first end or quiet on it keeps nothing. Where memory for its room is lacking, it keeps nothing at all.
///
/// What it says late may fail late: a call of `hear` fails where it can't say what is kept. Of that just the bytes
/// that the inner link didn't take are kept on.
#[derive(Drop)]
pub struct Gathering<L> {
    link: L,
    kept: Vec<u8>,
    room: usize,
    through: bool,
    ghost few: { length kept.items ≤ room },
    ghost small: { room ≤ GATHER_LIMIT },
    ghost reserved: { room ≤ vec_capacity kept },
}

impl<L> Gathering<L> {
    ghost use Rattle.cd_io.specs.Gathering.{has_room, has_stopped, inner_of, is_through, kept_of, room_of};

    /// Whether a text is to be kept, and there is room for it.
    fn fits(&self, text: &[u8]) -> bool
        ensures { result ≡ has_room self.now text.now }
    {
        !self.through && text.len() <= self.room - self.kept.len()
    }

    /// Keeps a text, for which there is room.
    fn keep(&mut self, text: &[u8])
        requires { has_room self.old text.now ≡ true }
        ensures kept { kept_of self.new ≡ kept_of self.old ++ text.now }
        ensures inner { inner_of self.new ≡ inner_of self.old }
        ensures through { is_through self.new ≡ is_through self.old }
        ensures room { room_of self.new ≡ room_of self.old }
    {
        let _ = self.kept.extend_from_slice(text);
    }

    /// Forgets the first bytes of what is kept, which were said.
    fn forget(&mut self, count: usize)
        requires { count ≤ length (kept_of self.old) }
        ensures kept { kept_of self.new ≡ drop count (kept_of self.old) }
        ensures inner { inner_of self.new ≡ inner_of self.old }
        ensures through { is_through self.new ≡ is_through self.old }
        ensures room { room_of self.new ≡ room_of self.old }
    {
        let left = self.kept.len() - count;
        self.kept.copy_within(count.., 0);
        self.kept.truncate(left);
    }

    /// Notes what was heard: after the end or a quiet nothing is kept any more.
    fn note(&mut self, heard: Result<Heard, Failed>)
        ensures kept { kept_of self.new ≡ kept_of self.old }
        ensures inner { inner_of self.new ≡ inner_of self.old }
        ensures through { is_through self.new ≡ (is_through self.old || has_stopped heard) }
        ensures room { room_of self.new ≡ room_of self.old }
    {
        if matches!(heard, Ok(Heard::End | Heard::Quiet)) {
            self.through = true;
        }
    }
}

impl<L: Link> Gathering<L> {
    ghost use Rattle.cd_io.specs.Gathering.{inner_of, is_through, kept_of, room_of};

    /// A gathering link over another, with nothing kept: its room is `GATHER_LIMIT`, or none where memory was lacking.
    pub fn new(alloc: Global, link: L) -> Self
        ensures tells { ⟦<Gathering<L> as Link>⟧.link_tells result
            ≡ gathered [] (L.link_tells link) }
        ensures inner { inner_of result ≡ link }
        ensures kept { kept_of result ≡ [] }
        ensures through { is_through result ≡ false }
        ensures room { (room_of result ≡ GATHER_LIMIT) ⊎ (room_of result ≡ 0) }
    {
        let (kept, room) = match Vec::with_capacity(alloc, GATHER_LIMIT) {
            Ok(kept) => (kept, GATHER_LIMIT),
            Err(_) => (Vec::new(alloc), 0),
        };
        Gathering {
            link,
            kept,
            room,
            through: false,
        }
    }

    /// Says all that is kept to the inner link. Where nothing is kept, it can't fail.
    pub fn flush(&mut self) -> Result<(), Failed>
        ensures kept { OnOk result (kept_of self.new ≡ []) }
        ensures failed { OnErr result (0 < length (kept_of self.old)) }
        ensures through { is_through self.new ≡ is_through self.old }
        ensures room { room_of self.new ≡ room_of self.old }
        ensures flushes { Flushes (is_err result)
            (⟦<Gathering<L> as Link>⟧.link_tells self.old)
            (⟦<Gathering<L> as Link>⟧.link_tells self.new) }
    {
        let (count, answer) = self.link.say_whole(self.kept.as_slice());
        self.forget(count);
        answer
    }

    /// Says all that is kept to the inner link, and gives it back. Where nothing is kept, it can't fail.
    pub fn finish(self) -> (L, Result<(), Failed>)
        ensures finishes { Finishes (is_err result.1)
            (⟦<Gathering<L> as Link>⟧.link_tells self)
            (L.link_tells result.0) }
        ensures failed { OnErr result.1 (0 < length (kept_of self)) }
    {
        let mut gathering = self;
        let flushed = gathering.flush();
        let Gathering { link, .. } = gathering;
        (link, flushed)
    }
}

// The clauses of the trait, and what is kept.
impl<L: Link> Link for Gathering<L> {
    ghost use Rattle.cd_io.specs.Gathering.{fits_empty, has_room, has_stopped, inner_of, is_through, kept_of, room_of};

    ghost link_tells = { λ g. gathered (kept_of g) (L.link_tells g.link) };

    fn hear(&mut self, buf: &mut [u8]) -> Result<Heard, Failed>
        requires { 0 < length buf.old }
        ensures got { heard_count result ≤ length buf.new }
        ensures some { (n : ℕ) → result ≡ Ok (Heard.Got n) → 0 < n }
        ensures hears { Hears result buf.new
            (gathered (kept_of self.old) (L.link_tells self.old.link))
            (gathered (kept_of self.new) (L.link_tells self.new.link)) }
        ensures kept { OnOk result (kept_of self.new ≡ []) }
        ensures through { is_through self.new ≡ (is_through self.old || has_stopped result) }
        ensures room { room_of self.new ≡ room_of self.old }
    {
        let (count, said) = self.link.say_whole(self.kept.as_slice());
        self.forget(count);
        said?;
        let heard = self.link.hear(buf);
        self.note(heard);
        heard
    }

    fn say(&mut self, text: &[u8]) -> Result<usize, Failed>
        ensures bound { IfOk result (λ n. n ≤ length text.now) }
        ensures some { IfOk result (λ n. 0 < length text.now → 0 < n) }
        ensures says { Says result text.now
            (gathered (kept_of self.old) (L.link_tells self.old.link))
            (gathered (kept_of self.new) (L.link_tells self.new.link)) }
        ensures kept { OnOk result (is_through self.old ≡ true → kept_of self.new ≡ []) }

        // Where there is room the whole text is kept, and the inner link isn't called.
        ensures whole { has_room self.old text.now ≡ true → result ≡ Ok (length text.now) }
        ensures keeps { has_room self.old text.now ≡ true
            → kept_of self.new ≡ kept_of self.old ++ text.now }
        ensures gathers { has_room self.old text.now ≡ true
            → inner_of self.new ≡ inner_of self.old }

        // Where there is room once all that was kept is said, the whole text is kept then.
        ensures whole_later { IfOk result (λ n.
            fits_empty self.old text.now ≡ true → n ≡ length text.now) }
        ensures few { length (kept_of self.new) ≤ GATHER_LIMIT }
        ensures through { is_through self.new ≡ is_through self.old }
        ensures room { room_of self.new ≡ room_of self.old }
    {
        if self.fits(text) {
            self.keep(text);
            return Ok(text.len());
        }
        let (count, flushed) = self.link.say_whole(self.kept.as_slice());
        self.forget(count);
        flushed?;
        if !self.fits(text) {
            return self.link.say(text);
        }
        self.keep(text);
        Ok(text.len())
    }
}
