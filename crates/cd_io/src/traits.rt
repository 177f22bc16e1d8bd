//! What the daemon asks of the outside.
ghost use Rattle.cd_io.specs.Causes.{Counts};
ghost use Rattle.cd_io.specs.Link.{Hears, LinkTells, Says, SaysWhole, heard_count};
ghost use Rattle.cd_io.specs.Told.{clock_after, dice_after};
ghost use Rattle.std.specs.Option.{option_map};
ghost use Rattle.std.specs.Prelude.{IfOk, IfSome, Ok, OnErr, OnOk, Option, is_err, length, true, ℕ, ◌<◌, ◌≡◌, ◌≤◌};

use std::marker::Send;

/// A call on an object of the outside failed: its count of faults rose in that call, or stands at `u64::MAX`.
#[derive(Clone, Copy, Debug, PartialEq, Eq)]
pub struct Failed;

impl Failed {
    /// Counts a fault, and makes its answer.
    pub(crate) fn counted(faults: &mut u64) -> Self
        ensures { Counts true faults.old faults.new }
    {
        *faults = faults.saturating_add(1);
        Failed
    }
}

/// What came from a link, or from a source of datagrams.
#[derive(Clone, Copy, Debug, PartialEq, Eq)]
pub enum Heard {
    /// This many bytes at the front of the buffer: of a link at least 1, of a source of datagrams all of the next one.
    Got(usize),
    /// Nothing, since nothing comes any more.
    End,
    /// Nothing within the object's own limit of waiting.
    Quiet,
}

/// A stream of bytes from a peer, and one to it.
pub trait Link: Send + Drop {
    /// What it tells: the bytes given, left and said, where it tells them, and the counts of faults and of quiets.
    ghost link_tells: { Self → LinkTells };

    /// Takes the next bytes from the peer into the front of the buffer. What the buffer has behind them is left open.
    fn hear(&mut self, buf: &mut [u8]) -> Result<Heard, Failed>
        requires { 0 < length buf.old }
        ensures got { heard_count result ≤ length buf.new }
        ensures some { (n : ℕ) → result ≡ Ok (Heard.Got n) → 0 < n }
        ensures hears { Hears result buf.new (link_tells self.old) (link_tells self.new) };

    /// Says the first bytes of a text to the peer, and answers how many.
    fn say(&mut self, text: &[u8]) -> Result<usize, Failed>
        ensures bound { IfOk result (λ n. n ≤ length text.now) }
        ensures some { IfOk result (λ n. 0 < length text.now → 0 < n) }
        ensures says { Says result text.now (link_tells self.old) (link_tells self.new) };

    /// Says a text to the peer: it is offered in one piece, and again from the first byte that wasn't taken. Answers
    /// how many of its bytes were said: all where no call failed, and fewer where one did.
    fn say_whole(&mut self, text: &[u8]) -> (usize, Result<(), Failed>)
        ensures bound { result.0 ≤ length text.now }
        ensures whole { OnOk result.1 (result.0 ≡ length text.now) }
        ensures short { OnErr result.1 (result.0 < length text.now) }
        ensures says { SaysWhole result.0 (is_err result.1) text.now
            (link_tells self.old) (link_tells self.new) }
    {
        let mut said = 0;
        while said < text.len() {
            match self.say(&text[said..]) {
                Ok(count) => said += count,
                Err(failed) => return (said, Err(failed)),
            }
        }
        (said, Ok(()))
    }
}

/// A clock. Moments are in units of 2^-30 seconds.
pub trait Clock: Send + Drop {
    /// The moment that comes next and the step from each moment to the one after it, where the clock tells them.
    ghost clock_pair: { Self → Option (ℕ × ℕ) };

    /// Gives a moment.
    fn now(&mut self) -> u64
        ensures moment { IfSome (clock_pair self.old) (λ pair. result ≡ pair.0) }
        ensures after { clock_pair self.new ≡ option_map clock_after (clock_pair self.old) };

    /// Makes an equal clock, which goes on by itself.
    fn fork(&mut self) -> Self
        ensures equal { clock_pair result ≡ clock_pair self.old }
        ensures same { clock_pair self.new ≡ clock_pair self.old };

    /// Lets some time pass, and gives no moment. The real clock sleeps for a tenth of a second.
    fn pause(&mut self)
        ensures { clock_pair self.new ≡ clock_pair self.old };
}

/// Dice, which give 64-bit words by chance.
pub trait Dice: Send + Drop {
    /// The word that comes next and the step from each word to the one after it, where the dice tell them.
    ghost dice_pair: { Self → Option (ℕ × ℕ) };

    /// Gives a word.
    fn word(&mut self) -> u64
        ensures word { IfSome (dice_pair self.old) (λ pair. result ≡ pair.0) }
        ensures after { dice_pair self.new ≡ option_map dice_after (dice_pair self.old) };

    /// Makes equal dice, which go on by themselves.
    fn fork(&mut self) -> Self
        ensures equal { dice_pair result ≡ dice_pair self.old }
        ensures same { dice_pair self.new ≡ dice_pair self.old };
}
