//! Texts that a pattern was looked for in, with the answers.
ghost use Rattle.cd_pattern.specs.Patterns.{is_found_in};
ghost use Rattle.cd_pattern.specs.Seen.{AreRight};
ghost use Rattle.std.specs.Prelude.{IfSome, List, ℕ, ◌≡◌};

use cd_value::{Memory, Text};
use std::alloc::Global;

/// The number of slots of a pattern.
const SLOTS: usize = 2048;

/// A text that a pattern was looked for in, and whether it was found there.
#[derive(Drop)]
pub(crate) struct Seen {
    text: Text,
    is_found: bool,
}

impl Seen {
    /// The answer, where it is that of this text.
    fn of(&self, text: &str) -> Option<bool>
        ensures { IfSome result (λ found. (pattern : List ℕ) →
            self.now.is_found ≡ is_found_in pattern self.now.text →
            found ≡ is_found_in pattern text.now) }
    {
        if self.text.as_str() == text {
            Some(self.is_found)
        } else {
            None
        }
    }
}

/// The answer that was noted for a text. It takes no memory.
pub(crate) fn recall(slots: &[Option<Seen>], text: &str) -> Option<bool>
    ensures { IfSome result (λ found. (pattern : List ℕ) →
        AreRight pattern slots.now → found ≡ is_found_in pattern text.now) }
{
    match slots.get(slot_of(text)) {
        Some(Some(seen)) => seen.of(text),
        _ => None,
    }
}

/// Notes the answer for a text in its slot, in place of what stood there. The slots are made for the first note.
pub(crate) fn note(
    slots: &mut Vec<Option<Seen>>,
    alloc: Global,
    text: &str,
    is_found: bool,
) -> Result<(), Memory>
    ensures { (pattern : List ℕ) → AreRight pattern slots.old.items →
        is_found ≡ is_found_in pattern text.now → AreRight pattern slots.new.items }
{
    let slot = slot_of(text);
    let text = Text::of(alloc, text)?;
    fill(slots)?;
    put(slots.as_mut_slice(), slot, Seen { text, is_found });
    Ok(())
}

/// Puts an answer into the slot of a number.
fn put(slots: &mut [Option<Seen>], number: usize, seen: Seen)
    ensures { (pattern : List ℕ) → AreRight pattern slots.old →
        seen.is_found ≡ is_found_in pattern seen.text → AreRight pattern slots.new }
{
    if number < slots.len() {
        slots[number] = Some(seen);
    }
}

/// Makes the slots that aren't made yet, at one taking of memory.
fn fill(slots: &mut Vec<Option<Seen>>) -> Result<(), Memory>
    ensures { (pattern : List ℕ) →
        AreRight pattern slots.old.items → AreRight pattern slots.new.items }
{
    slots.reserve_exact(SLOTS.saturating_sub(slots.len()))?;
    for _ in slots.len()..SLOTS {
        slots.push(None)?;
    }
    Ok(())
}

/// The number of the slot of a text, by the hash of Fowler, Noll and Vo. Texts of one slot only put one another out.
fn slot_of(text: &str) -> usize {
    let mut hash: u64 = 0xcbf29ce484222325;
    for byte in text.as_bytes() {
        hash = (hash ^ u64::from(*byte)).wrapping_mul(0x100000001b3);
    }
    (hash % SLOTS as u64) as usize
}
