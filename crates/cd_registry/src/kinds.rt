//! The set of the kinds of callbacks.
ghost use Rattle.std.specs.Prelude.{[], bit_and, codes, ⊤, ◌==◌, ◌∷◌, ◌≡◌};

use bitflags::{Flag, Flags};

/// The kinds of callbacks that a plug-in is registered for.
#[derive(Clone, Copy, PartialEq, Eq, Debug, Drop)]
pub struct Kinds(pub u8);

impl Kinds {
    /// It is called with value lists.
    pub const WRITE: Kinds = Kinds(1);
    /// It is called to flush what it holds back.
    pub const FLUSH: Kinds = Kinds(2);
    /// It is called with lists whose values stopped coming.
    pub const MISSING: Kinds = Kinds(4);
    /// It is called with notifications.
    pub const NOTIFY: Kinds = Kinds(8);
    /// It is called with its block of the configuration.
    pub const CONFIGURE: Kinds = Kinds(16);
    /// The kinds with their names.
    pub const FLAGS: &'static [Flag<Kinds>] = &[
        Flag {
            name: "WRITE",
            value: Kinds::WRITE,
        },
        Flag {
            name: "FLUSH",
            value: Kinds::FLUSH,
        },
        Flag {
            name: "MISSING",
            value: Kinds::MISSING,
        },
        Flag {
            name: "NOTIFY",
            value: Kinds::NOTIFY,
        },
        Flag {
            name: "CONFIGURE",
            value: Kinds::CONFIGURE,
        },
    ];

    /// Whether all of the kinds asked for are in the set.
    pub fn has(self, asked: Kinds) -> bool
        ensures { result ≡ (bit_and self.0 asked.0 == asked.0) }
    {
        self.contains(asked)
    }
}

impl Flags for Kinds {
    type Bits = u8;

    ghost exact = { ⊤ };

    ghost table = { (codes "WRITE", 1) ∷ (codes "FLUSH", 2) ∷ (codes "MISSING", 4)
        ∷ (codes "NOTIFY", 8) ∷ (codes "CONFIGURE", 16) ∷ [] };

    ghost set_of = { λ kinds. kinds.0 };

    fn flags<'a>() -> &'a [Flag<Kinds>] {
        Kinds::FLAGS
    }

    fn bits(&self) -> u8 {
        self.0
    }

    fn from_bits_retain(bits: u8) -> Kinds {
        Kinds(bits)
    }
}
