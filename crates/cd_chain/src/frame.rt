//! Places in the chains of a table.
ghost use Rattle.cd_chain.specs.Frames.{after, rest_of, slot, with_target};
ghost use Rattle.std.specs.Prelude.{◌≡◌, [], MatchOption, None, Some, slice_get};

use crate::Chain;
use cd_target::Target;

/// A place in a chain that is under way.
#[derive(Clone, Copy)]
pub struct Frame {
    /// The number of the chain.
    pub chain: usize,
    /// How many of its rules have begun, and one more than there are where its default targets have.
    pub begun: usize,
    /// How many targets of the last of these have run.
    pub target: usize,
}

impl Frame {
    /// The start of a chain.
    pub fn of(chain: usize) -> Frame
        ensures { result ≡ record { chain = chain; begun = 0; target = 0 } }
    {
        Frame {
            chain,
            begun: 0,
            target: 0,
        }
    }
}

/// The targets of the last of so many rules, or the default targets where there are fewer rules.
pub fn slot(chain: &Chain, begun: usize) -> &[Target]
    ensures { result.now ≡ slot chain.now begun }
{
    if begun == 0 {
        return &[];
    }
    match chain.rules.as_slice().get(begun - 1) {
        Some(rule) => rule.targets.as_slice(),
        None => chain.defaults.as_slice(),
    }
}

/// The target of a place in a chain, and the place behind it.
#[tactic(auto, using(std::proofs::lemmas::Option::slice_get_past, std::proofs::lemmas::Option::slice_get_read))]
fn target_in(chain: &Chain, here: Frame) -> Option<(&Target, Frame)>
    ensures { MatchOption result (slice_get (slot chain.now here.begun) here.target ≡ None)
        (λ p. (slice_get (slot chain.now here.begun) here.target ≡ Some p.0.now)
        × (p.1 ≡ after here)) }
{
    let targets = slot(chain, here.begun);
    if here.target >= targets.len() {
        return None;
    }
    let rest = Frame {
        chain: here.chain,
        begun: here.begun,
        target: here.target + 1,
    };
    Some((&targets[here.target], rest))
}

/// The target of a place, where it has one, and the place behind it.
pub fn target_at(chains: &[Chain], here: Frame) -> Option<(&Target, Frame)>
    ensures { MatchOption result ((rest_of chains.now here).targets ≡ [])
        (λ p. rest_of chains.now here ≡ with_target p.0.now (rest_of chains.now p.1)) }
{
    match chains.get(here.chain) {
        Some(chain) => target_in(chain, here),
        None => None,
    }
}
