//! The key of the map's hashes.
use std::hash::{BuildHasher, DefaultHasher, Hash};

/// Two words that go into the hash of each name. Names are chosen by strangers, who could choose many
/// of one hash if they knew these words: draw them, and show them to no one. No contract speaks of
/// them, since what a cache answers is the same under each key.
#[derive(Clone, Copy)]
pub struct HashKey {
    /// What has taken in both words.
    start: DefaultHasher,
}

impl HashKey {
    /// The key of two words.
    pub fn new(first: u64, second: u64) -> HashKey {
        let mut start = DefaultHasher::new();
        first.hash(&mut start);
        second.hash(&mut start);
        HashKey { start }
    }
}

impl BuildHasher for HashKey {
    type Hasher = DefaultHasher;

    ghost build_hasher = { λ key. key.start };

    fn build_hasher(&self) -> DefaultHasher {
        self.start
    }
}
