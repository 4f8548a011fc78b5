//! How a map hashes the words or paths of some texts: by a key that all bytes of these texts make.
//!
//! Which words collide depends on the key, and each byte that is written beside them makes another key. So none can be written down
//! beforehand that collide wherever they stand, as they can under a fixed key.
use std::hash::{BuildHasher, DefaultHasher, FoldHasher, Hasher};

/// Makes a hasher that has taken in the key.
#[derive(Clone, Copy)]
pub struct Keyed {
    keyed: FoldHasher,
}

impl Keyed {
    /// Hashes by the key that these bytes make.
    pub fn by(texts: &[u8]) -> Keyed {
        let mut digest = DefaultHasher::new();
        digest.write(texts);
        let mut keyed = FoldHasher::default();
        keyed.write_u64(digest.finish());
        Keyed { keyed }
    }
}

impl BuildHasher for Keyed {
    type Hasher = FoldHasher;

    ghost build_hasher = { λ k. k.keyed };

    #[inline(always)]
    fn build_hasher(&self) -> FoldHasher {
        self.keyed
    }
}
