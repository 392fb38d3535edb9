//! A hash for what a source chooses freely.

use pas_lexer::Tokens;
use sha2::{Digest, Sha256};
use std::hash::{BuildHasher, DefaultHasher, Hasher};

/// Makes hashers that have read a digest of all tokens of a source. Who wants its names to collide has to change them,
/// and with them the digest, by which they collide no more than by chance.
#[derive(Clone, Copy)]
pub struct Keyed {
    keyed: DefaultHasher,
}

impl BuildHasher for Keyed {
    type Hasher = DefaultHasher;

    ghost build_hasher = { λ k. k.keyed };

    fn build_hasher(&self) -> DefaultHasher {
        self.keyed
    }
}

/// The digest of the texts of all tokens, each on a line of its own.
fn digest_of(tokens: &Tokens) -> [u8; 32] {
    let mut digest = Sha256::new();
    'tokens: for i in 0..tokens.len() {
        digest.update(tokens.text(i));
        digest.update(b"\n");
    }
    digest.finalize()
}

impl Keyed {
    /// A hash with the digest of a source for its key.
    pub(crate) fn of(tokens: &Tokens) -> Self {
        let mut keyed = DefaultHasher::new();
        keyed.write(&digest_of(tokens));
        Keyed { keyed }
    }
}
