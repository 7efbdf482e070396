ghost use Rattle.std.specs.Prelude.{◌≡◌};
ghost use Rattle.std.specs.Option.{option_copied};
ghost use Rattle.faust_hash.specs.Chain.{input_digest, link, value_digest_of};

use sha2::{Digest, Sha256};

// The byte that the hashed input of a chain begins with.
const CHAIN: u8 = 0x10;

// The byte that the hashed input of a value begins with, so that it is never that of a chain.
const VALUE: u8 = 0x11;

/// The digest of a chain of clients with client `k` put behind it. `prev` is the digest of the chain before,
/// and `None` where that is empty.
#[tactic(auto, unfolding(crate::specs::Chain::link))]
pub fn chain(prev: Option<&[u8; 32]>, k: u8) -> [u8; 32]
    ensures { result ≡ link (option_copied prev.entry) k }
{
    match prev {
        None => Sha256::digest([CHAIN, k]),
        Some(digest) => {
            let mut hasher = Sha256::new();
            hasher.update([CHAIN]);
            hasher.update(digest);
            hasher.update([k]);
            hasher.finalize()
        }
    }
}

/// The digest of any hashed input, that of a chain or of a value: two inputs of one digest are a collision.
#[tactic(auto, unfolding(crate::specs::Chain::input_digest))]
pub fn input_digest(input: &[u8]) -> [u8; 32]
    ensures { result ≡ input_digest input.now }
{
    Sha256::digest(input)
}

/// The digest of a value, which stands for it in the body that a writer tags.
#[tactic(auto, unfolding(crate::specs::Chain::value_digest_of))]
pub fn value_digest(value: &[u8]) -> [u8; 32]
    ensures { result ≡ value_digest_of value.now }
{
    let mut hasher = Sha256::new();
    hasher.update([VALUE]);
    hasher.update(value);
    hasher.finalize()
}
