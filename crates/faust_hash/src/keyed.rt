ghost use Rattle.std.specs.Prelude.{◌≡◌, ◌≤◌, length, IfSome};
ghost use Rattle.std.specs.Arc.{arc_value};
ghost use Rattle.std.specs.Option.{option_copied};
ghost use Rattle.sha2.specs.Hashers.{Holds256};
ghost use Rattle.faust_hash.specs.Chain.{link, value_digest_of};
ghost use Rattle.faust_hash.specs.Hmac.{block_key as block_key_of, hmac_of, masked as masked_by, padded as padded_bytes};

use crate::book::Book;
use crate::digests::{chain, value_digest};
use crate::ghost_bytes::GhostBytes;
use sha2::{Digest, Sha256};
use std::alloc::Global;
use std::marker::Model;
use std::sync::Arc;

// How many bytes SHA-256 takes in at a time.
const BLOCK: usize = 64;

// The byte that the inner pad of RFC 2104 repeats.
const INNER_PAD: u8 = 0x36;

// The byte that the outer pad repeats.
const OUTER_PAD: u8 = 0x5c;

/// A key made ready for many tags, as section 4 of RFC 2104 has it: both hashes have taken in their block of the
/// key, and a tag of a short body costs two more blocks in place of four. Clauses see the key's bytes.
///
/// One made by `with_book` remembers tags and digests of values and chains that it computed, and so do its copies,
/// together.
/// What is asked again is looked up. No answer depends on what is remembered.
#[derive(Drop)]
pub struct PreparedKey {
    inner: Sha256,
    outer: Sha256,
    block: [u8; BLOCK],
    book: Option<Book>,
    key: GhostBytes,
}

impl Model for PreparedKey {
    ghost use Rattle.std.specs.Prelude.{ℕ, List};
    ghost use Rattle.faust_hash.specs.Prepared.{IsPrepared};

    ghost Value = { List ℕ };

    ghost view = { λ prepared. prepared.key.bytes };

    ghost invariant = { λ prepared. IsPrepared prepared.key.bytes prepared.block prepared.inner prepared.outer };
}

impl PreparedKey {
    /// The key, of any length, made ready.
    pub fn new(key: &[u8]) -> PreparedKey
        ensures { result ≡ key.now }
    {
        PreparedKey::prepared(key, None)
    }

    /// The key, of any length, made ready, with a book of tags and of digests of values and chains that its copies
    /// share. Where there is no memory for the book it has none, and computes each answer.
    pub fn with_book(alloc: Global, key: &[u8]) -> PreparedKey
        ensures { result ≡ key.now }
    {
        PreparedKey::prepared(key, Book::new(alloc).ok())
    }

    // The key made ready, with this book.
    fn prepared(key: &[u8], book: Option<Book>) -> PreparedKey
        ensures { result ≡ key.now }
    {
        let block = block_key(key);
        PreparedKey {
            inner: begun(&masked(&block, INNER_PAD)),
            outer: begun(&masked(&block, OUTER_PAD)),
            block,
            book,
            key: GhostBytes::of(&key),
        }
    }

    /// The tag of `body`, of any length, under this key.
    #[tactic(auto, using(crate::proofs::Blocks::tag_is_under))]
    pub fn tag(&self, body: &[u8]) -> [u8; 32]
        ensures { result ≡ hmac_of self.now body.now }
    {
        let Some(book) = &self.book else {
            return self.computed(body);
        };
        if let Some(tag) = book.tag(&self.block, body) {
            return tag;
        }
        let tag = self.computed(body);
        book.put_tag(&self.block, body, tag);
        tag
    }

    // The tag, computed.
    #[tactic(auto, unfolding(crate::specs::Hmac::hmac_of))]
    fn computed(&self, body: &[u8]) -> [u8; 32]
        ensures { result ≡ hmac_of self.now body.now }
    {
        let mut inner = copied(&self.inner);
        inner.update(body);
        let mut outer = copied(&self.outer);
        outer.update(inner.finalize());
        outer.finalize()
    }

    /// The digest of a value, as `value_digest` gives it, looked up where this key or a copy computed it before.
    /// It doesn't depend on the key.
    pub fn value_digest(&self, value: &[u8]) -> [u8; 32]
        ensures { result ≡ value_digest_of value.now }
    {
        let Some(book) = &self.book else {
            return value_digest(value);
        };
        if let Some(digest) = book.digest(value) {
            return digest;
        }
        let digest = value_digest(value);
        book.put_digest(value, digest);
        digest
    }

    /// The digest of a chain, as `chain` gives it, looked up where this key or a copy computed it before. It doesn't
    /// depend on the key.
    pub fn chain(&self, prev: Option<&[u8; 32]>, k: u8) -> [u8; 32]
        ensures { result ≡ link (option_copied prev.entry) k }
    {
        let Some(book) = &self.book else {
            return chain(prev, k);
        };
        if let Some(digest) = book.link(prev, k) {
            return digest;
        }
        let digest = chain(prev, k);
        book.put_link(prev, k, digest);
        digest
    }

    /// The value as it is remembered beside its digest, without a copy. `None` where there is no book or the value
    /// isn't in it.
    pub fn shared_value(&self, value: &[u8]) -> Option<Arc<Vec<u8>, Global>>
        ensures { IfSome result (λ shared. (arc_value shared).items ≡ value.now) }
    {
        match &self.book {
            Some(book) => book.value(value),
            None => None,
        }
    }

    /// The same key once more. It shares what the first remembers.
    pub fn copy(&self) -> PreparedKey
        ensures { result ≡ self.now }
    {
        PreparedKey {
            inner: copied(&self.inner),
            outer: copied(&self.outer),
            block: self.block,
            book: shared(&self.book),
            key: GhostBytes::of(&self.key),
        }
    }
}

// The same book once more, where there is one.
fn shared(book: &Option<Book>) -> Option<Book> {
    match book {
        Some(book) => book.shared(),
        None => None,
    }
}

/// The tag of `body` under `key`: HMAC (RFC 2104) over SHA-256 (FIPS 180-4). Key and body may have any length.
pub fn hmac(key: &[u8], body: &[u8]) -> [u8; 32]
    ensures { result ≡ hmac_of key.now body.now }
{
    PreparedKey::new(key).tag(body)
}

// A hash that has taken in this block.
fn begun(block: &[u8; BLOCK]) -> Sha256
    ensures { Holds256 result block.now }
{
    let mut hasher = Sha256::new();
    hasher.update(block);
    hasher
}

fn copied(hasher: &Sha256) -> Sha256
    ensures { result ≡ hasher.now }
{
    match hasher.clone() {
        Ok(copy) => copy,
        Err(_) => unreachable!(),
    }
}

// The key as one block: a key longer than a block is hashed first.
fn block_key(key: &[u8]) -> [u8; BLOCK]
    ensures { result ≡ block_key_of key.now }
{
    if key.len() > BLOCK {
        padded(&Sha256::digest(key))
    } else {
        padded(key)
    }
}

// The bytes, filled up with zeros to a block.
fn padded(bytes: &[u8]) -> [u8; BLOCK]
    requires { length bytes.now ≤ BLOCK }
    ensures { result ≡ padded_bytes bytes.now }
{
    let mut block = [0; BLOCK];
    block[..bytes.len()].copy_from_slice(bytes);
    block
}

// The block with each byte exclusive or `pad`.
fn masked(block: &[u8; BLOCK], pad: u8) -> [u8; BLOCK]
    ensures { result ≡ masked_by block.now pad }
{
    let mut out = *block;
    for byte in &mut out {
        *byte ^= pad;
    }
    out
}
