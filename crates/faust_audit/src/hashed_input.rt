//! An input that was hashed, with its digest.
ghost use Rattle.std.specs.Prelude.{◌≡◌, IfOk, IfSome};
ghost use Rattle.faust_hash.specs.Chain.{chain_input, input_digest, value_input};

use faust_hash::input_digest;
use faust_types::{Bytes, Digest, OutOfMemory};
use std::alloc::Global;
use std::marker::Model;

// The bytes that the hashed inputs of a chain and of a value begin with.
const CHAIN: u8 = 0x10;

const VALUE: u8 = 0x11;

// The most bytes of the input of a chain: the first one, a digest and a client.
const MAX_LINK_LEN: usize = 34;

/// An input that was hashed, and its digest, so that nobody hashes it once more. Clauses see the input.
#[derive(Debug, Drop)]
pub struct Hashed {
    input: Bytes,
    digest: Digest,
}

impl Model for Hashed {
    ghost use Rattle.std.specs.Prelude.{◌≡◌, ℕ, List};
    ghost use Rattle.faust_hash.specs.Chain.{input_digest};

    ghost Value = { List ℕ };

    ghost view = { λ hashed. hashed.input };

    ghost invariant = { λ hashed. hashed.digest ≡ input_digest hashed.input };
}

impl Hashed {
    /// An input whose digest is known.
    pub fn new(input: Bytes, digest: Digest) -> Hashed
        requires { digest ≡ input_digest input }
        ensures { result ≡ input }
    {
        Hashed { input, digest }
    }

    /// An input, which is hashed.
    pub fn of(input: Bytes) -> Hashed
        ensures { result ≡ input }
    {
        let digest = input_digest(input.as_slice());
        Hashed { input, digest }
    }

    /// The input.
    pub fn input(&self) -> &Bytes
        ensures { result.now ≡ self.now }
    {
        &self.input
    }

    /// The digest of this input, if it is that one.
    pub fn digest_of(&self, input: &Bytes) -> Option<Digest>
        ensures { IfSome result (λ digest. digest ≡ input_digest input.now) }
    {
        if self.input.as_slice() == input.as_slice() {
            Some(self.digest)
        } else {
            None
        }
    }

    /// Its digest.
    pub fn digest(&self) -> &Digest
        ensures { result.now ≡ input_digest self.now }
    {
        &self.digest
    }
}

/// The input of the digest of a value.
pub fn value_input(alloc: Global, value: &[u8]) -> Result<Bytes, OutOfMemory>
    ensures { IfOk result (λ input. input ≡ value_input value.now) }
{
    let mut input = Bytes::new(alloc);
    input.reserve(1 + value.len())?;
    input.push(VALUE)?;
    input.append(value)?;
    Ok(input)
}

/// The input of the digest of a chain with client k behind it.
pub fn chain_input(alloc: Global, before: Option<Digest>, k: u8) -> Result<Bytes, OutOfMemory>
    ensures { IfOk result (λ input. input ≡ chain_input before k) }
{
    let mut input = Bytes::new(alloc);
    input.reserve(MAX_LINK_LEN)?;
    input.push(CHAIN)?;
    if let Some(digest) = before {
        input.append(&digest)?;
    }
    input.push(k)?;
    Ok(input)
}
