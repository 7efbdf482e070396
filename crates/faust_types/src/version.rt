ghost use Rattle.std.specs.Prelude.{◌≡◌, ℕ, ◌+◌, ◌^◌, ◌<◌, ◌≤◌, ◌++◌, ◌↔◌, IsTrue, IsNone, IfOk, OnOk, OnErr, take, length, flat_map};
ghost use Rattle.faust_types.specs.Clients.{IsClientCount, IsClient};
ghost use Rattle.faust_types.specs.Versions.{Vector, IsVersion, IsAtMost, IsOrder, clients_of, timestamp_at, digest_at, initial, with_entry, stepped, is_at_most, compared, is_comparable, is_initial, is_same_digest, is_entry_at_most};
ghost use Rattle.faust_types.specs.Spelling.{be64, optional, version_bytes};

use crate::bytes::Bytes;
use crate::out_of_memory::OutOfMemory;
use crate::spelling::put_optional;
use std::alloc::Global;
use std::marker::Model;

/// A digest of SHA-256.
pub type Digest = [u8; 32];

/// A tag of HMAC with SHA-256.
pub type Tag = [u8; 32];

/// How two versions compare. `Apart` says that neither is at most the other: no single history has both.
#[derive(Clone, Copy, Debug, PartialEq, Eq)]
pub enum Compared {
    Less,
    Equal,
    Greater,
    Apart,
}

/// A version of n clients: for each client a timestamp, and a digest exactly where that isn't 0.
#[derive(Debug, Drop)]
pub struct Version {
    timestamps: Vec<u64>,
    digests: Vec<Option<Digest>>,
}

impl Model for Version {
    ghost use Rattle.faust_types.specs.Versions.{Vector, IsVersion};

    ghost Value = { Vector };

    ghost view = { λ v. record { timestamps = v.timestamps.items; digests = v.digests.items } };

    ghost invariant = { λ v. IsVersion (record { timestamps = v.timestamps.items; digests = v.digests.items }) };
}

impl Version {
    /// The initial version of n clients.
    pub fn initial(alloc: Global, n: u8) -> Result<Version, OutOfMemory>
        requires { IsClientCount n }
        ensures { IfOk result (λ version. version ≡ initial n) }
    {
        Ok(Version {
            timestamps: Vec::from_elem(alloc, 0, usize::from(n))?,
            digests: Vec::from_elem(alloc, None, usize::from(n))?,
        })
    }

    /// For how many clients the version is.
    pub fn clients(&self) -> u8
        ensures count { result ≡ clients_of self.now }
        ensures kept { IsVersion self.now }
    {
        self.timestamps.len() as u8
    }

    /// The timestamp of client k, from 0 to 2^40 - 1.
    pub fn at(&self, k: u8) -> u64
        requires { IsClient (clients_of self.now) k }
        ensures value { result ≡ timestamp_at self.now k }
        ensures below { result < 2 ^ 40 }
    {
        self.timestamps[usize::from(k) - 1]
    }

    /// The digest of client k: none exactly where its timestamp is 0.
    pub fn digest(&self, k: u8) -> Option<Digest>
        requires { IsClient (clients_of self.now) k }
        ensures value { result ≡ digest_at self.now k }
        ensures absent { IsNone result ↔ (timestamp_at self.now k ≡ 0) }
    {
        self.digests[usize::from(k) - 1]
    }

    /// Counts one more operation of client k, with the digest d after it.
    pub fn step(&mut self, k: u8, d: Digest)
        requires client { IsClient (clients_of self.old) k }
        requires room { timestamp_at self.old k + 1 < 2 ^ 40 }
        ensures { self.new ≡ stepped self.old k d }
    {
        let t = self.at(k) + 1;
        self.set(k, t, d);
    }

    /// Puts the timestamp t, from 1 to 2^40 - 1, and the digest d in the place of client k.
    pub fn set(&mut self, k: u8, t: u64, d: Digest)
        requires client { IsClient (clients_of self.old) k }
        requires from_one { 1 ≤ t }
        requires below { t < 2 ^ 40 }
        ensures { self.new ≡ with_entry self.old k t d }
    {
        let place = usize::from(k) - 1;
        self.timestamps[place] = t;
        self.digests[place] = Some(d);
    }

    /// Whether this version is at most the other: no timestamp is greater, and equal ones have equal digests.
    #[tactic(auto, unfolding(crate::specs::Versions::is_at_most))]
    pub fn is_at_most(&self, other: &Version) -> bool
        requires { clients_of self.now ≡ clients_of other.now }
        ensures test { result ≡ is_at_most self.now other.now }
        ensures meaning { IsTrue result ↔ IsAtMost self.now other.now }
    {
        for before in 0..self.clients() {
            if !self.is_entry_at_most(other, before + 1) {
                return false;
            }
        }
        true
    }

    fn is_entry_at_most(&self, other: &Version, k: u8) -> bool
        requires same { clients_of self.now ≡ clients_of other.now }
        requires client { IsClient (clients_of self.now) k }
        ensures { result ≡ is_entry_at_most self.now other.now k }
    {
        let place = usize::from(k) - 1;
        let (mine, theirs) = (self.timestamps[place], other.timestamps[place]);
        mine < theirs
            || (mine == theirs && is_same_digest(&self.digests[place], &other.digests[place]))
    }

    /// How this version and the other compare.
    pub fn order(&self, other: &Version) -> Compared
        requires { clients_of self.now ≡ clients_of other.now }
        ensures value { result ≡ compared self.now other.now }
        ensures meaning { IsOrder result self.now other.now }
    {
        match (self.is_at_most(other), other.is_at_most(self)) {
            (true, false) => Compared::Less,
            (true, true) => Compared::Equal,
            (false, true) => Compared::Greater,
            (false, false) => Compared::Apart,
        }
    }

    /// Whether one of both versions is at most the other.
    pub fn is_comparable(&self, other: &Version) -> bool
        requires { clients_of self.now ≡ clients_of other.now }
        ensures { result ≡ is_comparable self.now other.now }
    {
        self.is_at_most(other) || other.is_at_most(self)
    }

    /// Whether this is the initial version.
    #[tactic(auto, unfolding(crate::specs::Versions::is_initial))]
    pub fn is_initial(&self) -> bool
        ensures test { result ≡ is_initial self.now }
        ensures meaning { IsTrue result ↔ (self.now ≡ initial (clients_of self.now)) }
    {
        let mut holds = true;
        for before in 0..self.clients() {
            holds = holds && self.at(before + 1) == 0;
        }
        holds
    }

    /// An equal version of its own.
    pub fn copy(&self) -> Result<Version, OutOfMemory>
        ensures { IfOk result (λ copy. copy ≡ self.now) }
    {
        let alloc = *self.timestamps.allocator();
        Ok(Version {
            timestamps: Vec::from_slice(alloc, &self.timestamps)?,
            digests: Vec::from_slice(alloc, &self.digests)?,
        })
    }

    /// Puts the version's bytes behind the text: n timestamps of eight bytes, then n optional digests.
    pub fn put(&self, out: &mut Bytes) -> Result<(), OutOfMemory>
        ensures ok { OnOk result (out.new ≡ out.old ++ version_bytes self.now) }
        ensures err { OnErr result (out.new ≡ out.old) }
    {
        let before = out.len();
        let written = self.put_parts(out);
        if written.is_err() {
            out.truncate(before);
        }
        written
    }

    #[tactic(auto, unfolding(crate::specs::Spelling::version_bytes))]
    fn put_parts(&self, out: &mut Bytes) -> Result<(), OutOfMemory>
        ensures ok { OnOk result (out.new ≡ out.old ++ version_bytes self.now) }
        ensures err { OnErr result (take (length out.old) out.new ≡ out.old) }
    {
        out.reserve(self.timestamps.len() * 8 + self.digests.len() * 33)?;
        put_timestamps(&self.timestamps, out)?;
        put_digests(&self.digests, out)
    }
}

fn is_same_digest(mine: &Option<Digest>, theirs: &Option<Digest>) -> bool
    ensures { result ≡ is_same_digest mine.now theirs.now }
{
    match (mine, theirs) {
        (None, None) => true,
        (Some(mine), Some(theirs)) => differences(mine, theirs) == 0,
        _ => false,
    }
}

// The bits in which the bytes at some place differ: 0 exactly where all bytes agree. It takes no branch at a byte.
#[tactic(auto, using(crate::proofs::Places::one_more_place))]
fn differences(mine: &Digest, theirs: &Digest) -> u8
    ensures { (result ≡ 0) ↔ (mine.now ≡ theirs.now) }
{
    let mut bits = 0;
    for i in 0..32 {
        bits |= mine[i] ^ theirs[i];
    }
    bits
}

#[tactic(auto, unfolding(crate::specs::Spelling::be64))]
fn put_timestamps(timestamps: &[u64], out: &mut Bytes) -> Result<(), OutOfMemory>
    ensures ok { OnOk result (out.new ≡ out.old ++ flat_map be64 timestamps.now) }
    ensures err { OnErr result (take (length out.old) out.new ≡ out.old) }
{
    for t in timestamps {
        out.append(&t.to_be_bytes())?;
    }
    Ok(())
}

fn put_digests(digests: &[Option<Digest>], out: &mut Bytes) -> Result<(), OutOfMemory>
    ensures ok { OnOk result (out.new ≡ out.old ++ flat_map optional digests.now) }
    ensures err { OnErr result (take (length out.old) out.new ≡ out.old) }
{
    for digest in digests {
        put_optional(*digest, out)?;
    }
    Ok(())
}
