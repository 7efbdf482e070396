ghost use Rattle.std.specs.Prelude.{◌≡◌, ◌++◌, length, take, IfOk, OnOk, OnErr};
ghost use Rattle.faust_types.specs.Clients.{IsClientCount};
ghost use Rattle.faust_types.specs.Messages.{unmade};
ghost use Rattle.faust_types.specs.Spelling.{announced, peer_byte, peer_content, peer_front};

use crate::bytes::Bytes;
use crate::operation::Kind;
use crate::out_of_memory::OutOfMemory;
use crate::sequence::Sequence;
use crate::spelling::{ABSENT, FAILURE, PROBE, VERSION};
use crate::version::{Tag, Version};
use std::alloc::Global;

/// A version with the commit tag of its maker. The initial version has maker 0 and a tag of zero bytes.
#[derive(Debug, Drop)]
pub struct Known {
    pub maker: u8,
    pub version: Version,
    pub tag: Tag,
}

/// A submitted operation that isn't committed, with the submit tag of its client.
#[derive(Clone, Copy, Debug, PartialEq, Eq)]
pub struct Tuple {
    pub client: u8,
    pub kind: Kind,
    pub register: u8,
    pub tag: Tag,
}

/// Submitted operations in the order in which they came.
pub type Tuples = Sequence<Tuple>;

/// For each client its proof tag or none.
pub type Proofs = Sequence<Option<Tag>>;

/// What the server holds of a register: the timestamp of its owner's last operation, the value last written or
/// none, and the owner's data tag over both.
#[derive(Debug, Drop)]
pub struct Mem {
    pub t: u64,
    pub value: Option<Bytes>,
    pub tag: Tag,
}

/// What a reply adds for a read: the last version that the register's owner committed, and the memory of the
/// register or nothing.
#[derive(Debug, Drop)]
pub struct ReadPart {
    pub register: u8,
    pub version: Known,
    pub mem: Option<Mem>,
}

/// An operation handed to the server: number `t` of its client. A write has a value, a read has none. Under
/// version 2 of the wire the COMMIT of the operation before may ride on it.
#[derive(Debug, Drop)]
pub struct Submit {
    pub kind: Kind,
    pub register: u8,
    pub t: u64,
    pub value: Option<Bytes>,
    pub submit_tag: Tag,
    pub data_tag: Tag,
    pub commit: Option<Commit>,
}

/// The server's answer: the last committed version of client `c`, the operations pending since, the proofs, and
/// for a read its part.
#[derive(Debug, Drop)]
pub struct Reply {
    pub c: u8,
    pub version: Known,
    pub pending: Tuples,
    pub proofs: Proofs,
    pub read: Option<ReadPart>,
}

/// A completed operation: its version, with the commit tag and the proof tag over the own digest.
#[derive(Debug, Drop)]
pub struct Commit {
    pub version: Version,
    pub commit_tag: Tag,
    pub proof_tag: Tag,
}

/// What one client says to another: a question for the greatest known version, such a version, or the number,
/// 1 to 15, of the check that broke.
#[derive(Debug, Drop)]
pub enum Peer {
    Probe,
    Version(Known),
    Failure(u8),
}

/// A message between two clients with the sender's tag.
#[derive(Debug, Drop)]
pub struct PeerMessage {
    pub from: u8,
    pub to: u8,
    pub peer: Peer,
    pub tag: Tag,
}

/// Any message. `Hello` names the client of a connection.
#[derive(Debug, Drop)]
pub enum Message {
    Submit(Submit),
    Reply(Reply),
    Commit(Commit),
    Peer(PeerMessage),
    Hello(u8),
}

impl Known {
    /// The initial version of n clients, which nobody made.
    pub fn initial(alloc: Global, n: u8) -> Result<Known, OutOfMemory>
        requires { IsClientCount n }
        ensures { IfOk result (λ known. known ≡ unmade n) }
    {
        Ok(Known {
            maker: 0,
            version: Version::initial(alloc, n)?,
            tag: [0; 32],
        })
    }

    /// An equal version with its tag, of its own.
    pub fn copy(&self) -> Result<Known, OutOfMemory>
        ensures { IfOk result (λ copy. copy ≡ self.now) }
    {
        Ok(Known {
            maker: self.maker,
            version: self.version.copy()?,
            tag: self.tag,
        })
    }
}

impl Mem {
    /// An equal memory of its own.
    pub fn copy(&self) -> Result<Mem, OutOfMemory>
        ensures { IfOk result (λ copy. copy ≡ self.now) }
    {
        Ok(Mem {
            t: self.t,
            value: copy_of_value(&self.value)?,
            tag: self.tag,
        })
    }
}

fn copy_of_value(value: &Option<Bytes>) -> Result<Option<Bytes>, OutOfMemory>
    ensures { IfOk result (λ copy. copy ≡ value.now) }
{
    match value {
        Some(bytes) => Ok(Some(bytes.copy()?)),
        None => Ok(None),
    }
}

impl ReadPart {
    /// An equal part of its own.
    pub fn copy(&self) -> Result<ReadPart, OutOfMemory>
        ensures { IfOk result (λ copy. copy ≡ self.now) }
    {
        let mem = match &self.mem {
            Some(mem) => Some(mem.copy()?),
            None => None,
        };
        Ok(ReadPart {
            register: self.register,
            version: self.version.copy()?,
            mem,
        })
    }
}

impl Submit {
    /// An equal message of its own.
    pub fn copy(&self) -> Result<Submit, OutOfMemory>
        ensures { IfOk result (λ copy. copy ≡ self.now) }
    {
        let commit = match &self.commit {
            Some(commit) => Some(commit.copy()?),
            None => None,
        };
        Ok(Submit {
            kind: self.kind,
            register: self.register,
            t: self.t,
            value: copy_of_value(&self.value)?,
            submit_tag: self.submit_tag,
            data_tag: self.data_tag,
            commit,
        })
    }
}

impl Reply {
    /// An equal message of its own.
    pub fn copy(&self) -> Result<Reply, OutOfMemory>
        ensures { IfOk result (λ copy. copy ≡ self.now) }
    {
        let read = match &self.read {
            Some(part) => Some(part.copy()?),
            None => None,
        };
        Ok(Reply {
            c: self.c,
            version: self.version.copy()?,
            pending: self.pending.copy()?,
            proofs: self.proofs.copy()?,
            read,
        })
    }
}

impl Commit {
    /// An equal message of its own.
    pub fn copy(&self) -> Result<Commit, OutOfMemory>
        ensures { IfOk result (λ copy. copy ≡ self.now) }
    {
        Ok(Commit {
            version: self.version.copy()?,
            commit_tag: self.commit_tag,
            proof_tag: self.proof_tag,
        })
    }
}

impl Peer {
    /// An equal content of its own.
    pub fn copy(&self) -> Result<Peer, OutOfMemory>
        ensures { IfOk result (λ copy. copy ≡ self.now) }
    {
        match self {
            Peer::Probe => Ok(Peer::Probe),
            Peer::Version(known) => Ok(Peer::Version(known.copy()?)),
            Peer::Failure(check) => Ok(Peer::Failure(*check)),
        }
    }
}

impl PeerMessage {
    /// An equal message of its own.
    pub fn copy(&self) -> Result<PeerMessage, OutOfMemory>
        ensures { IfOk result (λ copy. copy ≡ self.now) }
    {
        Ok(PeerMessage {
            from: self.from,
            to: self.to,
            peer: self.peer.copy()?,
            tag: self.tag,
        })
    }

    /// Puts the message's bytes up to its tag behind the text, from the byte of the wire's version on.
    pub fn put_front(&self, wire: u8, out: &mut Bytes) -> Result<(), OutOfMemory>
        ensures ok { OnOk result (out.new ≡ out.old ++ peer_front wire self.now) }
        ensures err { OnErr result (out.new ≡ out.old) }
    {
        let before = out.len();
        let written = self.put_parts(wire, out);
        if written.is_err() {
            out.truncate(before);
        }
        written
    }

    #[tactic(auto, unfolding(crate::specs::Spelling::peer_front))]
    fn put_parts(&self, wire: u8, out: &mut Bytes) -> Result<(), OutOfMemory>
        ensures ok { OnOk result (out.new ≡ out.old ++ peer_front wire self.now) }
        ensures err { OnErr result (take (length out.old) out.new ≡ out.old) }
    {
        out.append(&[wire, byte_of_peer(&self.peer), self.from, self.to])?;
        put_content(&self.peer, out)
    }
}

fn byte_of_peer(peer: &Peer) -> u8
    ensures { result ≡ peer_byte peer.now }
{
    match peer {
        Peer::Probe => PROBE,
        Peer::Version(_) => VERSION,
        Peer::Failure(_) => FAILURE,
    }
}

fn put_content(peer: &Peer, out: &mut Bytes) -> Result<(), OutOfMemory>
    ensures ok { OnOk result (out.new ≡ out.old ++ peer_content peer.now) }
    ensures err { OnErr result (take (length out.old) out.new ≡ out.old) }
{
    match peer {
        Peer::Probe => Ok(()),
        Peer::Version(known) => put_announced(known, out),
        Peer::Failure(check) => out.push(*check),
    }
}

#[tactic(auto, unfolding(crate::specs::Spelling::announced))]
fn put_announced(known: &Known, out: &mut Bytes) -> Result<(), OutOfMemory>
    ensures ok { OnOk result (out.new ≡ out.old ++ announced known.now) }
    ensures err { OnErr result (take (length out.old) out.new ≡ out.old) }
{
    if known.version.is_initial() {
        return out.push(ABSENT);
    }
    out.push(known.maker)?;
    known.version.put(out)?;
    out.append(&known.tag)
}
