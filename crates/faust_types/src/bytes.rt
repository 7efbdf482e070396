ghost use Rattle.std.specs.Prelude.{◌≡◌, [], ◌∷◌, ◌++◌, ◌↔◌, length, take, IsTrue, OnOk, OnErr, IfOk};
ghost use Rattle.std.specs.Arc.{arc_value};

use crate::out_of_memory::OutOfMemory;
use std::alloc::Global;
use std::fmt;
use std::marker::Model;
use std::sync::Arc;

/// Bytes: a value, a key, a message, a text. They lie in memory of their own or in memory that several owners share,
/// which no clause tells apart: a copy of shared bytes takes no memory, and bytes that grow become their own first.
#[derive(Drop)]
pub struct Bytes {
    held: Held,
}

/// Where bytes lie.
#[derive(Drop)]
pub enum Held {
    Own(Vec<u8>),
    Shared(Prefix),
}

/// The first `len` bytes of memory that may have other owners: all of them where there are no more.
#[derive(Drop)]
pub struct Prefix {
    pub bytes: Arc<Vec<u8>, Global>,
    pub len: usize,
}

impl Model for Bytes {
    ghost use Rattle.std.specs.Prelude.{ℕ, List};
    ghost use Rattle.faust_types.specs.Held.{bytes_of};

    ghost Value = { List ℕ };

    ghost view = { λ b. bytes_of b.held };
}

/// A list of numbers.
impl fmt::Debug for Bytes {
    fn fmt<W: fmt::Write>(&self, f: &mut fmt::Formatter<W>) -> fmt::Result {
        f.debug_list().entries(self.as_slice()).finish()
    }
}

impl Prefix {
    ghost use Rattle.faust_types.specs.Held.{prefix_of};

    fn as_slice(&self) -> &[u8]
        ensures { result.now ≡ prefix_of self.now }
    {
        match self.bytes.get(..self.len) {
            Some(front) => front,
            None => self.bytes.as_slice(),
        }
    }

    fn copy(&self) -> Result<Prefix, OutOfMemory>
        ensures { IfOk result (λ copy. prefix_of copy ≡ prefix_of self.now) }
    {
        Ok(Prefix {
            bytes: Arc::try_clone(&self.bytes)?,
            len: self.len,
        })
    }
}

impl Bytes {
    /// No bytes. It takes no memory.
    pub fn new(alloc: Global) -> Bytes
        ensures { result ≡ [] }
    {
        Bytes::from_vec(Vec::new(alloc))
    }

    /// The same bytes, without a copy.
    pub fn from_vec(bytes: Vec<u8>) -> Bytes
        ensures { result ≡ bytes.items }
    {
        Bytes {
            held: Held::Own(bytes),
        }
    }

    /// The same bytes, whose memory others own as well.
    pub fn from_shared(bytes: Arc<Vec<u8>, Global>) -> Bytes
        ensures { result ≡ (arc_value bytes).items }
    {
        let len = bytes.len();
        Bytes {
            held: Held::Shared(Prefix { bytes, len }),
        }
    }

    /// The bytes of a slice.
    pub fn from_slice(alloc: Global, bytes: &[u8]) -> Result<Bytes, OutOfMemory>
        ensures { IfOk result (λ list. list ≡ bytes.now) }
    {
        Ok(Bytes::from_vec(Vec::from_slice(alloc, bytes)?))
    }

    /// The same bytes in memory that copies of them share. Where there is no memory for the owners' count, copies share
    /// nothing.
    pub fn shared(self) -> Bytes
        ensures { result ≡ self }
    {
        match self.held {
            Held::Shared(prefix) => Bytes {
                held: Held::Shared(prefix),
            },
            Held::Own(bytes) => {
                let alloc = *bytes.allocator();
                match Arc::new(alloc, bytes) {
                    Ok(bytes) => Bytes::from_shared(bytes),
                    Err(failed) => Bytes::from_vec(failed.value),
                }
            }
        }
    }

    /// The same bytes as a `Vec`. Shared bytes are copied.
    pub fn into_vec(self) -> Result<Vec<u8>, OutOfMemory>
        ensures { IfOk result (λ list. list.items ≡ self) }
    {
        match self.held {
            Held::Own(bytes) => Ok(bytes),
            Held::Shared(prefix) => {
                let alloc = *prefix.bytes.allocator();
                Ok(Vec::from_slice(alloc, prefix.as_slice())?)
            }
        }
    }

    /// The allocator that the bytes keep.
    pub fn allocator(&self) -> Global {
        match &self.held {
            Held::Own(bytes) => *bytes.allocator(),
            Held::Shared(prefix) => *prefix.bytes.allocator(),
        }
    }

    /// The bytes in order.
    pub fn as_slice(&self) -> &[u8]
        ensures { result.now ≡ self.now }
    {
        match &self.held {
            Held::Own(bytes) => bytes.as_slice(),
            Held::Shared(prefix) => prefix.as_slice(),
        }
    }

    /// How many bytes there are.
    pub fn len(&self) -> usize
        ensures { result ≡ length self.now }
    {
        self.as_slice().len()
    }

    /// Whether there is no byte.
    pub fn is_empty(&self) -> bool
        ensures { IsTrue result ↔ (self.now ≡ []) }
    {
        self.as_slice().is_empty()
    }

    /// Makes room for `additional` more bytes at once, so that the bytes aren't copied while these are added.
    pub fn reserve(&mut self, additional: usize) -> Result<(), OutOfMemory>
        ensures { self.new ≡ self.old }
    {
        match &mut self.held {
            Held::Own(bytes) => {
                bytes.reserve(additional)?;
                Ok(())
            }
            Held::Shared(_) => Ok(()),
        }
    }

    /// Puts a byte at the end.
    pub fn push(&mut self, byte: u8) -> Result<(), OutOfMemory>
        ensures ok { OnOk result (self.new ≡ self.old ++ byte ∷ []) }
        ensures err { OnErr result (self.new ≡ self.old) }
    {
        match &mut self.held {
            Held::Own(bytes) => {
                bytes.push(byte)?;
                Ok(())
            }
            Held::Shared(_) => self.append(&[byte]),
        }
    }

    /// Puts the bytes of a slice at the end.
    pub fn append(&mut self, more: &[u8]) -> Result<(), OutOfMemory>
        ensures ok { OnOk result (self.new ≡ self.old ++ more.now) }
        ensures err { OnErr result (self.new ≡ self.old) }
    {
        match &mut self.held {
            Held::Own(bytes) => {
                bytes.extend_from_slice(more)?;
                Ok(())
            }
            Held::Shared(prefix) => {
                let mut bytes = Vec::from_slice(*prefix.bytes.allocator(), prefix.as_slice())?;
                bytes.extend_from_slice(more)?;
                self.held = Held::Own(bytes);
                Ok(())
            }
        }
    }

    /// Keeps the first `len` bytes: all of them where there are no more.
    pub fn truncate(&mut self, len: usize)
        ensures { self.new ≡ take len self.old }
    {
        match &mut self.held {
            Held::Own(bytes) => bytes.truncate(len),
            Held::Shared(prefix) => prefix.len = prefix.len.min(len),
        }
    }

    /// Equal bytes: one more owner of shared ones, and memory of their own for others.
    pub fn copy(&self) -> Result<Bytes, OutOfMemory>
        ensures { IfOk result (λ copy. copy ≡ self.now) }
    {
        match &self.held {
            Held::Own(bytes) => Bytes::from_slice(*bytes.allocator(), bytes),
            Held::Shared(prefix) => Ok(Bytes {
                held: Held::Shared(prefix.copy()?),
            }),
        }
    }
}
