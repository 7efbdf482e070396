ghost use Rattle.std.specs.Prelude.{◌≡◌, ◌≤◌, ◌<◌, length, vec_len, None, Ok, IfOk, true};
ghost use Rattle.faust_io.specs.Faults.{Counts};

use faust_io::Failed;
use faust_link::{Got, LinkError, PostIn, PostOut};
use faust_types::{Bytes, MAX_MESSAGE_LEN, OutOfMemory};
use std::alloc::Global;
use std::io::ErrorKind;
use std::net::{SocketAddr, UdpSocket};

/// Where the datagrams of a client come in: a UDP socket, at which a look waits for a while. It tells nothing of them.
/// Where there was no memory for a datagram, it waits for the next call.
#[derive(Debug, Drop)]
pub struct LoopPostIn {
    socket: UdpSocket,
    buffer: Vec<u8>,
    held: usize,
    faults: u64,
    ghost in_range: { (vec_len buffer ≡ 16385) × (held ≤ 16384) },
}

/// Where the datagrams of a client go out, to the sockets of all clients.
#[derive(Debug, Drop)]
pub struct LoopPostOut {
    socket: UdpSocket,
    addresses: Vec<SocketAddr>,
    faults: u64,
}

impl LoopPostIn {
    /// The datagrams of this socket.
    pub(crate) fn new(alloc: Global, socket: UdpSocket) -> Result<LoopPostIn, OutOfMemory>
        ensures { IfOk result (λ post. ⟦<LoopPostIn as PostIn>⟧.faults post ≡ 0) }
    {
        // A longer datagram is seen to be longer.
        let buffer = Vec::from_elem(alloc, 0, MAX_MESSAGE_LEN + 1)?;
        Ok(LoopPostIn {
            socket,
            buffer,
            held: 0,
            faults: 0,
        })
    }

    /// How many calls failed.
    pub fn faults(&self) -> u64
        ensures { result ≡ ⟦<LoopPostIn as PostIn>⟧.faults self.now }
    {
        self.faults
    }

    /// Reads a datagram into the buffer, unless one waits there. It answers whether one does.
    fn hold_datagram(&mut self) -> Result<bool, Failed>
        ensures faults { Counts result self.old.faults self.new.faults }
        ensures held { result ≡ Ok true → 0 < self.new.held }
    {
        if self.held == 0 {
            match next_datagram(&self.socket, self.buffer.as_mut_slice()) {
                Ok(len) => self.held = len,
                Err(Failed) => {
                    self.faults = self.faults.saturating_add(1);
                    return Err(Failed);
                }
            }
        }
        Ok(self.held > 0)
    }
}

impl PostIn for LoopPostIn {
    ghost standing = { λ _. None };

    ghost faults = { λ post. post.faults };

    fn take(&mut self, into: &mut Bytes) -> Result<Got, LinkError> {
        match self.hold_datagram() {
            Ok(true) => {}
            Ok(false) => return Ok(Got::Idle),
            Err(Failed) => return Err(LinkError::Failed),
        }
        *into = Bytes::from_slice(into.allocator(), &self.buffer[..self.held])?;
        self.held = 0;
        Ok(Got::Frame)
    }
}

/// How many bytes the next datagram has, which then stands in the buffer: 0 where none stood there. One of another length
/// than 1 to 16,384 bytes is passed over.
fn next_datagram(socket: &UdpSocket, buffer: &mut [u8]) -> Result<usize, Failed>
    ensures { IfOk result (λ len. len ≤ 16384) }
{
    for _ in 0..u64::MAX {
        match receive(socket, buffer) {
            Ok(len) => {
                if 0 < len && len <= MAX_MESSAGE_LEN {
                    return Ok(len);
                }
            }
            Err(ErrorKind::WouldBlock | ErrorKind::TimedOut) => return Ok(0),
            Err(ErrorKind::Interrupted) => {}
            Err(_) => return Err(Failed),
        }
    }
    Err(Failed)
}

/// One read of a socket: how many bytes of the buffer it filled.
fn receive(socket: &UdpSocket, buffer: &mut [u8]) -> Result<usize, ErrorKind>
    ensures { IfOk result (λ len. len ≤ length buffer.new) }
{
    match socket.recv_from(buffer) {
        Ok((len, _)) => Ok(len),
        Err(error) => Err(error.kind()),
    }
}

impl LoopPostOut {
    /// The way from this socket to those at the addresses, that of client i at place i.
    pub(crate) fn new(socket: UdpSocket, addresses: Vec<SocketAddr>) -> LoopPostOut
        ensures { ⟦<LoopPostOut as PostOut>⟧.faults result ≡ 0 }
    {
        LoopPostOut {
            socket,
            addresses,
            faults: 0,
        }
    }

    /// How many calls failed.
    pub fn faults(&self) -> u64
        ensures { result ≡ ⟦<LoopPostOut as PostOut>⟧.faults self.now }
    {
        self.faults
    }
}

impl PostOut for LoopPostOut {
    ghost faults = { λ post. post.faults };

    fn give(&mut self, to: u8, bytes: &[u8]) -> Result<(), LinkError> {
        let to = usize::from(to);
        if to == 0 || to > self.addresses.len() {
            // Nobody is there, so it is lost.
            return Ok(());
        }
        match send(&self.socket, bytes, self.addresses[to - 1]) {
            Ok(()) => Ok(()),
            Err(Failed) => {
                self.faults = self.faults.saturating_add(1);
                Err(LinkError::Failed)
            }
        }
    }
}

/// Sends one datagram, begun again where a signal interrupts it.
fn send(socket: &UdpSocket, bytes: &[u8], to: SocketAddr) -> Result<(), Failed> {
    for _ in 0..u64::MAX {
        match socket.send_to(bytes, to) {
            Ok(_) => return Ok(()),
            Err(error) => {
                if error.kind() != ErrorKind::Interrupted {
                    return Err(Failed);
                }
            }
        }
    }
    Err(Failed)
}
