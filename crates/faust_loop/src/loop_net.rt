ghost use Rattle.std.specs.Prelude.{◌≡◌, IfOk};
ghost use Rattle.faust_link.specs.Counts.{CountsBack, CountsError};

use crate::loop_in::LoopIn;
use crate::loop_out::LoopOut;
use crate::loop_post::{LoopPostIn, LoopPostOut};
use faust_io::StdSource;
use faust_link::{FrameIn, FrameOut, FrameReader, LinkError, Net, PostIn, PostOut};
use std::alloc::Global;
use std::io::BufReader;
use std::net::{Ipv4Addr, SocketAddr, SocketAddrV4, TcpListener, TcpStream, UdpSocket};
use std::time::Duration;
use std::{io, net};

/// How many milliseconds a look for a datagram waits.
const LOOK: u64 = 5;

/// What a net listens with: the socket to which clients connect, and a socket for each client's post.
#[derive(Debug, Drop)]
struct Sockets {
    listener: TcpListener,
    address: SocketAddr,
    posts: Vec<UdpSocket>,
    addresses: Vec<SocketAddr>,
}

/// A net over sockets on loopback, at ports that the system chooses.
#[derive(Drop)]
pub struct LoopNet<R> {
    rt: R,
    alloc: Global,
    sockets: Option<Sockets>,
    faults: u64,
}

impl<R> LoopNet<R> {
    /// A net that doesn't listen yet.
    pub fn new(rt: R, alloc: Global) -> LoopNet<R>
        ensures { result.faults ≡ 0 }
    {
        LoopNet {
            rt,
            alloc,
            sockets: None,
            faults: 0,
        }
    }

    /// How many calls failed, and how many links and posts came back with a count.
    pub fn faults(&self) -> u64
        ensures { result ≡ self.now.faults }
    {
        self.faults
    }

    /// Counts a call that failed, unless there was no memory.
    fn fail(&mut self, error: io::Error) -> LinkError
        ensures { CountsError result self.old.faults self.new.faults }
    {
        if error.kind() == io::ErrorKind::OutOfMemory {
            return LinkError::OutOfMemory;
        }
        self.faults = self.faults.saturating_add(1);
        LinkError::Failed
    }

    /// Raises the count where that of a link isn't 0.
    fn take_back(&mut self, faults: u64)
        ensures { CountsBack faults self.old.faults self.new.faults }
    {
        if faults != 0 {
            self.faults = self.faults.saturating_add(1);
        }
    }
}

fn loopback() -> SocketAddr {
    SocketAddr::V4(SocketAddrV4::new(Ipv4Addr::LOCALHOST, 0))
}

fn not_listening() -> io::Error {
    io::Error::from(io::ErrorKind::NotConnected)
}

/// Opens the sockets for n clients.
fn open<R: net::Net<Listener = TcpListener, Stream = TcpStream>>(
    rt: &R,
    alloc: Global,
    n: u8,
) -> io::Result<Sockets> {
    let listener = rt.bind(loopback())?;
    let address = listener.local_addr()?;
    let mut posts = Vec::new(alloc);
    let mut addresses = Vec::new(alloc);
    for _ in 0..n {
        let socket = rt.bind_udp(loopback())?;
        socket.set_read_timeout(Some(Duration::from_millis(LOOK)))?;
        addresses.push(socket.local_addr()?)?;
        posts.push(socket)?;
    }
    Ok(Sockets {
        listener,
        address,
        posts,
        addresses,
    })
}

/// Both ends of a stream that one side has.
fn ends(alloc: Global, stream: TcpStream) -> io::Result<(LoopIn, LoopOut)>
    ensures in_fresh { IfOk result (λ ends. ⟦<LoopIn as FrameIn>⟧.faults ends.0 ≡ 0) }
    ensures out_fresh { IfOk result (λ ends. ⟦<LoopOut as FrameOut>⟧.faults ends.1 ≡ 0) }
{
    stream.set_nodelay(true)?;
    let reader = BufReader::new(alloc, stream.try_clone()?)?;
    let input = match FrameReader::new(alloc, StdSource::new(reader)) {
        Ok(input) => input,
        Err(_) => return Err(io::Error::from(io::ErrorKind::OutOfMemory)),
    };
    Ok((input, LoopOut::new(alloc, stream)))
}

fn connect<R: net::Net<Listener = TcpListener, Stream = TcpStream>>(
    rt: &R,
    alloc: Global,
    sockets: &Option<Sockets>,
) -> io::Result<(LoopIn, LoopOut)>
    ensures in_fresh { IfOk result (λ ends. ⟦<LoopIn as FrameIn>⟧.faults ends.0 ≡ 0) }
    ensures out_fresh { IfOk result (λ ends. ⟦<LoopOut as FrameOut>⟧.faults ends.1 ≡ 0) }
{
    match sockets {
        Some(sockets) => ends(alloc, rt.connect(sockets.address)?),
        None => Err(not_listening()),
    }
}

fn accept(alloc: Global, sockets: &Option<Sockets>) -> io::Result<(LoopIn, LoopOut)>
    ensures in_fresh { IfOk result (λ ends. ⟦<LoopIn as FrameIn>⟧.faults ends.0 ≡ 0) }
    ensures out_fresh { IfOk result (λ ends. ⟦<LoopOut as FrameOut>⟧.faults ends.1 ≡ 0) }
{
    match sockets {
        Some(sockets) => {
            let (stream, _) = sockets.listener.accept()?;
            ends(alloc, stream)
        }
        None => Err(not_listening()),
    }
}

fn post(alloc: Global, sockets: &Option<Sockets>, i: u8) -> io::Result<(LoopPostIn, LoopPostOut)>
    ensures in_fresh { IfOk result (λ ends. ⟦<LoopPostIn as PostIn>⟧.faults ends.0 ≡ 0) }
    ensures out_fresh { IfOk result (λ ends. ⟦<LoopPostOut as PostOut>⟧.faults ends.1 ≡ 0) }
{
    let Some(sockets) = sockets else {
        return Err(not_listening());
    };
    let place = usize::from(i);
    if place == 0 || place > sockets.posts.len() {
        return Err(not_listening());
    }
    let socket = &sockets.posts[place - 1];
    let input = match LoopPostIn::new(alloc, socket.try_clone()?) {
        Ok(input) => input,
        Err(_) => return Err(io::Error::from(io::ErrorKind::OutOfMemory)),
    };
    let addresses = Vec::from_slice(alloc, sockets.addresses.as_slice())?;
    Ok((input, LoopPostOut::new(socket.try_clone()?, addresses)))
}

impl<R: net::Net<Listener = TcpListener, Stream = TcpStream>> Net for LoopNet<R> {
    type In = LoopIn;

    type Out = LoopOut;

    type Pin = LoopPostIn;

    type Pout = LoopPostOut;

    ghost faults = { λ net. net.faults };

    fn listen(&mut self, n: u8) -> Result<(), LinkError> {
        match open(&self.rt, self.alloc, n) {
            Ok(sockets) => {
                self.sockets = Some(sockets);
                Ok(())
            }
            Err(error) => Err(self.fail(error)),
        }
    }

    fn connect(&mut self, _i: u8) -> Result<(LoopIn, LoopOut), LinkError> {
        match connect(&self.rt, self.alloc, &self.sockets) {
            Ok(ends) => Ok(ends),
            Err(error) => Err(self.fail(error)),
        }
    }

    fn accept(&mut self) -> Result<(LoopIn, LoopOut), LinkError> {
        match accept(self.alloc, &self.sockets) {
            Ok(ends) => Ok(ends),
            Err(error) => Err(self.fail(error)),
        }
    }

    fn post(&mut self, i: u8) -> Result<(LoopPostIn, LoopPostOut), LinkError> {
        match post(self.alloc, &self.sockets, i) {
            Ok(ends) => Ok(ends),
            Err(error) => Err(self.fail(error)),
        }
    }

    fn back_in(&mut self, link: LoopIn) {
        self.take_back(link.faults());
    }

    fn back_out(&mut self, link: LoopOut) {
        self.take_back(link.faults());
    }

    fn back_pin(&mut self, post: LoopPostIn) {
        self.take_back(post.faults());
    }

    fn back_pout(&mut self, post: LoopPostOut) {
        self.take_back(post.faults());
    }
}
