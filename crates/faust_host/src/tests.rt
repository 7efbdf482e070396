ghost use Rattle.std.specs.Prelude.{◌≡◌};
ghost use Rattle.faust_ticket.specs.Holders.{first_root};

use crate::{Gate, Host, HostCell, NoGate, Service};
use faust_io::{MemSink, SureSource};
use faust_link::{FrameOut, FrameReader, FrameWriter, LinkError};
use faust_ticket::{Blank, Counter, start};
use faust_types::{Bytes, Closing, OutOfMemory};
use std::alloc::Global;
use std::marker::Brand;
use std::process::Abort;
use std::sync::{Condvar, Mutex, Wait};
use std::test::Fail;
use std::thread;
use std::thread::Threads;

/// The streams that carry the HELLO of a client alone.
const NAMES_1: &[u8] = &[0, 0, 0, 3, 1, 7, 1];

const NAMES_2: &[u8] = &[0, 0, 0, 3, 1, 7, 2];

/// The reply to the first SUBMIT of all, a write, for two clients.
const REPLY: &[u8] = &[1, 2, 1, 0, 0, 0, 0, 0];

/// The SUBMIT of a client's first write, of the value "a", under tags of zero bytes.
fn first_write(client: u8) -> [u8; 79] {
    let mut bytes = [0; 79];
    bytes[0] = 1;
    bytes[1] = 1;
    bytes[2] = 1;
    bytes[3] = client;
    bytes[11] = 1;
    bytes[77] = 1;
    bytes[78] = b'a';
    bytes
}

fn cell_refuses_by_cause<T: Counter>(
    rt: &(impl Abort + AllocGlobal),
    blank: Blank,
) -> Result<(), Fail>
    requires { blank ≡ T.counter }
{
    let mut root = blank.open::<T>();
    let mut cell = HostCell::new(rt.alloc(), 2, root.split()?)?;
    assert_eq!(rt; cell.name(1), Ok(()));
    assert_eq!(rt; cell.name(1), Err(Closing::Named(1)));

    let submit = first_write(1);
    match cell.handle(1, &submit) {
        Ok(Some(reply)) => assert_eq!(rt; reply.as_slice(), REPLY),
        _ => assert!(rt; false),
    }
    let late = cell.handle(1, &submit);
    assert!(rt;
        matches!(
            late,
            Err(Closing::Turn {
                expected: 1,
                got: 1
            })
        )
    );
    let hello = cell.handle(1, &[1, 7, 1]);
    assert!(rt; matches!(hello, Err(Closing::Malformed)));

    let (arrivals, seat) = cell.into_parts();
    assert_eq!(rt; arrivals.len(), 1);
    root.join(seat);
    Ok(())
}

#[test]
fn a_cell_refuses_by_cause(rt: HostRuntime) -> Result<(), Fail> {
    let blank = start(rt.alloc())?;
    cell_refuses_by_cause::<Brand>(&rt, blank)
}

/// The bytes of a stream that carries the first write of a client behind these.
fn with_first_write(alloc: Global, front: &[u8], client: u8) -> Result<Bytes, OutOfMemory> {
    let mut bytes = Bytes::from_slice(alloc, front)?;
    bytes.append(&[0, 0, 0, 79])?;
    bytes.append(&first_write(client))?;
    Ok(bytes)
}

/// A connection that was served: what stopped it, how many bytes were sent, and whether more can be.
#[derive(Debug, Drop)]
struct Connection {
    closing: Closing,
    sent: usize,
    is_closed: bool,
}

/// Serves a connection that carries these bytes.
fn served<T: Service, R: Wait + AllocGlobal, G: Gate>(
    rt: &R,
    host: &Host<T>,
    gate: &G,
    stream: &[u8],
) -> Result<Connection, OutOfMemory> {
    let mut input = FrameReader::new(rt.alloc(), SureSource::new(rt.alloc(), stream)?)?;
    let mut output = FrameWriter::new(MemSink::new(rt.alloc(), 1_000, 1_000, &[])?);
    let closing = host.serve(rt, &mut input, &mut output, gate);
    Ok(Connection {
        closing,
        sent: output.sink().bytes().len(),
        is_closed: output.send(&[1]) == Err(LinkError::Failed),
    })
}

fn host_stops_by_cause<T: Service, R: Wait + Abort + AllocGlobal>(
    rt: &R,
    blank: Blank,
) -> Result<(), Fail>
    requires { (blank ≡ T.counter) × (T.clients ≡ 2) }
{
    let mut root = blank.open::<T>();
    let host = Host::new(rt.alloc(), 2, root.split()?)?;
    let whole = with_first_write(rt.alloc(), NAMES_1, 1)?;
    let unnamed = with_first_write(rt.alloc(), &[], 1)?;
    let cut = &[0, 0, 0, 3, 1, 7, 2, 0, 0, 0, 9, 1];
    let cases: [(&[u8], Closing, usize); 4] = [
        (whole.as_slice(), Closing::Ended, 12),
        (whole.as_slice(), Closing::Named(1), 0),
        (unnamed.as_slice(), Closing::Malformed, 0),
        (cut, Closing::Link, 0),
    ];
    for (stream, cause, len) in cases {
        let served = served(rt, &host, &NoGate, stream)?;
        assert_eq!(rt; (served.closing, served.sent), (cause, len));
        assert!(rt; served.is_closed);
    }
    let (arrivals, seat) = host.into_parts();
    assert_eq!(rt; arrivals.len(), 1);
    root.join(seat);
    Ok(())
}

#[test]
fn a_host_stops_by_cause(rt: HostRuntime) -> Result<(), Fail> {
    let blank = start(rt.alloc())?;
    host_stops_by_cause::<Brand, HostRuntime>(&rt, blank)
}

/// A gate that holds the replies to client 1 up until one to another client passes.
#[derive(Drop)]
struct HeldGate<R> {
    rt: R,
    is_open: Mutex<bool>,
    changed: Condvar,
}

impl<R: Wait + Sync> Gate for HeldGate<R> {
    fn pass(&self, client: u8) {
        if client == 1 {
            let _open = self
                .changed
                .wait_while(&self.rt, self.is_open.lock(&self.rt), |is_open| !*is_open);
        } else {
            *self.is_open.lock(&self.rt) = true;
            self.changed.notify_all();
        }
    }
}

fn held_reply<T: Service + Send + Sync, R: Threads + Wait + Abort + AllocGlobal + Sync, G: Gate>(
    rt: &R,
    blank: Blank,
    gate: &G,
) -> Result<(), Fail>
    requires { (blank ≡ T.counter) × (T.clients ≡ 2) }
{
    let mut root = blank.open::<T>();
    let host = Host::new(rt.alloc(), 2, root.split()?)?;
    let first = with_first_write(rt.alloc(), NAMES_1, 1)?;
    let second = with_first_write(rt.alloc(), NAMES_2, 2)?;
    let (first, second) = thread::join(
        rt,
        || served(rt, &host, gate, first.as_slice()),
        || served(rt, &host, gate, second.as_slice()),
    );
    let (first, second) = (first?, second?);
    assert_eq!(rt;
        (first.closing, second.closing),
        (Closing::Ended, Closing::Ended)
    );
    assert_eq!(rt; first.sent.wrapping_add(second.sent), 12 + 47);
    let (arrivals, seat) = host.into_parts();
    assert_eq!(rt; arrivals.len(), 2);
    root.join(seat);
    Ok(())
}

#[test]
fn a_client_works_while_the_reply_to_another_is_held(rt: HostRuntime) -> Result<(), Fail> {
    let blank = start(rt.alloc())?;
    let gate = HeldGate {
        rt,
        is_open: Mutex::new(false),
        changed: Condvar::new(),
    };
    held_reply::<Brand, HostRuntime, HeldGate<HostRuntime>>(&rt, blank, &gate)
}
