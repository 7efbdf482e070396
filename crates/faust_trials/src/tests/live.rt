ghost use Rattle.std.specs.Prelude.{◌≡◌, IfOk};
ghost use Rattle.faust_types.specs.Ranges.{IsConfig};
ghost use Rattle.faust_ticket.specs.Holders.{first_seat};

use super::config;
use faust_host::{Gate, Host, Service};
use faust_link::{LinkError, MemIn, MemNet, MemOut, Net};
use faust_node::{Node, NodeError, Session};
use faust_ticket::{Blank, Counter, Root, Seat, start};
use faust_types::{Closing, Config, OutOfMemory};
use std::alloc::Global;
use std::marker::Brand;
use std::sync::Wait;
use std::sync::atomic::AtomicBool;
use std::sync::atomic::Ordering::SeqCst;
use std::test::Fail;
use std::thread;
use std::thread::Threads;

/// How often the gate looks before it gives up.
const TURNS: u32 = 1_000_000;

/// A gate that holds the replies to client 1 until client 2 has completed an operation, or until it gives up.
#[derive(Drop)]
struct HeldGate {
    is_open: AtomicBool,
    gave_up: AtomicBool,
}

impl HeldGate {
    fn open(&self) {
        self.is_open.store(true, SeqCst);
    }
}

impl Gate for HeldGate {
    fn pass(&self, client: u8) {
        if client != 1 {
            return;
        }
        for _ in 0..TURNS {
            if self.is_open.load(SeqCst) {
                return;
            }
            thread::yield_now();
        }
        self.gave_up.store(true, SeqCst);
    }
}

/// The ends of a client's stream at both sides.
#[derive(Drop)]
struct Line<R> {
    client_in: MemIn<R>,
    client_out: MemOut<R>,
    server_in: MemIn<R>,
    server_out: MemOut<R>,
}

fn line_of<R: Wait + Copy + Send>(net: &mut MemNet<R>, client: u8) -> Result<Line<R>, LinkError> {
    let (client_in, client_out) = net.connect(client)?;
    let (server_in, server_out) = net.accept()?;
    Ok(Line {
        client_in,
        client_out,
        server_in,
        server_out,
    })
}

/// What became of a client: the number of its completion, and why its loops and its connection's stopped.
#[derive(Debug, Drop)]
struct Told {
    number: Result<u64, NodeError>,
    replies: Closing,
    outbox: Closing,
    served: Closing,
}

/// A user writes, opens the gate where it is that of client 2, and closes the node.
fn written<T: Session, R: Wait>(
    rt: &R,
    node: &Node<T>,
    gate: &HeldGate,
    client: u8,
) -> Result<u64, NodeError> {
    let receipt = node.write(rt, &[client]);
    if client == 2 {
        gate.open();
    }
    node.close(rt);
    Ok(receipt?.number)
}

/// Runs a client and its connection, in threads.
fn told_of<T: Session + Service + Send + Sync, R: Threads + Wait + Sync + Copy + Send>(
    rt: R,
    node: &Node<T>,
    host: &Host<T>,
    gate: &HeldGate,
    client: u8,
    line: Line<R>,
) -> Told {
    let Line {
        client_in,
        client_out,
        server_in,
        server_out,
    } = line;
    let ((number, replies), (outbox, served)) = thread::join(
        &rt,
        move || {
            let mut input = client_in;
            thread::join(
                &rt,
                move || written(&rt, node, gate, client),
                move || node.serve_replies(&rt, &mut input),
            )
        },
        move || {
            let (mut output, mut input, mut reply) = (client_out, server_in, server_out);
            thread::join(
                &rt,
                move || node.serve_outbox(&rt, &mut output),
                move || host.serve(&rt, &mut input, &mut reply, gate),
            )
        },
    );
    Told {
        number,
        replies,
        outbox,
        served,
    }
}

/// The root of the numbers, and those that hold its seats: the nodes of two clients, and a host for them.
#[derive(Drop)]
struct Cast<T: Session + Service> {
    root: Root<T>,
    one: Node<T>,
    two: Node<T>,
    host: Host<T>,
}

fn seats_of<T: Counter>(blank: Blank) -> Result<(Root<T>, Seat<T>, Seat<T>, Seat<T>), OutOfMemory>
    requires { blank ≡ T.counter }
    ensures one { IfOk result (λ seats. seats.1 ≡ first_seat) }
    ensures two { IfOk result (λ seats. seats.2 ≡ first_seat) }
    ensures host { IfOk result (λ seats. seats.3 ≡ first_seat) }
{
    let mut root = blank.open::<T>();
    let one = root.split()?;
    let two = root.split()?;
    let host = root.split()?;
    Ok((root, one, two, host))
}

fn cast_of<T: Session + Service>(
    alloc: Global,
    blank: Blank,
    config: &Config,
) -> Result<Cast<T>, OutOfMemory>
    requires counter { blank ≡ T.counter }
    requires config { (T.config ≡ config.now) × IsConfig config.now × (config.now.clients ≡ 2) }
    requires clients { T.clients ≡ 2 }
{
    let (root, one, two, host) = seats_of::<T>(blank)?;
    Ok(Cast {
        root,
        one: Node::new(alloc, config, 1, one)?,
        two: Node::new(alloc, config, 2, two)?,
        host: Host::new(alloc, 2, host)?,
    })
}

/// The lines of two clients.
fn lines_of<R: Wait + Copy + Send>(rt: R, alloc: Global) -> Result<(Line<R>, Line<R>), LinkError> {
    let mut net = MemNet::new(rt, alloc, 2, &[], &[])?;
    let first = line_of(&mut net, 1)?;
    let second = line_of(&mut net, 2)?;
    Ok((first, second))
}

/// Runs both clients and their connections, in threads.
fn both_told<T: Session + Service + Send + Sync, R: Threads + Wait + Sync + Copy + Send>(
    rt: R,
    nodes: (&Node<T>, &Node<T>),
    host: &Host<T>,
    gate: &HeldGate,
    lines: (Line<R>, Line<R>),
) -> (Told, Told) {
    let (one, two) = nodes;
    let (first, second) = lines;
    thread::join(
        &rt,
        move || told_of(rt, one, host, gate, 1, first),
        move || told_of(rt, two, host, gate, 2, second),
    )
}

/// How many entries each journal has, and how many messages arrived, once all seats came back.
fn counts_of<T: Session + Service>(cast: Cast<T>) -> (u64, u64, usize) {
    let Cast {
        mut root,
        one,
        two,
        host,
    } = cast;
    let (first, seat, _) = one.into_parts();
    root.join(seat);
    let (second, seat, _) = two.into_parts();
    root.join(seat);
    let (arrivals, seat) = host.into_parts();
    root.join(seat);
    (first.len(), second.len(), arrivals.len())
}

/// What became of both clients of a run, and its counts.
#[derive(Debug, Drop)]
struct Ended {
    told: (Told, Told),
    counts: (u64, u64, usize),
}

fn run<T: Session + Service + Send + Sync, R: Threads + Wait + Sync + Copy + Send>(
    rt: R,
    alloc: Global,
    blank: Blank,
    config: &Config,
    gate: &HeldGate,
) -> Result<Ended, LinkError>
    requires counter { blank ≡ T.counter }
    requires config { (T.config ≡ config.now) × IsConfig config.now × (config.now.clients ≡ 2) }
    requires clients { T.clients ≡ 2 }
{
    let lines = lines_of(rt, alloc)?;
    let cast = cast_of::<T>(alloc, blank, config)?;
    let told = both_told(rt, (&cast.one, &cast.two), &cast.host, gate, lines);
    Ok(Ended {
        told,
        counts: counts_of(cast),
    })
}

#[test]
fn a_client_completes_while_the_reply_to_another_is_held(rt: HostRuntime) -> Result<(), Fail> {
    let alloc = rt.alloc();
    let config = config(alloc, 2)?;
    let gate = HeldGate {
        is_open: AtomicBool::new(false),
        gave_up: AtomicBool::new(false),
    };
    let ended = run::<Brand, _>(&rt, alloc, start(alloc)?, &config, &gate)?;
    let (first, second) = ended.told;
    assert!(rt; matches!((first.number, second.number), (Ok(late), Ok(early)) if early < late));
    assert!(rt; !gate.gave_up.load(SeqCst));
    for told in [first, second] {
        assert_eq!(rt;
            (told.replies, told.outbox, told.served),
            (Closing::Ended, Closing::Asked, Closing::Ended)
        );
    }
    assert_eq!(rt; ended.counts, (2, 2, 4));
    Ok(())
}
