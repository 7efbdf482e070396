ghost use Rattle.std.specs.Prelude.{◌≡◌, IfOk};
ghost use Rattle.faust_types.specs.Ranges.{IsConfig};

use crate::{Node, NodeCell, NodeError, Session};
use faust_link::{FrameIn, FrameOut, Got, MemNet, Net};
use faust_record::{Input, StepError};
use faust_ticket::{Blank, start};
use faust_types::{Bytes, Closing, Config, Notice, OutOfMemory};
use std::alloc::Global;
use std::marker::Brand;
use std::sync::Wait;
use std::test::Fail;
use std::thread;
use std::thread::Threads;

// What an honest server answers to the first operation of all.
const FIRST_REPLY: [u8; 8] = [1, 2, 1, 0, 0, 0, 0, 0];

const NO_REPLY: Notice = Notice { check: 1, place: 0 };

fn config(alloc: Global) -> Result<Config, OutOfMemory>
    ensures config { IfOk result IsConfig }
    ensures two { IfOk result (λ config. config.clients ≡ 2) }
{
    Ok(Config {
        clients: 2,
        key: Bytes::from_slice(alloc, &[7])?,
        delta: 1000,
        dummy: 1_000_000,
        wire: 1,
    })
}

/// What a cell of client 1 answers in turn to a write, a read and a reply that is none, why it begins nothing before and
/// after the last, and how many entries it has then.
#[derive(Debug, Drop)]
struct Answers {
    wrote: Result<(), StepError>,
    read: Result<(), StepError>,
    before: Option<NodeError>,
    replied: Result<(), StepError>,
    after: Option<NodeError>,
    entries: u64,
}

fn answers_of<T: Session>(
    alloc: Global,
    blank: Blank,
    config: &Config,
) -> Result<Answers, OutOfMemory>
    requires counter { blank ≡ T.counter }
    requires config { (T.config ≡ config.now) × IsConfig config.now × (config.now.clients ≡ 2) }
{
    let mut root = blank.open::<T>();
    let mut cell = NodeCell::new(alloc, config, 1, root.split()?)?;
    let wrote = cell.step(Input::Write(Bytes::from_slice(alloc, b"a")?));
    if wrote == Err(StepError::OutOfMemory) {
        return Err(OutOfMemory);
    }
    let read = cell.step(Input::Read(2));
    let before = cell.refusal();
    if read == Err(StepError::OutOfMemory) {
        return Err(OutOfMemory);
    }
    let replied = cell.step(Input::Reply(Bytes::from_slice(alloc, &[0])?));
    Ok(Answers {
        wrote,
        read,
        before,
        replied,
        after: cell.refusal(),
        entries: cell.journal().len(),
    })
}

#[test]
fn a_cell_names_each_refusal_and_keeps_its_entries(rt: HostRuntime) -> Result<(), Fail> {
    let alloc = rt.alloc();
    let config = config(alloc)?;
    let answers = answers_of::<Brand>(alloc, start(alloc)?, &config)?;
    assert_eq!(rt; answers.wrote, Ok(()));
    assert_eq!(rt; answers.read, Err(StepError::Busy));
    assert_eq!(rt; answers.before, None);
    assert_eq!(rt; answers.replied, Ok(()));
    assert_eq!(rt; answers.after, Some(NodeError::Failed(NO_REPLY)));
    assert_eq!(rt; answers.entries, 2);
    Ok(())
}

/// The server's side of a stream: it answers the first operation, and tells the second byte of each frame that came.
fn serve_one<I: FrameIn, O: FrameOut>(
    alloc: Global,
    input: &mut I,
    output: &mut O,
) -> Result<Bytes, OutOfMemory> {
    let mut kinds = Bytes::new(alloc);
    let mut frame = Bytes::new(alloc);
    for _ in 0..10 {
        if input.recv(&mut frame) != Ok(Got::Frame) {
            break;
        }
        let kind = frame.as_slice().get(1).copied().unwrap_or(0);
        kinds.push(kind)?;
        if kind == 1 && output.send(&FIRST_REPLY).is_err() {
            break;
        }
    }
    output.close();
    Ok(kinds)
}

/// What came of a write at client 1 that an honest server answers: the receipt's number, why the two loops stopped, the
/// kinds of the frames that the server got, why the node is closed, and how many entries it has.
#[derive(Debug, Drop)]
struct Lived {
    number: Result<u64, NodeError>,
    replies: Closing,
    outbox: Closing,
    kinds: Bytes,
    closed: Option<Closing>,
    entries: u64,
}

fn write_through<T: Session + Send + Sync, R: Threads + Wait + Sync + Copy + Send>(
    rt: R,
    alloc: Global,
    blank: Blank,
    config: &Config,
) -> Result<Option<Lived>, OutOfMemory>
    requires counter { blank ≡ T.counter }
    requires config { (T.config ≡ config.now) × IsConfig config.now × (config.now.clients ≡ 2) }
{
    let mut root = blank.open::<T>();
    let node = Node::new(alloc, config, 1, root.split()?)?;
    let mut net = MemNet::new(rt, alloc, 2, &[], &[])?;
    let Ok((client_in, client_out)) = net.connect(1) else {
        return Ok(None);
    };
    let Ok((server_in, server_out)) = net.accept() else {
        return Ok(None);
    };
    let shared = &node;
    let ((number, kinds), (replies, outbox)) = thread::join(
        &rt,
        move || {
            let (mut input, mut output) = (server_in, server_out);
            thread::join(
                &rt,
                move || written(&rt, shared),
                move || serve_one(alloc, &mut input, &mut output),
            )
        },
        move || {
            let (mut input, mut output) = (client_in, client_out);
            thread::join(
                &rt,
                move || shared.serve_replies(&rt, &mut input),
                move || shared.serve_outbox(&rt, &mut output),
            )
        },
    );
    let (journal, seat, closed) = node.into_parts();
    root.join(seat);
    Ok(Some(Lived {
        number,
        replies,
        outbox,
        kinds: kinds?,
        closed,
        entries: journal.len(),
    }))
}

/// A user writes, and closes the node.
fn written<T: Session, R: Wait>(rt: &R, node: &Node<T>) -> Result<u64, NodeError> {
    let receipt = node.write(rt, b"a");
    node.close(rt);
    Ok(receipt?.number)
}

#[test]
fn a_write_is_answered_with_the_number_of_its_completion(rt: HostRuntime) -> Result<(), Fail> {
    let alloc = rt.alloc();
    let config = config(alloc)?;
    let Some(lived) = write_through::<Brand, _>(&rt, alloc, start(alloc)?, &config)? else {
        panic!(rt; "the net failed");
    };
    assert_eq!(rt; lived.number, Ok(1));
    assert_eq!(rt; lived.kinds.as_slice(), [7, 1, 3].as_slice());
    assert_eq!(rt; lived.replies, Closing::Ended);
    assert_eq!(rt; lived.outbox, Closing::Asked);
    assert_eq!(rt; lived.closed, Some(Closing::Asked));
    assert_eq!(rt; lived.entries, 2);
    Ok(())
}

/// A user reads while another one closes the node, which nobody serves.
fn read_in_vain<T: Session + Send + Sync, R: Threads + Wait + Sync>(
    rt: &R,
    alloc: Global,
    blank: Blank,
    config: &Config,
) -> Result<Option<NodeError>, OutOfMemory>
    requires counter { blank ≡ T.counter }
    requires config { (T.config ≡ config.now) × IsConfig config.now × (config.now.clients ≡ 2) }
{
    let mut root = blank.open::<T>();
    let node = Node::new(alloc, config, 1, root.split()?)?;
    let shared = &node;
    let (read, ()) = thread::join(
        rt,
        move || shared.read(rt, 2).err(),
        move || shared.close(rt),
    );
    Ok(read)
}

#[test]
fn a_node_is_closed_while_a_user_waits(rt: HostRuntime) -> Result<(), Fail> {
    let alloc = rt.alloc();
    let config = config(alloc)?;
    let error = read_in_vain::<Brand, _>(&rt, alloc, start(alloc)?, &config)?;
    assert_eq!(rt; error, Some(NodeError::Closed(Closing::Asked)));
    Ok(())
}
