ghost use Rattle.faust_types.specs.Ranges.{IsWire};

use crate::Agent;
use faust_hash::value_digest;
use faust_types::{Bytes, Config, Cut, MAX_VALUE_LEN, OutOfMemory, Outcome};
use std::alloc::Global;
use std::test::Fail;

// Messages to client 1 of two: the first reply of a server under either wire, and what client 2 says. Python's
// `hmac` and `hashlib` gave the tags and digests here and below, from the layouts of bodies and messages.
const REPLY: &str = "0102010000000000";

const REPLY_2: &str = "0202010000000000";

const PROBE_OF_2: &str = "01040201c07c7ca499167bd86b0176815f039da16445518b78936367086f2480224ca205";

const PROBE_WRONGLY_TAGGED: &str =
    "01040201c07c7ca499167bd86b0176815f039da16445518b78936367086f2480224ca204";

const PROBE_TO_2: &str = "01040102e0728ed65e31a4de205fd45cb696fb658ab9b24e0ac2215a65c4744752bc12f3";

const VERSION_OF_2_ALONE: &str =
    "01050201020000000000000000000000000000000100015c6037e17112ad2502ced33a32a65e1df780e7996de2b65aff08f47c4c58a3d0347214e93c8ea6728ae0b45b8c283196b210b5a5ce3cd94b0421e713d3492feff28c4cfbfb426cd5ae1acf9ee2bfb2dc37a3749af76817ec604405799a2e3787";

const VERSION_OF_BOTH: &str =
    "0105020102000000000000000100000000000000010127c24fcb8474773e2af799d0848495ff053272d33c432dc26277993df45c927601e2c76849aec88c6e3d8f87b3ddb136dd1e5c095568a8bfd671c96a1a69f0a35d628c89b5b77d6db9cda8c71a35d9290fa53d5ecaefefe27f16bca3b0f5cd56f31010d260e95883cb53e134b734609adbeee00bab6f93966154369d14255328ae";

const FAILURE_OF_2: &str =
    "01060201070c09958af4510d02031657621691c65de5b53fcfd463ff88a317f93a05814842";

/// What comes to client 1.
#[derive(Clone, Copy)]
enum Event {
    Write(&'static [u8]),
    Read(u8),
    Reply(&'static str),
    Peer(&'static str),
    Tick(u64),
}

fn digit(c: u8) -> u8 {
    match c {
        b'0'..=b'9' => c - b'0',
        b'a'..=b'f' => c - b'a' + 10,
        _ => 0,
    }
}

/// The bytes that a hexadecimal text spells.
fn bytes_of(alloc: Global, text: &str) -> Result<Bytes, OutOfMemory> {
    let mut bytes = Bytes::new(alloc);
    let mut high = None;
    for c in text.as_bytes() {
        match high {
            None => high = Some(digit(*c) << 4),
            Some(bits) => {
                bytes.push(bits | digit(*c))?;
                high = None;
            }
        }
    }
    Ok(bytes)
}

fn first_agent(alloc: Global, wire: u8) -> Result<Agent, OutOfMemory>
    requires { IsWire wire }
{
    let key = [0, 1, 2, 3, 4, 5, 6, 7, 8, 9, 10, 11, 12, 13, 14, 15];
    let config = Config {
        clients: 2,
        key: Bytes::from_slice(alloc, &key)?,
        delta: 1000,
        dummy: 1_000_000,
        wire,
    };
    Agent::new(alloc, &config, 1)
}

/// What an event gives: none where it can't come.
fn outcome(alloc: Global, agent: &mut Agent, event: Event) -> Result<Option<Outcome>, OutOfMemory> {
    let outcome = match event {
        Event::Write(value) => {
            if !agent.is_idle() || value.len() > MAX_VALUE_LEN {
                return Ok(None);
            }
            agent.begin_write(value)?
        }
        Event::Read(register) => {
            if !agent.is_idle() || register == 0 || register > agent.clients() {
                return Ok(None);
            }
            agent.begin_read(register)?
        }
        Event::Reply(text) => agent.on_reply(bytes_of(alloc, text)?.as_slice())?,
        Event::Peer(text) => agent.on_peer(bytes_of(alloc, text)?.as_slice())?,
        Event::Tick(moment) => agent.on_tick(moment)?,
    };
    Ok(Some(outcome))
}

/// A message by its length and the first bytes of its digest.
fn message(alloc: Global, word: &str, bytes: &Bytes) -> Result<String, OutOfMemory> {
    let digest = value_digest(bytes.as_slice());
    let (a, b, c, d) = (digest[0], digest[1], digest[2], digest[3]);
    let text = format!(in alloc; "{word} {} {a:02x}{b:02x}{c:02x}{d:02x}; ", bytes.len())?;
    Ok(text)
}

fn put_messages(alloc: Global, outcome: &Outcome, text: &mut String) -> Result<(), OutOfMemory> {
    if let Some(bytes) = &outcome.to_server {
        text.push_str(message(alloc, "server", bytes)?.as_str())?;
    }
    for post in outcome.to_peers.as_slice() {
        text.push_str(message(alloc, "post", &post.bytes)?.as_str())?;
    }
    Ok(())
}

fn put_cut(alloc: Global, cut: &Cut, text: &mut String) -> Result<(), OutOfMemory> {
    text.push_str("cut ")?;
    for entry in cut.as_slice() {
        text.push_str(format!(in alloc; "{entry} ")?.as_str())?;
    }
    Ok(())
}

fn put_rest(alloc: Global, outcome: &Outcome, text: &mut String) -> Result<(), OutOfMemory> {
    if let Some(answer) = &outcome.answer {
        text.push_str(format!(in alloc; "done {}; ", answer.op.name.t)?.as_str())?;
    }
    if let Some(cut) = &outcome.cut {
        put_cut(alloc, cut, text)?;
    }
    for client in outcome.probed.as_slice() {
        text.push_str(format!(in alloc; "probe {client}; ")?.as_str())?;
    }
    if let Some(op) = &outcome.began {
        text.push_str(format!(in alloc; "begin {}; ", op.name.t)?.as_str())?;
    }
    if let Some(notice) = &outcome.notice {
        text.push_str(format!(in alloc; "check {} at {}; ", notice.check, notice.place)?.as_str())?;
    }
    Ok(())
}

/// What an event gives, as a text.
fn told(alloc: Global, agent: &mut Agent, event: Event) -> Result<String, OutOfMemory> {
    let mut text = String::new(alloc);
    match outcome(alloc, agent, event)? {
        None => text.push_str("can't come")?,
        Some(outcome) => {
            put_messages(alloc, &outcome, &mut text)?;
            put_rest(alloc, &outcome, &mut text)?;
        }
    }
    Ok(text)
}

#[test]
fn operations_probes_and_a_failure(rt: HostRuntime) -> Result<(), Fail> {
    let cases = [
        (Event::Write(b"a"), "server 79 40bf8b77; "),
        (Event::Reply(REPLY), "server 116 0156882d; done 1; cut 1 0 "),
        (Event::Peer(PROBE_OF_2), "post 119 a7bf6389; "),
        (Event::Peer(PROBE_WRONGLY_TAGGED), ""),
        (Event::Peer(PROBE_TO_2), ""),
        (Event::Peer(VERSION_OF_BOTH), "cut 1 1 "),
        (Event::Tick(1000), "post 36 a553f3ed; probe 2; "),
        (Event::Tick(999), ""),
        (Event::Tick(1999), ""),
        (
            Event::Tick(1_000_000),
            "server 76 c6633bb5; post 36 a553f3ed; probe 2; begin 2; ",
        ),
        (
            Event::Peer(FAILURE_OF_2),
            "post 37 be0c798e; check 15 at 2; ",
        ),
        (Event::Peer(PROBE_OF_2), "post 37 be0c798e; "),
        (Event::Peer(VERSION_OF_BOTH), ""),
        (Event::Reply(REPLY), ""),
        (Event::Tick(9_000_000), ""),
    ];
    let mut agent = first_agent(rt.alloc(), 1)?;
    for (event, expected) in cases {
        let text = told(rt.alloc(), &mut agent, event)?;
        assert_eq!(rt; text.as_str(), expected);
    }
    assert!(rt; !agent.is_idle());
    assert_eq!(rt; agent.cut(agent.clients()), 1);
    assert_eq!(rt; agent.greatest().maker, 2);
    assert!(rt; agent.notice().is_some());
    Ok(())
}

#[test]
fn a_next_version_that_is_apart(rt: HostRuntime) -> Result<(), Fail> {
    let cases = [
        (Event::Peer(PROBE_OF_2), "post 37 d51af699; "),
        (Event::Peer(VERSION_OF_2_ALONE), ""),
        (Event::Write(b"a"), "server 79 40bf8b77; "),
        (Event::Reply(REPLY), "post 37 c085b00c; check 13 at 2; "),
    ];
    let mut agent = first_agent(rt.alloc(), 1)?;
    for (event, expected) in cases {
        let text = told(rt.alloc(), &mut agent, event)?;
        assert_eq!(rt; text.as_str(), expected);
    }
    Ok(())
}

#[test]
fn a_version_of_another_that_is_apart(rt: HostRuntime) -> Result<(), Fail> {
    let cases = [
        (Event::Write(b"a"), "server 79 40bf8b77; "),
        (Event::Reply(REPLY), "server 116 0156882d; done 1; cut 1 0 "),
        (
            Event::Peer(VERSION_OF_2_ALONE),
            "post 37 83ca00e2; check 14 at 2; ",
        ),
    ];
    let mut agent = first_agent(rt.alloc(), 1)?;
    for (event, expected) in cases {
        let text = told(rt.alloc(), &mut agent, event)?;
        assert_eq!(rt; text.as_str(), expected);
    }
    Ok(())
}

#[test]
fn a_reply_of_another_wire(rt: HostRuntime) -> Result<(), Fail> {
    let cases = [
        (Event::Write(b"a"), "server 79 40bf8b77; "),
        (Event::Reply(REPLY_2), "post 37 4d8ca170; check 1 at 0; "),
    ];
    let mut agent = first_agent(rt.alloc(), 1)?;
    for (event, expected) in cases {
        let text = told(rt.alloc(), &mut agent, event)?;
        assert_eq!(rt; text.as_str(), expected);
    }
    Ok(())
}

#[test]
fn a_reply_that_comes_unasked(rt: HostRuntime) -> Result<(), Fail> {
    let cases = [(Event::Reply(REPLY), "post 37 97de29a0; check 2 at 0; ")];
    let mut agent = first_agent(rt.alloc(), 1)?;
    for (event, expected) in cases {
        let text = told(rt.alloc(), &mut agent, event)?;
        assert_eq!(rt; text.as_str(), expected);
    }
    Ok(())
}

#[test]
fn a_held_commit_goes_alone(rt: HostRuntime) -> Result<(), Fail> {
    let cases = [
        (Event::Write(b"a"), "server 80 16cacc3e; "),
        (Event::Reply(REPLY_2), "done 1; cut 1 0 "),
        (
            Event::Tick(1000),
            "server 116 d2d08b90; post 36 83e14bda; probe 2; ",
        ),
        (Event::Tick(1001), ""),
    ];
    let mut agent = first_agent(rt.alloc(), 2)?;
    for (event, expected) in cases {
        let text = told(rt.alloc(), &mut agent, event)?;
        assert_eq!(rt; text.as_str(), expected);
    }
    Ok(())
}

#[test]
fn a_held_commit_rides(rt: HostRuntime) -> Result<(), Fail> {
    let cases = [
        (Event::Write(b"a"), "server 80 16cacc3e; "),
        (Event::Reply(REPLY_2), "done 1; cut 1 0 "),
        (Event::Read(2), "server 191 3eeeacc9; "),
        (Event::Tick(999), ""),
    ];
    let mut agent = first_agent(rt.alloc(), 2)?;
    for (event, expected) in cases {
        let text = told(rt.alloc(), &mut agent, event)?;
        assert_eq!(rt; text.as_str(), expected);
    }
    Ok(())
}
