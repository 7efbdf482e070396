use crate::parser::parse;
use faust_types::{Bytes, Sequence};
use std::test::Fail;

const EVERY_LINE: [(&[u8], &str); 44] = [
    (b"write 1 \"\"", "Write { client: 1, value: [] }"),
    (
        b"write 32 \"a ~\"",
        "Write { client: 32, value: [97, 32, 126] }",
    ),
    (b"write 1 0x00ff", "Write { client: 1, value: [0, 255] }"),
    (b"read 1 32", "Read { client: 1, register: 32 }"),
    (b"read 32 1", "Read { client: 32, register: 1 }"),
    (b"arrive 1", "Arrive { client: 1 }"),
    (b"reply 32", "Reply { client: 32 }"),
    (b"tick 1 0", "Tick { client: 1, moment: 0 }"),
    (
        b"tick 32 1099511627775",
        "Tick { client: 32, moment: 1099511627775 }",
    ),
    (b"peer 1 32 1", "Peer { sender: 1, receiver: 32, k: 1 }"),
    (
        b"peer 3 3 20000",
        "Peer { sender: 3, receiver: 3, k: 20000 }",
    ),
    (b"post 1 0x", "Post { receiver: 1, bytes: [] }"),
    (b"post 32 0x0a", "Post { receiver: 32, bytes: [10] }"),
    (b"branch 0 7", "Branch { from: 0, to: 7 }"),
    (b"branch 7 0", "Branch { from: 7, to: 0 }"),
    (b"route 1 0", "Route { client: 1, to: 0 }"),
    (b"route 32 7", "Route { client: 32, to: 7 }"),
    (b"echo 1 1 0", "Echo { client: 1, k: 1, to: 0 }"),
    (b"echo 32 20000 7", "Echo { client: 32, k: 20000, to: 7 }"),
    (b"again 1 1", "Again { client: 1, k: 1 }"),
    (b"again 32 20000", "Again { client: 32, k: 20000 }"),
    (b"edit 1 c 32", "Edited { client: 1, edit: C(32) }"),
    (b"edit 32 v 1 1", "Edited { client: 32, edit: V(1, 1) }"),
    (
        b"edit 1 v 32 1099511627775",
        "Edited { client: 1, edit: V(32, 1099511627775) }",
    ),
    (b"edit 1 m 1", "Edited { client: 1, edit: M(1) }"),
    (b"edit 1 ctag", "Edited { client: 1, edit: Ctag }"),
    (
        b"edit 1 add 2 write 3",
        "Edited { client: 1, edit: Add(2, Write, 3) }",
    ),
    (
        b"forge 1 add 3 read 2",
        "Forged { client: 1, edit: Add(3, Read, 2) }",
    ),
    (b"edit 1 drop 1", "Edited { client: 1, edit: DropTuple(1) }"),
    (
        b"edit 1 drop 20000",
        "Edited { client: 1, edit: DropTuple(20000) }",
    ),
    (b"edit 1 swap 2", "Edited { client: 1, edit: Swap(2) }"),
    (
        b"edit 1 ltag 20000",
        "Edited { client: 1, edit: Ltag(20000) }",
    ),
    (b"edit 1 proof 32", "Edited { client: 1, edit: Proof(32) }"),
    (
        b"edit 1 noproof 1",
        "Edited { client: 1, edit: Noproof(1) }",
    ),
    (b"forge 1 jv 32 1", "Forged { client: 1, edit: Jv(32, 1) }"),
    (b"edit 1 jtag", "Edited { client: 1, edit: Jtag }"),
    (b"forge 1 t 1", "Forged { client: 1, edit: T(1) }"),
    (
        b"forge 1 t 1099511627775",
        "Forged { client: 1, edit: T(1099511627775) }",
    ),
    (
        b"forge 1 value \"b\"",
        "Forged { client: 1, edit: Value([98]) }",
    ),
    (b"edit 1 value 0x", "Edited { client: 1, edit: Value([]) }"),
    (b"edit 1 dtag", "Edited { client: 1, edit: Dtag }"),
    (b"forge 32 unread", "Forged { client: 32, edit: Unread }"),
    (b"raw 1 0x", "Raw { client: 1, bytes: [] }"),
    (b"raw 32 0xff", "Raw { client: 32, bytes: [255] }"),
];

#[test]
fn every_event_and_edit(rt: HostRuntime) -> Result<(), Fail> {
    let mut text: Bytes = Bytes::from_slice(
        rt.alloc(),
        b"faust 1\nclients 32\nkey 000102ff\ndelta 1099511627775\ndummy 1000000\n",
    )?;
    for (line, _) in EVERY_LINE.iter() {
        text.append(line)?;
        text.push(b'\n')?;
    }
    text.append(b"end\n")?;
    let script = parse(rt.alloc(), text.as_slice())?;
    assert_eq!(rt; script.format, 1);
    assert_eq!(rt; script.config.wire, 1);
    assert_eq!(rt; script.config.clients, 32);
    assert_eq!(rt; script.config.key.as_slice(), [0, 1, 2, 255].as_slice());
    assert_eq!(rt; script.config.delta, 1_099_511_627_775);
    assert_eq!(rt; script.config.dummy, 1_000_000);
    assert_eq!(rt; script.events.len(), EVERY_LINE.len());
    for (event, (line, shown)) in script.events.as_slice().iter().zip(EVERY_LINE.iter()) {
        let found = format!(in rt.alloc(); "{event:?}")?;
        assert_eq!(rt; found.as_str(), *shown, "{line:?}");
    }
    Ok(())
}

#[test]
fn the_wire_of_format_2(rt: HostRuntime) -> Result<(), Fail> {
    let old = parse(
        rt.alloc(),
        b"faust 2\nwire 1\nclients 2\nkey 00\ndelta 1\ndummy 1\nend\n",
    )?;
    assert_eq!(rt; (old.format, old.config.wire), (2, 1));
    let riding = parse(
        rt.alloc(),
        b"faust 2\nwire 2\nclients 3\nkey 00\ndelta 1\ndummy 1\nend\n",
    )?;
    assert_eq!(rt;
        (riding.format, riding.config.wire, riding.config.clients),
        (2, 2, 3)
    );
    Ok(())
}
