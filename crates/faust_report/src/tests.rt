use crate::{body, json, summary, text};
use faust_record::{Fact, Findings};
use faust_types::{Answer, Bytes, Kind, Names, Notice, OpName, Operation, OutOfMemory, Sequence};
use std::alloc::Global;
use std::test::Fail;

fn operation(client: u8, t: u64, kind: Kind, register: u8) -> Operation {
    Operation {
        name: OpName { client, t },
        kind,
        register,
        dummy: false,
    }
}

fn nothing(alloc: Global, entry: u64, client: u8) -> Fact {
    Fact {
        entry,
        client,
        done: None,
        cut: None,
        probed: Sequence::new(alloc),
        dummy: None,
        notice: None,
    }
}

/// One write by client 1 of two, which completed in entry 2.
fn one_write(alloc: Global) -> Result<Findings, OutOfMemory> {
    let op = operation(1, 1, Kind::Write, 1);
    let mut fact = nothing(alloc, 2, 1);
    fact.done = Some(Answer {
        op,
        value: None,
        asof: 0,
    });
    fact.cut = Some(Sequence::from_slice(alloc, &[1, 0])?);
    let mut facts = Sequence::new(alloc);
    facts.push(nothing(alloc, 0, 1))?;
    facts.push(fact)?;
    let seen: Names = Sequence::from_slice(alloc, &[op.name])?;
    let mut views = Sequence::new(alloc);
    views.push(seen)?;
    views.push(Sequence::new(alloc))?;
    Ok(Findings {
        clients: 2,
        entries: 4,
        begun: 1,
        facts,
        views,
        departure: None,
        order: Sequence::from_slice(alloc, &[op.name])?,
    })
}

/// Entries of three clients that show every kind of line, and a departure in the last of them.
fn every_line(alloc: Global) -> Result<Findings, OutOfMemory> {
    let mut plain = nothing(alloc, 2, 2);
    plain.done = Some(read(alloc, 2, Some(b"a b"), 3)?);
    plain.cut = Some(Sequence::from_slice(alloc, &[0, 1, 0])?);
    let mut ticked = nothing(alloc, 4, 1);
    ticked.probed = Sequence::from_slice(alloc, &[2, 3])?;
    ticked.dummy = Some(operation(1, 2, Kind::Read, 3));
    let mut absent = nothing(alloc, 6, 3);
    absent.done = Some(read(alloc, 3, None, 0)?);
    let mut hidden = nothing(alloc, 7, 2);
    hidden.done = Some(read(alloc, 2, Some(b"\"\n"), 1)?);
    let mut broken = nothing(alloc, 9, 1);
    broken.notice = Some(Notice {
        check: 13,
        place: 2,
    });
    let mut facts = Sequence::new(alloc);
    facts.push(plain)?;
    facts.push(ticked)?;
    facts.push(absent)?;
    facts.push(hidden)?;
    facts.push(broken)?;
    let seen = [OpName { client: 2, t: 1 }, OpName { client: 1, t: 12 }];
    let mut views = Sequence::new(alloc);
    views.push(Sequence::new(alloc))?;
    views.push(Sequence::from_slice(alloc, &seen)?)?;
    views.push(Sequence::new(alloc))?;
    Ok(Findings {
        clients: 3,
        entries: 10,
        begun: 4,
        facts,
        views,
        departure: Some(9),
        order: Sequence::from_slice(alloc, &seen)?,
    })
}

fn read(alloc: Global, client: u8, value: Option<&[u8]>, asof: u64) -> Result<Answer, OutOfMemory> {
    let value = match value {
        None => None,
        Some(value) => Some(Bytes::from_slice(alloc, value)?),
    };
    Ok(Answer {
        op: operation(client, 7, Kind::Read, 1),
        value,
        asof,
    })
}

#[test]
fn texts_of_one_write(rt: HostRuntime) -> Result<(), Fail> {
    let findings = one_write(rt.alloc())?;
    let report = text(rt.alloc(), &findings)?;
    assert_eq!(rt;
        report.as_slice(),
        b"faust report 1\nclients 2\nentries 4\n2 done 1.1 write X1\n2 cut 1: 1 0\nview 1: 1.1\nview 2:\ndeparture none\norder: 1.1\nend\n".as_slice()
    );
    let lines = body(rt.alloc(), &findings)?;
    assert_eq!(rt;
        lines.as_slice(),
        b"clients 2\nentries 4\n2 done 1.1 write X1\n2 cut 1: 1 0\nview 1: 1.1\nview 2:\n".as_slice()
    );
    let totals = summary(rt.alloc(), &findings, 7)?;
    assert_eq!(rt;
        totals.as_slice(),
        b"sample seed 7 clients 2\nentries 4\noperations 1 completed 1\ndeparture none\nfailures 0\ncuts whole 1 of 2\nend\n".as_slice()
    );
    let object = json(rt.alloc(), &findings)?;
    assert_eq!(rt;
        object.as_slice(),
        b"{\"clients\":2,\"cuts\":[{\"client\":1,\"cut\":[1,0],\"entry\":2}],\"departure\":null,\"done\":[\"1.1\"],\"entries\":4,\"failures\":[],\"order\":[\"1.1\"],\"views\":[[\"1.1\"],[]]}\n".as_slice()
    );
    Ok(())
}

#[test]
fn texts_of_every_line(rt: HostRuntime) -> Result<(), Fail> {
    let findings = every_line(rt.alloc())?;
    let report = text(rt.alloc(), &findings)?;
    assert_eq!(rt;
        report.as_slice(),
        b"faust report 1\nclients 3\nentries 10\n2 done 2.7 read X1 \"a b\" asof 3\n2 cut 2: 0 1 0\n4 probe 1: 2 3\n4 dummy 1.2 X3\n6 done 3.7 read X1 none asof 0\n7 done 2.7 read X1 0x220a asof 1\n9 fail 1: check 13 place 2\nview 1:\nview 2: 2.1 1.12\nview 3:\ndeparture 9\nend\n".as_slice()
    );
    let lines = body(rt.alloc(), &findings)?;
    assert_eq!(rt;
        lines.as_slice(),
        b"clients 3\nentries 10\n2 done 2.7 read X1 \"a b\" asof 3\n2 cut 2: 0 1 0\n4 probe 1: 2 3\n4 dummy 1.2 X3\n6 done 3.7 read X1 none asof 0\n7 done 2.7 read X1 0x220a asof 1\n9 fail 1: check 13 place 2\nview 1:\nview 2: 2.1 1.12\nview 3:\n".as_slice()
    );
    Ok(())
}
