use crate::run;
use faust_io::{MemSink, MemSource, SureSource};
use faust_types::{Bytes, OutOfMemory, Status};
use std::alloc::Global;
use std::test::Fail;

const HEAD: &str =
    "faust 1\nclients 2\nkey 000102030405060708090a0b0c0d0e0f\ndelta 1000\ndummy 1000000\n";

const RIDING_HEAD: &str =
    "faust 2\nwire 2\nclients 2\nkey 000102030405060708090a0b0c0d0e0f\ndelta 1000\ndummy 1000000\n";

const FIRST: &str = "write 1 \"a\"\narrive 1\nreply 1\narrive 1\nend\n";

const FIRST_REPORT: &str =
    "faust report 1\nclients 2\nentries 4\n2 done 1.1 write X1\n2 cut 1: 1 0\nview 1: 1.1\nview 2:\ndeparture none\norder: 1.1\nend\n";

const FIRST_JSON: &str =
    "{\"clients\":2,\"cuts\":[{\"client\":1,\"cut\":[1,0],\"entry\":2}],\"departure\":null,\"done\":[\"1.1\"],\"entries\":4,\"failures\":[],\"order\":[\"1.1\"],\"views\":[[\"1.1\"],[]]}\n";

const FIRST_RECORD: &str =
    "faust-record 1\nclients 2\nkey 000102030405060708090a0b0c0d0e0f\ndelta 1000\ndummy 1000000\n0 begin 1 write \"a\"\n1 arrive 1\n2 reply 1 0x0102010000000000\n3 arrive 1\nend 4\n";

const SHORT_RECORD: &str =
    "faust-record 1\nclients 2\nkey 000102030405060708090a0b0c0d0e0f\ndelta 1000\ndummy 1000000\n0 tick 1 7\nend 1\n";

const SHORT_MIGRATED: &str =
    "faust-record 2\nwire 1\nclients 2\nkey 000102030405060708090a0b0c0d0e0f\ndelta 1000\ndummy 1000000\n0 tick 1 7\nend 1\n";

const SHORT_REPORT: &str =
    "faust report 1\nclients 2\nentries 1\nview 1:\nview 2:\ndeparture none\norder:\nend\n";

const FORGING: &str = "write 1 \"a\"\narrive 1\nforge 1 add 2 write 2\nend\n";

const FORGED: &str = "forged: entry 2 body 010201020000000000000001\n";

const SUMMARY: &str =
    "sample seed 1 clients 2\nentries 16\noperations 1 completed 1\ndeparture none\nfailures 0\ncuts whole 2 of 2\nend\n";

const USAGE: &str =
    "usage: faust script | record | audit | json | migrate | sample SEED CLIENTS OPS | live CLIENTS OPS KEY short | live CLIENTS OPS KEY full\n";

/// A script of a head and lines behind it.
fn script(alloc: Global, head: &str, lines: &str) -> Result<Bytes, OutOfMemory> {
    let mut text = Bytes::from_slice(alloc, head.as_bytes())?;
    text.append(lines.as_bytes())?;
    Ok(text)
}

fn words(alloc: Global, words: &[&str]) -> Result<Vec<String>, OutOfMemory> {
    let mut list = Vec::new(alloc);
    for word in words {
        list.push(String::from_str(alloc, word)?)?;
    }
    Ok(list)
}

/// The status of a run over an input that is read in pieces of 7 bytes, and the text that it wrote.
fn answered(alloc: Global, form: &[&str], input: &[u8]) -> Result<(Status, Bytes), OutOfMemory> {
    let words = words(alloc, form)?;
    let mut source = MemSource::new(alloc, input, 7, &[])?;
    let mut sink = MemSink::new(alloc, 100_000, 5, &[])?;
    let status = run(alloc, words.as_slice(), &mut source, &mut sink);
    Ok((status, Bytes::from_slice(alloc, sink.bytes())?))
}

#[test]
fn each_input_has_its_text(rt: HostRuntime) -> Result<(), Fail> {
    let cases = [
        (HEAD, FIRST, Status::Done, FIRST_REPORT),
        (
            HEAD,
            "write 1 \"a",
            Status::Refused,
            "refused: line 6: cut off\n",
        ),
        (
            HEAD,
            "write 1 \"a\"\nwrite 1 \"b\"\nend\n",
            Status::Refused,
            "refused: line 7: busy\n",
        ),
        (
            RIDING_HEAD,
            "reply 1\nend\n",
            Status::Refused,
            "refused: line 7: nothing\n",
        ),
        (HEAD, FORGING, Status::Premise, FORGED),
    ];
    for (head, lines, status, text) in cases {
        let input = script(rt.alloc(), head, lines)?;
        let (found, written) = answered(rt.alloc(), &["script"], input.as_slice())?;
        assert_eq!(rt; found, status, "{lines}");
        assert_eq!(rt; written.as_slice(), text.as_bytes(), "{lines}");
    }
    Ok(())
}

#[test]
fn each_command_has_its_text(rt: HostRuntime) -> Result<(), Fail> {
    let first = script(rt.alloc(), HEAD, FIRST)?;
    let forging = script(rt.alloc(), HEAD, FORGING)?;
    let cases: [(&[&str], &[u8], Status, &str); 9] = [
        (&["record"], first.as_slice(), Status::Done, FIRST_RECORD),
        (&["json"], first.as_slice(), Status::Done, FIRST_JSON),
        (&["json"], forging.as_slice(), Status::Premise, FORGED),
        (
            &["audit"],
            FIRST_RECORD.as_bytes(),
            Status::Done,
            FIRST_REPORT,
        ),
        (
            &["audit"],
            SHORT_MIGRATED.as_bytes(),
            Status::Done,
            SHORT_REPORT,
        ),
        (
            &["audit"],
            b"",
            Status::Refused,
            "refused: line 1: cut off\n",
        ),
        (
            &["migrate"],
            SHORT_RECORD.as_bytes(),
            Status::Done,
            SHORT_MIGRATED,
        ),
        (
            &["migrate"],
            SHORT_MIGRATED.as_bytes(),
            Status::Done,
            SHORT_MIGRATED,
        ),
        (&["sample", "1", "2", "1"], b"", Status::Done, SUMMARY),
    ];
    for (form, input, status, text) in cases {
        let (found, written) = answered(rt.alloc(), form, input)?;
        assert_eq!(rt; found, status, "{form:?}");
        assert_eq!(rt; written.as_slice(), text.as_bytes(), "{form:?}");
    }
    Ok(())
}

#[test]
fn a_record_is_written_of_any_run(rt: HostRuntime) -> Result<(), Fail> {
    let forging = script(rt.alloc(), HEAD, FORGING)?;
    let (status, record) = answered(rt.alloc(), &["record"], forging.as_slice())?;
    assert_eq!(rt; status, Status::Done);
    let (status, text) = answered(rt.alloc(), &["audit"], record.as_slice())?;
    assert_eq!(rt; status, Status::Premise);
    assert_eq!(rt; text.as_slice(), FORGED.as_bytes());
    let (status, _) = answered(rt.alloc(), &["migrate"], record.as_slice())?;
    assert_eq!(rt; status, Status::Done);
    Ok(())
}

#[test]
fn an_input_over_the_limit_is_refused(rt: HostRuntime) -> Result<(), Fail> {
    let mut long = Bytes::new(rt.alloc());
    for _ in 0..131_073 {
        long.append(b"arrive 1")?;
    }
    let words = words(rt.alloc(), &["script"])?;
    let mut source = SureSource::new(rt.alloc(), long.as_slice())?;
    let mut sink = MemSink::new(rt.alloc(), 100, 100, &[])?;
    let status = run(rt.alloc(), words.as_slice(), &mut source, &mut sink);
    assert_eq!(rt; status, Status::Refused);
    assert_eq!(rt; sink.bytes(), b"refused: line 0: input\n".as_slice());
    Ok(())
}

#[test]
fn other_words_are_no_form(rt: HostRuntime) -> Result<(), Fail> {
    let input = script(rt.alloc(), HEAD, FIRST)?;
    let forms: [&[&str]; 9] = [
        &[],
        &["script", "extra"],
        &["Script"],
        &["sample"],
        &["sample", "7", "1", "5"],
        &["sample", "7", "33", "5"],
        &["sample", "7", "2", "3001"],
        &["sample", "18446744073709551616", "2", "5"],
        &["sample", "07", "2", "5"],
    ];
    for form in forms {
        let words = words(rt.alloc(), form)?;
        let mut source = MemSource::new(rt.alloc(), input.as_slice(), 100, &[1])?;
        let mut sink = MemSink::new(rt.alloc(), 1_000, 100, &[])?;
        let status = run(rt.alloc(), words.as_slice(), &mut source, &mut sink);
        assert_eq!(rt; status, Status::Usage, "{form:?}");
        assert_eq!(rt; sink.bytes(), USAGE.as_bytes(), "{form:?}");
        assert_eq!(rt; source.faults(), 0, "{form:?}");
    }
    Ok(())
}

#[test]
fn faults_of_the_ends_are_told(rt: HostRuntime) -> Result<(), Fail> {
    let words = words(rt.alloc(), &["script"])?;
    let input = script(rt.alloc(), HEAD, FIRST)?;

    let mut source = SureSource::new(rt.alloc(), input.as_slice())?;
    let mut sink = MemSink::new(rt.alloc(), 10, 4, &[])?;
    let status = run(rt.alloc(), words.as_slice(), &mut source, &mut sink);
    assert_eq!(rt; status, Status::WriteFault);
    assert_eq!(rt; sink.bytes(), b"faust repo".as_slice());

    let mut source = MemSource::new(rt.alloc(), input.as_slice(), 100, &[1])?;
    let mut sink = MemSink::new(rt.alloc(), 100, 4, &[])?;
    let status = run(rt.alloc(), words.as_slice(), &mut source, &mut sink);
    assert_eq!(rt; status, Status::ReadFault);
    assert!(rt; sink.bytes().is_empty());
    Ok(())
}
