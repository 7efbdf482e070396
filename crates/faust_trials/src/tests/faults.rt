// Each read and each write of each command fails, by its number: what `run` answers then, what the sink holds, and what
// both ends counted. A source gives one byte a read here, and a sink takes one byte a write.
use faust_io::{MemSink, MemSource};
use faust_top::run;
use faust_types::{Bytes, OutOfMemory, Status};
use std::alloc::Global;
use std::process::Abort;
use std::test::Fail;

/// Two clients whose histories part, and who hear of it by a message.
const FORK: &str =
    "faust 1\nclients 2\nkey 000102030405060708090a0b0c0d0e0f\ndelta 1000\ndummy 1000000\nwrite 1 \"a\"\narrive 1\nreply 1\narrive 1\nbranch 0 1\nroute 2 1\nwrite 1 \"b\"\narrive 1\nreply 1\narrive 1\nread 2 1\narrive 2\nreply 2\narrive 2\ntick 1 1000\npeer 1 2 1\npeer 2 1 1\npeer 1 2 2\nend\n";

/// A script of which a record is short.
const FIRST: &str =
    "faust 1\nclients 2\nkey 00\ndelta 1000\ndummy 1000000\nwrite 1 \"a\"\narrive 1\nreply 1\narrive 1\nend\n";

/// How a run ended: its status, what the sink holds, and how many reads and writes failed.
#[derive(Debug, Drop)]
struct Ending {
    status: Status,
    text: Bytes,
    reads_failed: u64,
    writes_failed: u64,
}

/// A run of the command on an input. The reads and the writes with the listed numbers fail.
fn ended(
    alloc: Global,
    form: &[&str],
    input: &[u8],
    reads: &[u64],
    writes: &[u64],
) -> Result<Ending, OutOfMemory> {
    let mut words = Vec::new(alloc);
    for word in form {
        words.push(String::from_str(alloc, word)?)?;
    }
    let mut source = MemSource::new(alloc, input, 1, reads)?;
    let mut sink = MemSink::new(alloc, 10_000, 1, writes)?;
    let status = run(alloc, words.as_slice(), &mut source, &mut sink);
    Ok(Ending {
        status,
        text: Bytes::from_slice(alloc, sink.bytes())?,
        reads_failed: source.faults(),
        writes_failed: sink.faults(),
    })
}

/// Where these reads fail, the status says so, the first one is counted, and nothing is written.
fn check_read(
    rt: &(impl Abort + AllocGlobal),
    form: &[&str],
    input: &[u8],
    fails: &[u64],
) -> Result<(), Fail> {
    let found = ended(rt.alloc(), form, input, fails, &[])?;
    assert_eq!(rt; found.status, Status::ReadFault, "{form:?}, {fails:?}");
    assert!(rt; found.text.is_empty(), "{form:?}, {fails:?}");
    assert_eq!(rt; found.reads_failed, 1, "{form:?}, {fails:?}");
    assert_eq!(rt; found.writes_failed, 0, "{form:?}, {fails:?}");
    Ok(())
}

/// Each read fails, also the one that finds the end: alone, and with the next one.
fn check_reads(rt: &(impl Abort + AllocGlobal), form: &[&str], input: &[u8]) -> Result<(), Fail> {
    for taken in 0..=input.len() {
        let k = (taken as u64).saturating_add(1);
        check_read(rt, form, input, &[k])?;
        check_read(rt, form, input, &[k, k.saturating_add(1)])?;
    }
    Ok(())
}

/// Where these writes fail, the status says so, the first one is counted, and the sink holds what came before.
fn check_write(
    rt: &(impl Abort + AllocGlobal),
    form: &[&str],
    input: &[u8],
    fails: &[u64],
    before: &[u8],
) -> Result<(), Fail> {
    let found = ended(rt.alloc(), form, input, &[], fails)?;
    assert_eq!(rt; found.status, Status::WriteFault, "{form:?}, {fails:?}");
    assert_eq!(rt; found.text.as_slice(), before, "{form:?}, {fails:?}");
    assert_eq!(rt; found.reads_failed, 0, "{form:?}, {fails:?}");
    assert_eq!(rt; found.writes_failed, 1, "{form:?}, {fails:?}");
    Ok(())
}

/// Each write of a text fails: alone, and with the next one.
fn check_writes(
    rt: &(impl Abort + AllocGlobal),
    form: &[&str],
    input: &[u8],
    text: &[u8],
) -> Result<(), Fail> {
    for taken in 0..text.len() {
        let k = (taken as u64).saturating_add(1);
        check_write(rt, form, input, &[k], &text[..taken])?;
        check_write(rt, form, input, &[k, k.saturating_add(1)], &text[..taken])?;
    }
    Ok(())
}

/// A command that ends with this status where nothing fails, and with the fault at each of its writes. Its text is the
/// answer.
fn check(
    rt: &(impl Abort + AllocGlobal),
    form: &[&str],
    input: &[u8],
    status: Status,
) -> Result<Bytes, Fail> {
    let whole = ended(rt.alloc(), form, input, &[], &[])?;
    assert_eq!(rt; whole.status, status, "{form:?}");
    assert_eq!(rt; whole.reads_failed, 0, "{form:?}");
    assert_eq!(rt; whole.writes_failed, 0, "{form:?}");
    check_writes(rt, form, input, whole.text.as_slice())?;
    Ok(whole.text)
}

#[test]
fn faults_of_a_script_are_told(rt: HostRuntime) -> Result<(), Fail> {
    check(&rt, &["script"], FORK.as_bytes(), Status::Done)?;
    check_reads(&rt, &["script"], FORK.as_bytes())
}

#[test]
fn faults_of_the_other_commands_are_told(rt: HostRuntime) -> Result<(), Fail> {
    let first = FIRST.as_bytes();
    let record = check(&rt, &["record"], first, Status::Done)?;
    check_reads(&rt, &["record"], first)?;
    check(&rt, &["json"], first, Status::Done)?;
    check_reads(&rt, &["json"], first)?;
    for form in [&["audit"], &["migrate"]] {
        check(&rt, form, record.as_slice(), Status::Done)?;
        check_reads(&rt, form, record.as_slice())?;
    }
    check(&rt, &["sample", "1", "2", "1"], b"", Status::Done)?;
    check(&rt, &["nothing"], first, Status::Usage)?;
    check(&rt, &["script"], b"faust 1\n", Status::Refused)?;
    check_reads(&rt, &["script"], b"faust 1\n")
}
