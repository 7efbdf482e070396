use crate::error::StoreError;
use crate::printing::print_record;
use crate::reading::read_record;
use crate::stage::MAX_RECORD_ENTRIES;
use faust_record::RunRecord;
use faust_text::Cause;
use faust_types::{Bytes, OutOfMemory};
use std::alloc::Global;
use std::process::Abort;
use std::test::Fail;

/// The record of a worked run, of version 1, with an entry of each other kind behind it.
const OLD: [&[u8]; 7] = [
    b"faust-record 1\n",
    b"clients 2\nkey 000102030405060708090a0b0c0d0e0f\ndelta 1000\ndummy 1000000\n",
    b"0 begin 1 write \"a\"\n",
    b"1 arrive 1\n",
    b"2 reply 1 0x0102010000000000\n",
    b"3 arrive 1\n",
    b"4 begin 2 read 1\n5 tick 2 1099511627775\n6 peer 2 0x0a\nend 7\n",
];

/// The same of version 2, with the worked bytes of its messages.
const WHOLE: [&[u8]; 7] = [
    b"faust-record 2\nwire 1\n",
    b"clients 2\nkey 000102030405060708090a0b0c0d0e0f\ndelta 1000\ndummy 1000000\n",
    b"0 begin 1 write \"a\"\n",
    b"1 arrive 1 0x010101010000000000000001352fbaf1d0763b484ffdd243407dfffdeef23b8c194f9a8c2d0451d034a09d384abcef5c3ca28a617ba6b8ae0bb0b00914422da068d31e676b0e3b7edd24b06e000161\n",
    b"2 reply 1 0x0102010000000000\n",
    b"3 arrive 1 0x0103000000000000000100000000000000000127c24fcb8474773e2af799d0848495ff053272d33c432dc26277993df45c92760043c41b60cb5026b5490bba16cd08bd5b433be5e73edeab89f9d7b6900faee56e506bb519525b4145c646b71434a2a9d5508befe5552c7aec37d0be6b7ff72e4c\n",
    b"4 begin 2 read 1\n5 tick 2 1099511627775\n6 peer 2 0x0a\nend 7\n",
];

/// The text of these pieces.
fn joined(rt: &(impl Abort + AllocGlobal), pieces: &[&[u8]]) -> Result<Bytes, OutOfMemory> {
    let mut text: Bytes = Bytes::new(rt.alloc());
    for piece in pieces {
        text.append(piece)?;
    }
    Ok(text)
}

/// The record of a run that has one.
fn printed(alloc: Global, run: &RunRecord, version: u8) -> Result<Bytes, OutOfMemory> {
    if run.len() > MAX_RECORD_ENTRIES {
        return Err(OutOfMemory);
    }
    if version == 2 {
        return print_record(alloc, run, 2);
    }
    if run.config().wire != 1 {
        return Err(OutOfMemory);
    }
    print_record(alloc, run, 1)
}

#[test]
fn both_versions_are_read_and_printed(rt: HostRuntime) -> Result<(), Fail> {
    let old = joined(&rt, &OLD)?;
    let whole = joined(&rt, &WHOLE)?;
    let run = read_record(rt.alloc(), old.as_slice())?;
    assert_eq!(rt; run.len(), 7);
    let first = printed(rt.alloc(), &run, 1)?;
    assert!(rt; first.as_slice() == old.as_slice());
    let second = printed(rt.alloc(), &run, 2)?;
    assert!(rt; second.as_slice() == whole.as_slice());
    let again = read_record(rt.alloc(), whole.as_slice())?;
    assert_eq!(rt; again.len(), 7);
    Ok(())
}

const REFUSED: [(&[u8], u64, Cause); 12] = [
    (b"", 8, Cause::CutOff),
    (b"2 tick 1 1", 8, Cause::CutOff),
    (b"2 reply 1 1\n", 8, Cause::Word),
    (b"2 tick 3 1\n", 8, Cause::Number),
    (b"2 reply 1 0x0\n", 8, Cause::Value),
    (b"end 2\n\n", 9, Cause::AfterEnd),
    (b"end 02\n", 8, Cause::Word),
    (b"end 3\n", 8, Cause::Order),
    (b"99999999999999999999999 tick 1 1\n", 8, Cause::Order),
    (b"2 begin 1 read 2\n", 8, Cause::Busy),
    (b"2 arrive 1\n", 8, Cause::Nothing),
    (b"2 reply 1 0x\n3 begin 1 read 2\n", 9, Cause::Failed),
];

#[test]
fn the_first_fault_is_named(rt: HostRuntime) -> Result<(), Fail> {
    for (line, number, cause) in REFUSED.iter() {
        let text = joined(&rt, &[OLD[0], OLD[1], OLD[2], OLD[3], line])?;
        let refused = read_record(rt.alloc(), text.as_slice()).err();
        assert_eq!(rt;
            refused,
            Some(StoreError::BadRecord {
                line: *number,
                cause: *cause
            }),
            "{line:?}"
        );
    }
    let text = joined(&rt, &[WHOLE[0], WHOLE[1], WHOLE[2], b"1 arrive 1 0x01\n"])?;
    let refused = read_record(rt.alloc(), text.as_slice()).err();
    assert_eq!(rt;
        refused,
        Some(StoreError::BadRecord {
            line: 8,
            cause: Cause::Frame
        })
    );
    Ok(())
}
