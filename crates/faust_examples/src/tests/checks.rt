use super::KEY;
use faust_types::{Bytes, Kind, Message, OpName, Operation, Version};
use faust_ustor::{JudgeError, Judged, judge};
use faust_wire::decode;
use std::alloc::Global;
use std::test::Fail;

/// Judges bytes as the reply to the first operation of client 1 of two, which writes its register. Nothing is said of
/// bytes that are no reply.
fn judged(alloc: Global, bytes: &[u8]) -> Result<Option<Judged>, JudgeError> {
    let own = Version::initial(alloc, 2)?;
    let op = Operation {
        name: OpName { client: 1, t: 1 },
        kind: Kind::Write,
        register: 1,
        dummy: false,
    };
    match decode(alloc, 1, 2, bytes) {
        Ok(Message::Reply(reply)) => Ok(Some(judge(alloc, &KEY, 1, &own, &op, &reply)?)),
        _ => Ok(None),
    }
}

#[test]
fn a_made_up_operation_breaks_check_8(rt: HostRuntime) -> Result<(), Fail> {
    let alloc = rt.alloc();
    let honest = [1, 2, 1, 0, 0, 0, 0, 0];
    let told = judged(alloc, &honest)?.ok_or("no reply")?;
    assert!(rt; !told.next.is_initial());
    // A write of client 2 is pending, says the server, but the tag isn't that of client 2.
    let mut lie = Bytes::from_slice(alloc, &[1, 2, 1, 0, 1, 2, 1, 2])?;
    lie.append(&[0; 32])?;
    lie.append(&[0, 0, 0])?;
    let broken = judged(alloc, lie.as_slice());
    assert!(rt; matches!(broken, Err(JudgeError::Check { check: 8, place: 1 })));
    Ok(())
}
