ghost use Rattle.std.specs.Prelude.{◌≡◌, IfOk, None};
ghost use Rattle.faust_types.specs.Clients.{IsClient};
ghost use Rattle.faust_types.specs.Ranges.{IsOperationNumber, IsSubmitFor};
ghost use Rattle.faust_script.specs.InRange.{IsEditFor};
ghost use Rattle.faust_liar.specs.InRange.{IsFor};

use crate::{Liar, LiarError};
use faust_script::Edit;
use faust_types::{Bytes, Kind, Message, OutOfMemory, Submit};
use faust_wire::encode;
use std::alloc::Global;
use std::process::Abort;

/// Operation t of client i of two: a write of a byte, which its tags repeat.
fn write_of(alloc: Global, i: u8, t: u64, byte: u8) -> Result<Submit, OutOfMemory>
    requires client { IsClient 2 i }
    requires number { IsOperationNumber t }
    ensures in_range { IfOk result (IsSubmitFor 2) }
    ensures alone { IfOk result (λ m. m.commit ≡ None) }
{
    Ok(Submit {
        kind: Kind::Write,
        register: i,
        t,
        value: Some(Bytes::from_slice(alloc, &[byte])?),
        submit_tag: [byte; 32],
        data_tag: [byte; 32],
        commit: None,
    })
}

/// The first operation of a client of two: a read of X1.
fn read_of_first() -> Submit
    ensures in_range { IsSubmitFor 2 result }
    ensures alone { result.commit ≡ None }
{
    Submit {
        kind: Kind::Read,
        register: 1,
        t: 1,
        value: None,
        submit_tag: [0; 32],
        data_tag: [0; 32],
        commit: None,
    }
}

/// A SUBMIT of client i of two arrives.
fn arrive(liar: &mut Liar, alloc: Global, i: u8, m: Submit) -> Result<(), OutOfMemory>
    requires liar { IsFor 1 2 liar.old }
    requires client { IsClient 2 i }
    requires message { IsSubmitFor 2 m }
    requires alone { m.commit ≡ None }
    ensures { IsFor 1 2 liar.new }
{
    let bytes = encode(alloc, 1, 2, &Message::Submit(m))?;
    liar.arrive(i, bytes)
}

/// A liar for two clients to which client 1 submitted a write of the byte `a`, and client 2 a read of it.
fn liar_of(rt: &impl Abort, alloc: Global) -> Liar
    ensures { IsFor 1 2 result }
{
    let mut liar = Liar::new(alloc, 1, 2).expect(rt, "memory");
    let write = write_of(alloc, 1, 1, b'a').expect(rt, "memory");
    arrive(&mut liar, alloc, 1, write).expect(rt, "memory");
    arrive(&mut liar, alloc, 2, read_of_first()).expect(rt, "memory");
    liar
}

/// How many bytes `next` hands out.
fn next(liar: &mut Liar, i: u8) -> Result<usize, LiarError>
    requires liar { IsFor 1 2 liar.old }
    requires client { IsClient 2 i }
    ensures { IsFor 1 2 liar.new }
{
    Ok(liar.next(i)?.len())
}

/// How many bytes `again` hands out.
fn again(liar: &mut Liar, i: u8, k: usize) -> Result<usize, LiarError>
    requires liar { IsFor 1 2 liar.old }
    requires client { IsClient 2 i }
    ensures { IsFor 1 2 liar.new }
{
    Ok(liar.again(i, k)?.len())
}

/// How many bytes `edited` hands out to client 2, and the one in place 58.
fn edited(
    liar: &mut Liar,
    edit: &Edit,
    key: Option<&[u8]>,
) -> Result<(usize, Option<u8>), LiarError>
    requires liar { IsFor 1 2 liar.old }
    requires edit { IsEditFor 2 edit.now }
    ensures { IsFor 1 2 liar.new }
{
    let bytes = liar.edited(2, edit, key)?;
    Ok((bytes.len(), bytes.as_slice().get(58).copied()))
}

#[test]
fn hands_out_replies(rt: HostRuntime) {
    let mut liar = liar_of(&rt, rt.alloc());
    assert_eq!(rt; next(&mut liar, 1), Ok(8));
    assert_eq!(rt; next(&mut liar, 1), Err(LiarError::Nothing));
    assert_eq!(rt; again(&mut liar, 2, 1), Ok(90));
    assert_eq!(rt;
        edited(&mut liar, &Edit::DropTuple(1), None),
        Ok((55, None))
    );
    assert_eq!(rt; again(&mut liar, 1, 1), Ok(8));
    assert_eq!(rt; again(&mut liar, 2, 1), Ok(90));
}

/// The expected byte is the first of HMAC with SHA-256 under the key 07 of 02 01, the number 2 in eight bytes, 01, and
/// SHA-256 of 11 61.
#[test]
fn forges_the_data_tag(rt: HostRuntime) {
    let mut liar = liar_of(&rt, rt.alloc());
    let key: &[u8] = &[7];
    assert_eq!(rt;
        edited(&mut liar, &Edit::T(2), Some(key)),
        Ok((90, Some(0x94)))
    );
}

/// Echoes, routes and branches of the liar, and what is refused of them.
fn lie_by_branches(liar: &mut Liar) -> Result<(), LiarError>
    requires { IsFor 1 2 liar.old }
    ensures { IsFor 1 2 liar.new }
{
    liar.branch(0, 1)?;
    liar.echo(1, 1, 1)?;
    liar.route(1, 1)
}

#[test]
fn branches_go_their_ways(rt: HostRuntime) {
    let alloc = rt.alloc();
    let mut liar = liar_of(&rt, alloc);
    assert_eq!(rt; lie_by_branches(&mut liar), Ok(()));
    let write = write_of(alloc, 1, 2, b'b').expect(&rt, "memory");
    assert_eq!(rt; arrive(&mut liar, alloc, 1, write), Ok(()));
    assert_eq!(rt; again(&mut liar, 1, 2), Ok(43));
}
