ghost use Rattle.faust_record.specs.Refusals.{IsPushInput};

use super::config;
use faust_audit::{Premises, departure, premises};
use faust_record::{PushError, PushInput, RunRecord};
use faust_types::{Bytes, OpName};
use faust_views::view;
use std::alloc::Global;
use std::test::Fail;

/// Keeps one more event of a client of the run.
fn keep(run: &mut RunRecord, client: u8, input: PushInput) -> Result<(), PushError>
    requires { IsPushInput input }
{
    if client < 1 || client > run.config().clients {
        return Err(PushError::NoRegister);
    }
    run.push(client, input)
}

/// Client 1 writes, client 2 reads, and each gets the reply of a server that nothing else reached.
fn forked_run(alloc: Global) -> Result<RunRecord, PushError> {
    let mut run = RunRecord::new(alloc, config(alloc)?)?;
    let value = Bytes::from_slice(alloc, b"buy milk")?;
    let to_write = Bytes::from_slice(alloc, &[1, 2, 1, 0, 0, 0, 0, 0])?;
    let to_read = Bytes::from_slice(alloc, &[1, 2, 1, 0, 0, 0, 0, 1, 1, 0, 0])?;
    keep(&mut run, 1, PushInput::Write(value))?;
    keep(&mut run, 1, PushInput::Arrive)?;
    keep(&mut run, 1, PushInput::Reply(to_write))?;
    keep(&mut run, 2, PushInput::Read(1))?;
    keep(&mut run, 2, PushInput::Arrive)?;
    keep(&mut run, 2, PushInput::Reply(to_read))?;
    Ok(run)
}

#[test]
fn a_fork_departs_although_no_client_was_told(rt: HostRuntime) -> Result<(), Fail> {
    let alloc = rt.alloc();
    let run = forked_run(alloc)?;
    assert!(rt; matches!(premises(alloc, &run)?, Premises::Clean));
    assert_eq!(rt; departure(alloc, &run)?, Some(5));
    assert!(rt; run.len() < 1 << 27);
    let first = [OpName { client: 1, t: 1 }];
    let second = [OpName { client: 2, t: 1 }];
    assert_eq!(rt; view(alloc, &run, 1)?.as_slice(), first.as_slice());
    assert_eq!(rt; view(alloc, &run, 2)?.as_slice(), second.as_slice());
    Ok(())
}
