// The few numbers that are told of a run.
ghost use Rattle.std.specs.Prelude.{◌≡◌, ◌^◌, ◌<◌, [], ◌∷◌, ◌++◌, IfOk, OnOk};
ghost use Rattle.faust_outcome.specs.Outcomes.{live_line, receipts_in, short_text, user_operations_line};
ghost use Rattle.faust_outcome.specs.Words.{IsInRange};

use crate::words::LiveCommand;
use faust_node::Receipt;
use faust_receipts::Receipts;
use faust_record::Findings;
use faust_report::{put_departure, put_failures};
use faust_text::put_number;
use faust_types::{Bytes, OutOfMemory, Sequence};
use std::alloc::Global;

/// The short text of a live run: the findings of its record, and what its users were told.
pub(crate) fn short_text(
    alloc: Global,
    command: &LiveCommand,
    receipts: &Receipts,
    findings: &Findings,
) -> Result<Bytes, OutOfMemory>
    requires range { IsInRange command.now }
    requires few { receipts_in receipts.now < 2 ^ 64 }
    ensures { IfOk result (λ text. text ≡ short_text command.now.clients command.now.ops receipts.now findings.now) }
{
    let made = receipts_in(receipts.as_slice());
    let of = u64::from(command.clients) * command.ops;
    let mut out = Bytes::new(alloc);
    put_clients(&mut out, command.clients)?;
    put_operations(&mut out, made, of)?;
    put_departure(&mut out, findings.departure)?;
    put_failures(&mut out, findings.facts.as_slice())?;
    out.append(b"end\n")?;
    Ok(out)
}

/// How many receipts all users have.
fn receipts_in(receipts: &[Sequence<Receipt>]) -> u64
    requires { receipts_in receipts.now < 2 ^ 64 }
    ensures { result ≡ receipts_in receipts.now }
{
    let mut count = 0;
    for told in receipts {
        count += told.len() as u64;
    }
    count
}

fn put_clients(out: &mut Bytes, clients: u8) -> Result<(), OutOfMemory>
    ensures { OnOk result (out.new ≡ out.old ++ (live_line clients ++ 10 ∷ [])) }
{
    out.append(b"live clients ")?;
    put_number(out, u64::from(clients))?;
    out.push(b'\n')
}

fn put_operations(out: &mut Bytes, made: u64, of: u64) -> Result<(), OutOfMemory>
    ensures { OnOk result (out.new ≡ out.old ++ (user_operations_line made of ++ 10 ∷ [])) }
{
    out.append(b"user operations ")?;
    put_number(out, made)?;
    out.append(b" of ")?;
    put_number(out, of)?;
    out.push(b'\n')
}
