ghost use Rattle.std.specs.Prelude.{◌≡◌, ◌<◌, ◌++◌, cond, codes, length, option_copied, Some, None, IfOk};
ghost use Rattle.std.specs.Str.{bytes_eq};
ghost use Rattle.faust_report.specs.Text.{done_line};
ghost use Rattle.faust_receipts.specs.Comparing.{first_difference, told_among, told_in, with_number};
ghost use Rattle.faust_receipts.specs.Lines.{differs_line, first_differing_of, told_line};

use crate::receipt::Receipts;
use faust_node::Receipt;
use faust_record::{Entry, RunRecord};
use faust_report::put_done_line;
use faust_types::{Answer, Bytes, OutOfMemory};
use std::alloc::Global;

/// The line of the first receipt that differs from the completion of the operation that its user began at that place:
/// by users in ascending order, each in the order of its calls. None exactly where none differs.
pub fn differs(
    alloc: Global,
    rec: &RunRecord,
    receipts: &Receipts,
) -> Result<Option<Bytes>, OutOfMemory>
    requires { length receipts.now ≡ rec.now.config.clients }
    ensures { IfOk result (λ line. line ≡ first_differing_of rec.now.entries 1 receipts.now) }
{
    let _config = rec.config();
    for (place, told) in receipts.as_slice().iter().enumerate() {
        let line = first_difference(alloc, rec, place as u64 + 1, told.as_slice())?;
        if line.is_some() {
            return Ok(line);
        }
    }
    Ok(None)
}

/// The same of the receipts of one user, in one pass over the record: its operations complete in the order in which it
/// began them.
fn first_difference(
    alloc: Global,
    rec: &RunRecord,
    client: u64,
    told: &[Receipt],
) -> Result<Option<Bytes>, OutOfMemory>
    ensures { IfOk result (λ line. line ≡ first_difference told.now (told_among client rec.now.entries)) }
{
    let mut next = 0;
    for q in 0..rec.len() {
        if next == told.len() {
            return Ok(None);
        }
        let entry = rec.entry_at(q);
        match told_in(entry, client) {
            None => {}
            Some(answer) => {
                let line = difference(alloc, &told[next], entry.number, answer)?;
                if line.is_some() {
                    return Ok(line);
                }
                next += 1;
            }
        }
    }
    if next == told.len() {
        return Ok(None);
    }
    Ok(Some(line_without_completion(alloc, &told[next])?))
}

/// The answer that an entry gives to a client's user, if it gives one.
fn told_in(entry: &Entry, client: u64) -> Option<&Answer>
    ensures { with_number entry.now.number (option_copied result) ≡ told_in client entry.now }
{
    if u64::from(entry.client) != client {
        return None;
    }
    match entry.outcome.answer() {
        Some(answer) if !answer.op.dummy => Some(answer),
        _ => None,
    }
}

/// The line of a receipt, where the operation completed otherwise.
fn difference(
    alloc: Global,
    receipt: &Receipt,
    number: u64,
    answer: &Answer,
) -> Result<Option<Bytes>, OutOfMemory>
    ensures { IfOk result (λ line. line ≡ cond (bytes_eq (told_line receipt.now) (done_line number answer.now))
        None (Some (differs_line receipt.now (Some (record { answer = answer.now; number = number }))))) }
{
    let told = done_line(alloc, receipt.number, &receipt.answer)?;
    let due = done_line(alloc, number, answer)?;
    if told.as_slice() == due.as_slice() {
        return Ok(None);
    }
    Ok(Some(differs_line(alloc, told.as_slice(), due.as_slice())?))
}

/// The line of a receipt, where no operation completed.
fn line_without_completion(alloc: Global, receipt: &Receipt) -> Result<Bytes, OutOfMemory>
    ensures { IfOk result (λ line. line ≡ differs_line receipt.now None) }
{
    let told = done_line(alloc, receipt.number, &receipt.answer)?;
    differs_line(alloc, told.as_slice(), b"none")
}

fn done_line(alloc: Global, number: u64, answer: &Answer) -> Result<Bytes, OutOfMemory>
    ensures { IfOk result (λ line. line ≡ done_line number answer.now) }
{
    let mut line = Bytes::new(alloc);
    put_done_line(&mut line, number, answer)?;
    Ok(line)
}

fn differs_line(alloc: Global, told: &[u8], due: &[u8]) -> Result<Bytes, OutOfMemory>
    ensures { IfOk result (λ line. line ≡ codes "receipt differs: " ++ (told.now ++ (codes " | " ++ due.now))) }
{
    let mut line = Bytes::from_slice(alloc, b"receipt differs: ")?;
    line.append(told)?;
    line.append(b" | ")?;
    line.append(due)?;
    Ok(line)
}
