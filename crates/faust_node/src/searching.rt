// Where a cell's journal has the answer to an operation.
ghost use Rattle.std.specs.Prelude.{◌≡◌, ◌<◌, ◌≤◌, ◌↔◌, IsTrue, IfOk, IfSome, false, length};
ghost use Rattle.faust_node.specs.Answers.{IsPlain};
ghost use Rattle.faust_node.specs.Receipts.{FindsReceipt, GivesReceipt, IsAnswerTo};

use crate::cell::NodeCell;
use crate::receipt::Receipt;
use crate::session::Session;
use faust_record::Entry;
use faust_types::{Answer, Kind, Operation, OutOfMemory};

impl<T: Session> NodeCell<T> {
    /// The receipt of an operation that no tick began, if an entry from this place on answers it.
    pub fn receipt_from(&self, from: u64, op: Operation) -> Result<Option<Receipt>, OutOfMemory>
        ensures { IfOk result (FindsReceipt self.now.log.entries from op) }
    {
        for place in from..self.journal().len() {
            if let Some(entry) = self.journal().entry(place) {
                if let Some(receipt) = receipt_of(entry, op)? {
                    return Ok(Some(receipt));
                }
            }
        }
        Ok(None)
    }
}

// The receipt of an operation, if this entry answers it.
fn receipt_of(entry: &Entry, op: Operation) -> Result<Option<Receipt>, OutOfMemory>
    ensures { IfOk result (GivesReceipt entry.now op) }
{
    match entry.outcome.answer() {
        Some(answer) => {
            if !is_answer_to(answer, op) {
                return Ok(None);
            }
            Ok(Some(Receipt::new(entry.number, answer.copy()?)))
        }
        None => Ok(None),
    }
}

fn is_answer_to(answer: &Answer, op: Operation) -> bool
    ensures { IsTrue result ↔ IsAnswerTo op answer.now }
{
    answer.op == op && !op.dummy && is_plain(answer)
}

// An answer to a write has its client's register, no value, and `asof` 0.
fn is_plain(answer: &Answer) -> bool
    ensures { IsTrue result ↔ IsPlain answer.now }
{
    match answer.op.kind {
        Kind::Read => true,
        Kind::Write => {
            answer.op.register == answer.op.name.client
                && answer.value.is_none()
                && answer.asof == 0
        }
    }
}
