ghost use Rattle.std.specs.Prelude.{◌≡◌, length, IfOk};
ghost use Rattle.std.specs.List.{list_any};
ghost use Rattle.faust_record.specs.Laws.{acts_of};
ghost use Rattle.faust_record.specs.Runs.{entries_of};
ghost use Rattle.faust_receipts.specs.Lines.{first_short, has_notice, has_stopped, short_line};

use crate::receipt::Receipts;
use faust_record::{MAX_ENTRIES, RunRecord};
use faust_text::put_number;
use faust_types::{Bytes, OutOfMemory};
use std::alloc::Global;

/// The line of the least user that has fewer than `ops` receipts, though its client has neither a notice nor 200,000
/// entries in the record, arrivals not counted. None exactly where there is none.
pub fn short(
    alloc: Global,
    rec: &RunRecord,
    receipts: &Receipts,
    ops: u64,
) -> Result<Option<Bytes>, OutOfMemory>
    requires { length receipts.now ≡ rec.now.config.clients }
    ensures { IfOk result (λ line. line ≡ first_short rec.now.entries ops 1 receipts.now) }
{
    for (place, told) in receipts.as_slice().iter().enumerate() {
        let client = place as u64 + 1;
        let has = told.len() as u64;
        if has < ops && !has_stopped(rec, client) {
            return Ok(Some(short_line(alloc, client, has, ops)?));
        }
    }
    Ok(None)
}

fn short_line(alloc: Global, client: u64, has: u64, ops: u64) -> Result<Bytes, OutOfMemory>
    ensures { IfOk result (λ line. line ≡ short_line client has ops) }
{
    let mut line = Bytes::from_slice(alloc, b"receipts short: user ")?;
    put_number(&mut line, client)?;
    line.append(b" has ")?;
    put_number(&mut line, has)?;
    line.append(b" of ")?;
    put_number(&mut line, ops)?;
    Ok(line)
}

/// Whether a client has a notice, or as many entries as a journal may have.
fn has_stopped(rec: &RunRecord, client: u64) -> bool
    ensures { result ≡ has_stopped rec.now.entries client }
{
    has_notice(rec, client) || acts(rec, client) == MAX_ENTRIES as u64
}

fn has_notice(rec: &RunRecord, client: u64) -> bool
    ensures { result ≡ list_any has_notice (entries_of client rec.now.entries) }
{
    for q in 0..rec.len() {
        let entry = rec.entry_at(q);
        if u64::from(entry.client) == client && entry.outcome.notice().is_some() {
            return true;
        }
    }
    false
}

/// How many entries a client has that are no arrivals.
fn acts(rec: &RunRecord, client: u64) -> u64
    ensures { result ≡ length (acts_of client rec.now.entries) }
{
    let mut acts = 0;
    for q in 0..rec.len() {
        let entry = rec.entry_at(q);
        if u64::from(entry.client) == client && entry.input.is_act() {
            acts += 1;
        }
    }
    acts
}
