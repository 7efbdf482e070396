ghost use Rattle.std.specs.Prelude.{◌≡◌, length, is_some, option_copied, IfOk};
ghost use Rattle.faust_record.specs.Operations.{started_among, started_in};
ghost use Rattle.faust_audit.specs.Findings.{fact_of, facts_of, findings_of};

use crate::departing::departure;
use crate::ordering::order;
use faust_record::{Entry, Fact, Facts, Findings, Input, RunRecord, Views};
use faust_types::{Answer, Clients, Cut, OutOfMemory};
use std::alloc::Global;

/// All that a report of a run shows, beside the lists of operations that clients saw, which are handed in. The order
/// stands there also where a reply departed.
#[tactic(auto, unfolding(crate::specs::Findings::findings_of))]
pub fn findings(alloc: Global, rec: &RunRecord, views: Views) -> Result<Findings, OutOfMemory>
    ensures { IfOk result (λ found. found ≡ findings_of rec.now views) }
{
    Ok(Findings {
        clients: rec.config().clients,
        entries: rec.len(),
        begun: begun_count(rec),
        facts: facts(alloc, rec)?,
        views,
        departure: departure(alloc, rec)?,
        order: order(alloc, rec)?,
    })
}

/// How many operations began, by users or by ticks.
fn begun_count(rec: &RunRecord) -> u64
    ensures { result ≡ length (started_among rec.now.entries) }
{
    let mut begun = 0;
    for q in 0..rec.len() {
        if begins(rec.entry_at(q)) {
            begun += 1;
        }
    }
    begun
}

/// Whether an operation begins in an entry.
fn begins(entry: &Entry) -> bool
    ensures { result ≡ is_some (started_in entry.now) }
{
    match &entry.input {
        Input::Write(_) | Input::Read(_) => true,
        Input::Tick(_) => entry.outcome.began().is_some(),
        Input::Reply(_) | Input::Peer(_) | Input::Arrive(_) => false,
    }
}

/// One fact for each entry that isn't an arrival.
fn facts(alloc: Global, rec: &RunRecord) -> Result<Facts, OutOfMemory>
    ensures { IfOk result (λ facts. facts ≡ facts_of rec.now.entries) }
{
    let mut facts = Facts::new(alloc);
    facts.reserve(rec.len() as usize)?;
    for q in 0..rec.len() {
        let entry = rec.entry_at(q);
        if entry.input.is_act() {
            facts.push(fact_of(alloc, entry)?)?;
        }
    }
    Ok(facts)
}

/// What an entry gave its client.
fn fact_of(alloc: Global, entry: &Entry) -> Result<Fact, OutOfMemory>
    ensures { IfOk result (λ fact. fact ≡ fact_of entry.now) }
{
    let given = &entry.outcome;
    Ok(Fact {
        entry: entry.number,
        client: entry.client,
        done: copy_of_answer(given.answer())?,
        cut: copy_of_cut(given.cut())?,
        probed: Clients::from_slice(alloc, given.probed())?,
        dummy: given.began(),
        notice: given.notice(),
    })
}

fn copy_of_answer(answer: Option<&Answer>) -> Result<Option<Answer>, OutOfMemory>
    ensures { IfOk result (λ copy. copy ≡ option_copied answer.entry) }
{
    match answer {
        None => Ok(None),
        Some(answer) => Ok(Some(answer.copy()?)),
    }
}

fn copy_of_cut(cut: Option<&Cut>) -> Result<Option<Cut>, OutOfMemory>
    ensures { IfOk result (λ copy. copy ≡ option_copied cut.entry) }
{
    match cut {
        None => Ok(None),
        Some(cut) => Ok(Some(cut.copy()?)),
    }
}
