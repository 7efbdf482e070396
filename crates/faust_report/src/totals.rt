ghost use Rattle.std.specs.Prelude.{◌≡◌, ◌≤◌, ◌==◌, [], ◌∷◌, ◌++◌, length, IfOk, OnOk};
ghost use Rattle.std.specs.List.{list_all};
ghost use Rattle.std.specs.Option.{option_copied};
ghost use Rattle.faust_report.specs.Summary.{completed, completed_by, cut_in, cuts_line, failures_line, has_whole_cut, last_cut, notices, operations_line, sample_line, seed_text, summary_text, whole_cuts};

use crate::lines::{put_clients_line, put_departure, put_entries_line};
use faust_record::{Fact, Findings};
use faust_text::put_number;
use faust_types::{Bytes, Cut, OutOfMemory};
use std::alloc::Global;

/// The summary of the findings of a run that was made from a seed.
pub fn summary(alloc: Global, findings: &Findings, seed: u64) -> Result<Bytes, OutOfMemory>
    ensures { IfOk result (λ text. text ≡ summary_text seed findings.now) }
{
    let facts = findings.facts.as_slice();
    let mut out = Bytes::new(alloc);
    put_sample(&mut out, seed, findings.clients)?;
    put_entries_line(&mut out, findings.entries)?;
    put_operations(&mut out, findings.begun, facts)?;
    put_departure(&mut out, findings.departure)?;
    put_failures(&mut out, facts)?;
    put_cuts(&mut out, facts, findings.clients)?;
    out.append(b"end\n")?;
    Ok(out)
}

fn put_sample(out: &mut Bytes, seed: u64, clients: u8) -> Result<(), OutOfMemory>
    ensures { OnOk result (out.new ≡ out.old ++ (sample_line seed clients ++ 10 ∷ [])) }
{
    out.append(b"sample ")?;
    put_seed(out, seed)?;
    out.push(b' ')?;
    put_clients_line(out, clients)
}

fn put_seed(out: &mut Bytes, seed: u64) -> Result<(), OutOfMemory>
    ensures { OnOk result (out.new ≡ out.old ++ seed_text seed) }
{
    out.append(b"seed ")?;
    put_number(out, seed)
}

fn put_operations(out: &mut Bytes, begun: u64, facts: &[Fact]) -> Result<(), OutOfMemory>
    ensures { OnOk result (out.new ≡ out.old ++ (operations_line begun (completed facts.now) ++ 10 ∷ [])) }
{
    out.append(b"operations ")?;
    put_number(out, begun)?;
    out.append(b" completed ")?;
    put_number(out, completed(facts) as u64)?;
    out.push(b'\n')
}

/// Puts the line of how many notices there are behind the text.
pub fn put_failures(out: &mut Bytes, facts: &[Fact]) -> Result<(), OutOfMemory>
    ensures { OnOk result (out.new ≡ out.old ++ (failures_line (notices facts.now) ++ 10 ∷ [])) }
{
    out.append(b"failures ")?;
    put_number(out, notices(facts) as u64)?;
    out.push(b'\n')
}

fn put_cuts(out: &mut Bytes, facts: &[Fact], clients: u8) -> Result<(), OutOfMemory>
    ensures { OnOk result (out.new ≡ out.old ++ (cuts_line (whole_cuts facts.now clients) clients ++ 10 ∷ [])) }
{
    out.append(b"cuts whole ")?;
    put_number(out, u64::from(whole_cuts(facts, clients)))?;
    out.append(b" of ")?;
    put_number(out, u64::from(clients))?;
    out.push(b'\n')
}

fn completed(facts: &[Fact]) -> usize
    ensures { result ≡ completed facts.now }
{
    let mut done = 0;
    for fact in facts {
        if fact.done.is_some() {
            done += 1;
        }
    }
    done
}

fn completed_by(facts: &[Fact], client: u8) -> usize
    ensures { result ≡ completed_by client facts.now }
{
    facts
        .iter()
        .filter(|fact| fact.client == client && fact.done.is_some())
        .count()
}

/// How many notices there are among the facts.
fn notices(facts: &[Fact]) -> usize
    ensures { result ≡ notices facts.now }
{
    let mut notices = 0;
    for fact in facts {
        if fact.notice.is_some() {
            notices += 1;
        }
    }
    notices
}

/// How many of clients 1 to `clients` have a whole cut.
fn whole_cuts(facts: &[Fact], clients: u8) -> u8
    ensures { result ≡ whole_cuts facts.now clients }
{
    let mut whole = 0;
    for before in 0..clients {
        if has_whole_cut(facts, before + 1) {
            whole += 1;
        }
    }
    whole
}

fn has_whole_cut(facts: &[Fact], client: u8) -> bool
    ensures { result ≡ has_whole_cut facts.now client }
{
    let number = completed_by(facts, client) as u64;
    match last_cut(facts, client) {
        None => number == 0,
        Some(cut) => is_each(cut.as_slice(), number),
    }
}

fn is_each(cut: &[u64], number: u64) -> bool
    ensures { result ≡ list_all (λ entry. entry == number) cut.now }
{
    cut.iter().all(|entry| *entry == number)
}

/// The last cut of a client: none where it never changed.
fn last_cut(facts: &[Fact], client: u8) -> Option<&Cut>
    ensures { option_copied result ≡ last_cut client facts.now }
{
    let mut last = None;
    for fact in facts {
        last = cut_in(fact, client).or(last);
    }
    last
}

fn cut_in(fact: &Fact, client: u8) -> Option<&Cut>
    ensures { option_copied result ≡ cut_in client fact.now }
{
    if fact.client == client {
        fact.cut.as_ref()
    } else {
        None
    }
}
