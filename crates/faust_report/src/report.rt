ghost use Rattle.std.specs.Prelude.{◌≡◌, ◌++◌, flat_map, IfOk, OnOk};
ghost use Rattle.faust_text.specs.Lines.{ended_text};
ghost use Rattle.faust_report.specs.Text.{body_lines, body_text, entry_lines, fact_lines, report_text};

use crate::entry_lines::put_fact;
use crate::lines::{put_clients_line, put_departure, put_entries_line, put_order, put_views};
use faust_record::{Fact, Findings};
use faust_types::{Answer, Bytes, OutOfMemory};
use std::alloc::Global;

// About how many bytes the first lines have, a line without its value, and a number of a cut.
const ROOM_FOR_HEAD: usize = 4_096;

const ROOM_FOR_LINE: usize = 64;

const ROOM_FOR_NUMBER: usize = 6;

/// The report of the findings.
pub fn text(alloc: Global, findings: &Findings) -> Result<Bytes, OutOfMemory>
    ensures { IfOk result (λ text. text ≡ report_text findings.now) }
{
    let mut out = Bytes::new(alloc);
    out.reserve(room_for(findings))?;
    out.append(b"faust report 1\n")?;
    put_body(&mut out, findings)?;
    put_departure(&mut out, findings.departure)?;
    put_order(&mut out, findings.departure, &findings.order)?;
    out.append(b"end\n")?;
    Ok(out)
}

// About how many bytes the report has, so that one allocation mostly serves it.
fn room_for(findings: &Findings) -> usize {
    let mut room = ROOM_FOR_HEAD;
    for fact in findings.facts.as_slice() {
        room = room.saturating_add(room_for_fact(fact));
    }
    room
}

fn room_for_fact(fact: &Fact) -> usize {
    let value = match &fact.done {
        Some(
            Answer {
                value: Some(value),
                ..
            },
        ) => value.len(),
        _ => 0,
    };
    let cut = match &fact.cut {
        Some(cut) => cut.len().saturating_mul(ROOM_FOR_NUMBER),
        None => 0,
    };
    value.saturating_add(cut).saturating_add(ROOM_FOR_LINE)
}

/// The lines of the report from the number of clients to the last view.
pub fn body(alloc: Global, findings: &Findings) -> Result<Bytes, OutOfMemory>
    ensures { IfOk result (λ text. text ≡ body_text findings.now) }
{
    let mut out = Bytes::new(alloc);
    put_body(&mut out, findings)?;
    Ok(out)
}

/// Puts the lines up to the last view behind the text.
fn put_body(out: &mut Bytes, findings: &Findings) -> Result<(), OutOfMemory>
    ensures { OnOk result (out.new ≡ out.old ++ ended_text (body_lines findings.now)) }
{
    put_entries(out, findings)?;
    put_views(out, findings.views.as_slice())
}

/// Puts the lines up to those of the last entry behind the text.
fn put_entries(out: &mut Bytes, findings: &Findings) -> Result<(), OutOfMemory>
    ensures { OnOk result (out.new ≡ out.old ++ ended_text (entry_lines findings.now)) }
{
    put_clients_line(out, findings.clients)?;
    put_entries_line(out, findings.entries)?;
    put_facts(out, findings.facts.as_slice())
}

fn put_facts(out: &mut Bytes, facts: &[Fact]) -> Result<(), OutOfMemory>
    ensures { OnOk result (out.new ≡ out.old ++ ended_text (flat_map fact_lines facts.now)) }
{
    for fact in facts {
        put_fact(out, fact)?;
    }
    Ok(())
}
