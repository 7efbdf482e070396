ghost use Rattle.std.specs.Prelude.{◌≡◌, [], ◌∷◌, ◌++◌, flat_map, map, IfOk, OnOk};
ghost use Rattle.serde_json.specs.View.{view};
ghost use Rattle.faust_report.specs.Json.{cut_data, cuts_in, departure_data, done_in, failure_data, failures_in, json_text, list_data, name_data, names_data, number_data, order_data, report_data};

use faust_record::{Fact, Findings};
use faust_types::{Bytes, Cut, Names, Notice, OpName, OutOfMemory};
use serde_json::{Value, json};
use std::alloc::{AllocError, Global};

/// The report of the findings as JSON.
pub fn json(alloc: Global, findings: &Findings) -> Result<Bytes, OutOfMemory>
    ensures { IfOk result (λ text. text ≡ json_text findings.now) }
{
    let report = report_value(alloc, findings)?;
    let line = report.to_string(alloc)?;
    let mut text = Bytes::from_vec(line.into_bytes());
    text.push(b'\n')?;
    Ok(text)
}

fn report_value(alloc: Global, findings: &Findings) -> Result<Value, AllocError>
    ensures { IfOk result (λ report. view report ≡ report_data findings.now) }
{
    let facts = findings.facts.as_slice();
    let cuts = cuts_value(alloc, facts)?;
    let departure = departure_value(findings.departure);
    let done = done_value(alloc, facts)?;
    let failures = failures_value(alloc, facts)?;
    let order = order_value(alloc, findings.departure, &findings.order)?;
    let views = views_value(alloc, findings.views.as_slice())?;
    json!(in alloc; {
        "clients": findings.clients,
        "cuts": cuts,
        "departure": departure,
        "done": done,
        "entries": findings.entries,
        "failures": failures,
        "order": order,
        "views": views
    })
}

fn cuts_value(alloc: Global, facts: &[Fact]) -> Result<Value, AllocError>
    ensures { IfOk result (λ cuts. view cuts ≡ list_data (flat_map cuts_in facts.now)) }
{
    let mut cuts = Vec::new(alloc);
    for fact in facts {
        push_cut(&mut cuts, alloc, fact)?;
    }
    Ok(Value::Array(cuts))
}

fn push_cut(cuts: &mut Vec<Value>, alloc: Global, fact: &Fact) -> Result<(), AllocError>
    ensures { OnOk result (map view cuts.new.items ≡ map view cuts.old.items ++ cuts_in fact.now) }
{
    match &fact.cut {
        None => Ok(()),
        Some(cut) => {
            let cut = cut_value(alloc, fact.entry, fact.client, cut)?;
            serde_json::push(cuts, cut)
        }
    }
}

fn cut_value(alloc: Global, entry: u64, client: u8, cut: &Cut) -> Result<Value, AllocError>
    ensures { IfOk result (λ value. view value ≡ cut_data entry client cut.now) }
{
    let numbers = numbers_value(alloc, cut.as_slice())?;
    json!(in alloc; {"client": client, "cut": numbers, "entry": entry})
}

fn numbers_value(alloc: Global, numbers: &[u64]) -> Result<Value, AllocError>
    ensures { IfOk result (λ value. view value ≡ list_data (map number_data numbers.now)) }
{
    let mut list = Vec::new(alloc);
    for x in numbers {
        push_number(&mut list, *x)?;
    }
    Ok(Value::Array(list))
}

fn push_number(list: &mut Vec<Value>, x: u64) -> Result<(), AllocError>
    ensures { OnOk result (map view list.new.items ≡ map view list.old.items ++ number_data x ∷ []) }
{
    serde_json::push(list, Value::from(x))
}

fn done_value(alloc: Global, facts: &[Fact]) -> Result<Value, AllocError>
    ensures { IfOk result (λ done. view done ≡ list_data (flat_map done_in facts.now)) }
{
    let mut done = Vec::new(alloc);
    for fact in facts {
        push_done(&mut done, alloc, fact)?;
    }
    Ok(Value::Array(done))
}

fn push_done(done: &mut Vec<Value>, alloc: Global, fact: &Fact) -> Result<(), AllocError>
    ensures { OnOk result (map view done.new.items ≡ map view done.old.items ++ done_in fact.now) }
{
    match &fact.done {
        None => Ok(()),
        Some(answer) => push_name(done, alloc, answer.op.name),
    }
}

fn push_name(list: &mut Vec<Value>, alloc: Global, name: OpName) -> Result<(), AllocError>
    ensures { OnOk result (map view list.new.items ≡ map view list.old.items ++ name_data name ∷ []) }
{
    let name = name_value(alloc, name)?;
    serde_json::push(list, name)
}

fn name_value(alloc: Global, name: OpName) -> Result<Value, AllocError>
    ensures { IfOk result (λ value. view value ≡ name_data name) }
{
    Ok(Value::String(format!(in alloc; "{}.{}", name.client, name.t)?))
}

fn failures_value(alloc: Global, facts: &[Fact]) -> Result<Value, AllocError>
    ensures { IfOk result (λ failures. view failures ≡ list_data (flat_map failures_in facts.now)) }
{
    let mut failures = Vec::new(alloc);
    for fact in facts {
        push_failure(&mut failures, alloc, fact)?;
    }
    Ok(Value::Array(failures))
}

fn push_failure(failures: &mut Vec<Value>, alloc: Global, fact: &Fact) -> Result<(), AllocError>
    ensures { OnOk result (map view failures.new.items ≡ map view failures.old.items ++ failures_in fact.now) }
{
    match fact.notice {
        None => Ok(()),
        Some(notice) => {
            let failure = failure_value(alloc, fact.entry, fact.client, notice)?;
            serde_json::push(failures, failure)
        }
    }
}

fn failure_value(alloc: Global, entry: u64, client: u8, notice: Notice) -> Result<Value, AllocError>
    ensures { IfOk result (λ value. view value ≡ failure_data entry client notice) }
{
    json!(in alloc; {
        "check": notice.check,
        "client": client,
        "entry": entry,
        "place": notice.place
    })
}

fn departure_value(departure: Option<u64>) -> Value
    ensures { view result ≡ departure_data departure }
{
    match departure {
        None => Value::Null,
        Some(entry) => Value::from(entry),
    }
}

fn order_value(alloc: Global, departure: Option<u64>, order: &Names) -> Result<Value, AllocError>
    ensures { IfOk result (λ value. view value ≡ order_data departure order.now) }
{
    match departure {
        None => names_value(alloc, order.as_slice()),
        Some(_) => Ok(Value::Null),
    }
}

fn views_value(alloc: Global, views: &[Names]) -> Result<Value, AllocError>
    ensures { IfOk result (λ value. view value ≡ list_data (map names_data views.now)) }
{
    let mut list = Vec::new(alloc);
    for names in views {
        push_names(&mut list, alloc, names)?;
    }
    Ok(Value::Array(list))
}

fn push_names(list: &mut Vec<Value>, alloc: Global, names: &Names) -> Result<(), AllocError>
    ensures { OnOk result (map view list.new.items ≡ map view list.old.items ++ names_data names.now ∷ []) }
{
    let names = names_value(alloc, names.as_slice())?;
    serde_json::push(list, names)
}

fn names_value(alloc: Global, names: &[OpName]) -> Result<Value, AllocError>
    ensures { IfOk result (λ value. view value ≡ names_data names.now) }
{
    let mut list = Vec::new(alloc);
    for name in names {
        push_name(&mut list, alloc, *name)?;
    }
    Ok(Value::Array(list))
}
