// The lines of an entry, each only where it applies.
ghost use Rattle.std.specs.Prelude.{◌≡◌, [], ◌∷◌, ◌++◌, OnOk};
ghost use Rattle.faust_text.specs.Lines.{ended_text};
ghost use Rattle.faust_types.specs.declared.operation.Kind.TheVariants.{Read, Write};
ghost use Rattle.faust_report.specs.Text.{answer_text, cut_line, done_line, dummy_line, fact_lines, fail_line, if_any, if_some, notice_text, probe_line};

use crate::pieces::{
    put_client, put_client_clients, put_client_numbers, put_name, put_read_value, put_register,
};
use faust_record::Fact;
use faust_text::put_number;
use faust_types::{Answer, Bytes, Clients, Cut, Kind, Notice, Operation, OutOfMemory};

/// Puts the lines of an entry behind the text.
pub(crate) fn put_fact(out: &mut Bytes, fact: &Fact) -> Result<(), OutOfMemory>
    ensures { OnOk result (out.new ≡ out.old ++ ended_text (fact_lines fact.now)) }
{
    put_done(out, fact.entry, &fact.done)?;
    put_cut(out, fact.entry, fact.client, &fact.cut)?;
    put_probed(out, fact.entry, fact.client, &fact.probed)?;
    put_dummy(out, fact.entry, fact.dummy)?;
    put_notice(out, fact.entry, fact.client, fact.notice)
}

fn put_done(out: &mut Bytes, entry: u64, done: &Option<Answer>) -> Result<(), OutOfMemory>
    ensures { OnOk result (out.new ≡ out.old ++ ended_text (if_some (done_line entry) done.now)) }
{
    match done {
        None => Ok(()),
        Some(answer) => put_answer(out, entry, answer),
    }
}

fn put_answer(out: &mut Bytes, entry: u64, answer: &Answer) -> Result<(), OutOfMemory>
    ensures { OnOk result (out.new ≡ out.old ++ (done_line entry answer.now ++ 10 ∷ [])) }
{
    put_done_line(out, entry, answer)?;
    out.push(b'\n')
}

/// Puts the line of a completed operation behind the text, without a line feed.
pub fn put_done_line(out: &mut Bytes, entry: u64, answer: &Answer) -> Result<(), OutOfMemory>
    ensures { OnOk result (out.new ≡ out.old ++ done_line entry answer.now) }
{
    put_number(out, entry)?;
    out.append(b" done ")?;
    put_name(out, answer.op.name)?;
    out.push(b' ')?;
    put_answer_text(out, answer)
}

fn put_answer_text(out: &mut Bytes, answer: &Answer) -> Result<(), OutOfMemory>
    ensures { OnOk result (out.new ≡ out.old ++ answer_text answer.now.op.kind answer.now) }
{
    match answer.op.kind {
        Kind::Write => put_write(out, answer),
        Kind::Read => put_read(out, answer),
    }
}

fn put_write(out: &mut Bytes, answer: &Answer) -> Result<(), OutOfMemory>
    ensures { OnOk result (out.new ≡ out.old ++ answer_text Write answer.now) }
{
    out.append(b"write ")?;
    put_register(out, answer.op.register)
}

fn put_read(out: &mut Bytes, answer: &Answer) -> Result<(), OutOfMemory>
    ensures { OnOk result (out.new ≡ out.old ++ answer_text Read answer.now) }
{
    out.append(b"read ")?;
    put_register(out, answer.op.register)?;
    out.push(b' ')?;
    put_read_value(out, &answer.value)?;
    out.append(b" asof ")?;
    put_number(out, answer.asof)
}

fn put_cut(out: &mut Bytes, entry: u64, client: u8, cut: &Option<Cut>) -> Result<(), OutOfMemory>
    ensures { OnOk result (out.new ≡ out.old ++ ended_text (if_some (cut_line entry client) cut.now)) }
{
    match cut {
        None => Ok(()),
        Some(cut) => put_changed_cut(out, entry, client, cut),
    }
}

fn put_changed_cut(out: &mut Bytes, entry: u64, client: u8, cut: &Cut) -> Result<(), OutOfMemory>
    ensures { OnOk result (out.new ≡ out.old ++ (cut_line entry client cut.now ++ 10 ∷ [])) }
{
    put_number(out, entry)?;
    out.append(b" cut ")?;
    put_client_numbers(out, client, cut.as_slice())?;
    out.push(b'\n')
}

fn put_probed(out: &mut Bytes, entry: u64, client: u8, probed: &Clients) -> Result<(), OutOfMemory>
    ensures { OnOk result (out.new ≡ out.old ++ ended_text (if_any (probe_line entry client) probed.now)) }
{
    if probed.is_empty() {
        Ok(())
    } else {
        put_probe(out, entry, client, probed)
    }
}

fn put_probe(out: &mut Bytes, entry: u64, client: u8, probed: &Clients) -> Result<(), OutOfMemory>
    ensures { OnOk result (out.new ≡ out.old ++ (probe_line entry client probed.now ++ 10 ∷ [])) }
{
    put_number(out, entry)?;
    out.append(b" probe ")?;
    put_client_clients(out, client, probed.as_slice())?;
    out.push(b'\n')
}

fn put_dummy(out: &mut Bytes, entry: u64, dummy: Option<Operation>) -> Result<(), OutOfMemory>
    ensures { OnOk result (out.new ≡ out.old ++ ended_text (if_some (dummy_line entry) dummy)) }
{
    match dummy {
        None => Ok(()),
        Some(op) => put_dummy_read(out, entry, op),
    }
}

fn put_dummy_read(out: &mut Bytes, entry: u64, op: Operation) -> Result<(), OutOfMemory>
    ensures { OnOk result (out.new ≡ out.old ++ (dummy_line entry op ++ 10 ∷ [])) }
{
    put_number(out, entry)?;
    out.append(b" dummy ")?;
    put_name(out, op.name)?;
    out.push(b' ')?;
    put_register(out, op.register)?;
    out.push(b'\n')
}

fn put_notice(
    out: &mut Bytes,
    entry: u64,
    client: u8,
    notice: Option<Notice>,
) -> Result<(), OutOfMemory>
    ensures { OnOk result (out.new ≡ out.old ++ ended_text (if_some (fail_line entry client) notice)) }
{
    match notice {
        None => Ok(()),
        Some(notice) => put_fail(out, entry, client, notice),
    }
}

fn put_fail(out: &mut Bytes, entry: u64, client: u8, notice: Notice) -> Result<(), OutOfMemory>
    ensures { OnOk result (out.new ≡ out.old ++ (fail_line entry client notice ++ 10 ∷ [])) }
{
    put_number(out, entry)?;
    out.append(b" fail ")?;
    put_client(out, u64::from(client))?;
    out.push(b' ')?;
    put_notice_text(out, notice)?;
    out.push(b'\n')
}

fn put_notice_text(out: &mut Bytes, notice: Notice) -> Result<(), OutOfMemory>
    ensures { OnOk result (out.new ≡ out.old ++ notice_text notice) }
{
    out.append(b"check ")?;
    put_number(out, u64::from(notice.check))?;
    out.append(b" place ")?;
    put_number(out, u64::from(notice.place))
}
