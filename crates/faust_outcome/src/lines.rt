// The lines that are written in place of what is told of a run.
ghost use Rattle.std.specs.Prelude.{◌≡◌, ◌++◌, IfOk, OnOk};
ghost use Rattle.faust_outcome.specs.Outcomes.{frame_text, journal_text, link_fault_text, sent_word, start_fault_text};

use faust_text::{put_hex, put_number};
use faust_types::{Bytes, OutOfMemory};
use std::alloc::Global;

/// The line of a thread whose start was refused.
pub fn start_fault_line() -> &'static [u8]
    ensures { result.now ≡ start_fault_text }
{
    b"start fault\n"
}

/// The line of a link that failed.
pub fn link_fault_line() -> &'static [u8]
    ensures { result.now ≡ link_fault_text }
{
    b"link fault\n"
}

/// The line of the journal at a place, which is of another client.
pub(crate) fn journal_line(alloc: Global, place: u8, client: u8) -> Result<Bytes, OutOfMemory>
    ensures { IfOk result (λ text. text ≡ journal_text place client) }
{
    let mut text = Bytes::from_slice(alloc, b"journal differs: place ")?;
    put_number(&mut text, u64::from(place))?;
    text.append(b" client ")?;
    put_number(&mut text, u64::from(client))?;
    text.push(b'\n')?;
    Ok(text)
}

/// The line of a message that arrived though its client hadn't sent it next.
pub(crate) fn frame_line(
    alloc: Global,
    client: u8,
    index: u64,
    sent: &Option<Bytes>,
    got: &Bytes,
) -> Result<Bytes, OutOfMemory>
    ensures { IfOk result (λ text. text ≡ frame_text client index sent.now got.now) }
{
    let mut text = Bytes::from_slice(alloc, b"frame differs: client ")?;
    put_number(&mut text, u64::from(client))?;
    text.append(b" message ")?;
    put_number(&mut text, index)?;
    text.append(b" sent ")?;
    put_sent(&mut text, sent)?;
    text.append(b" got ")?;
    put_hex(&mut text, got.as_slice())?;
    text.push(b'\n')?;
    Ok(text)
}

fn put_sent(out: &mut Bytes, sent: &Option<Bytes>) -> Result<(), OutOfMemory>
    ensures { OnOk result (out.new ≡ out.old ++ sent_word sent.now) }
{
    match sent {
        None => out.append(b"none"),
        Some(bytes) => put_hex(out, bytes.as_slice()),
    }
}
