ghost use Rattle.std.specs.Prelude.{◌≡◌, ◌≤◌, [], ◌∷◌, ◌++◌, length, IfOk, OnOk};
ghost use Rattle.std.specs.Fmt.{decimal};
ghost use Rattle.faust_text.specs.Tokens.{joined};
ghost use Rattle.faust_text.specs.Values.{bytes_text};
ghost use Rattle.faust_store.specs.Texts.{IsTextVersion, arrival_tokens, end_line, entry_line, input_tokens, record_text};
ghost use Rattle.faust_store.specs.Words.{word_text};

use crate::word::EntryWord;
use faust_record::{Entry, Input, RunRecord};
use faust_text::{Title, put_head, put_hex, put_number, put_value};
use faust_types::{Bytes, OutOfMemory};
use std::alloc::Global;

// The bytes of a head, and of a line without its value or message, at most or nearly so.
const ROOM_FOR_HEAD: usize = 512;

const ROOM_FOR_LINE: usize = 40;

/// The record of a run, of version 1 or 2; version 1 is of runs of wire 1. It takes time in proportion to its length.
pub fn print_record(alloc: Global, run: &RunRecord, version: u8) -> Result<Bytes, OutOfMemory>
    requires few { length run.now.entries ≤ 20000 }
    requires version { IsTextVersion version run.now.config.wire }
    ensures { IfOk result (λ text. text ≡ record_text run.now version) }
{
    let mut text = Bytes::new(alloc);
    text.reserve(room_for(run, version))?;
    put_head(&mut text, Title::Record, version, run.config())?;
    for q in 0..run.len() {
        if let Some(entry) = run.entry(q) {
            put_entry(&mut text, version, entry)?;
        }
    }
    put_end(&mut text, run.len())?;
    Ok(text)
}

// About how many bytes the text has, so that one allocation serves it.
fn room_for(run: &RunRecord, version: u8) -> usize {
    let mut room = ROOM_FOR_HEAD;
    for q in 0..run.len() {
        if let Some(entry) = run.entry(q) {
            room = room.saturating_add(room_for_line(version, &entry.input));
        }
    }
    room
}

fn room_for_line(version: u8, input: &Input) -> usize {
    match input {
        Input::Write(bytes) | Input::Reply(bytes) | Input::Peer(bytes) => room_for_bytes(bytes),
        Input::Arrive(message) if version != 1 => room_for_bytes(message),
        Input::Read(_) | Input::Tick(_) | Input::Arrive(_) => ROOM_FOR_LINE,
    }
}

fn room_for_bytes(bytes: &Bytes) -> usize {
    bytes.len().saturating_mul(2).saturating_add(ROOM_FOR_LINE)
}

#[tactic(auto, using(crate::proofs::PrintedText::line_is))]
fn put_entry(text: &mut Bytes, version: u8, entry: &Entry) -> Result<(), OutOfMemory>
    ensures { OnOk result (text.new ≡ text.old ++ (entry_line version entry.now ++ 10 ∷ [])) }
{
    put_number(text, entry.number)?;
    text.push(b' ')?;
    put_input(text, version, entry.client, &entry.input)?;
    text.push(b'\n')
}

fn put_input(text: &mut Bytes, version: u8, client: u8, input: &Input) -> Result<(), OutOfMemory>
    ensures { OnOk result (text.new ≡ text.old ++ joined (input_tokens version client input.now)) }
{
    match input {
        Input::Write(value) => {
            put_word(text, EntryWord::Begin, client)?;
            text.append(b" write ")?;
            put_value(text, Some(value.as_slice()))
        }
        Input::Read(register) => {
            put_word(text, EntryWord::Begin, client)?;
            text.append(b" read ")?;
            put_number(text, u64::from(*register))
        }
        Input::Reply(bytes) => {
            put_word(text, EntryWord::Reply, client)?;
            put_bytes(text, bytes)
        }
        Input::Peer(bytes) => {
            put_word(text, EntryWord::Peer, client)?;
            put_bytes(text, bytes)
        }
        Input::Tick(moment) => {
            put_word(text, EntryWord::Tick, client)?;
            text.push(b' ')?;
            put_number(text, *moment)
        }
        Input::Arrive(message) => put_arrival(text, version, client, message),
    }
}

fn put_arrival(
    text: &mut Bytes,
    version: u8,
    client: u8,
    message: &Bytes,
) -> Result<(), OutOfMemory>
    ensures { OnOk result (text.new ≡ text.old ++ joined (arrival_tokens version client message.now)) }
{
    put_word(text, EntryWord::Arrive, client)?;
    if version == 1 {
        return Ok(());
    }
    put_bytes(text, message)
}

fn put_word(text: &mut Bytes, word: EntryWord, client: u8) -> Result<(), OutOfMemory>
    ensures { OnOk result (text.new ≡ text.old ++ (word_text word ++ (32 ∷ decimal client))) }
{
    text.append(word.text())?;
    text.push(b' ')?;
    put_number(text, u64::from(client))
}

fn put_bytes(text: &mut Bytes, bytes: &Bytes) -> Result<(), OutOfMemory>
    ensures { OnOk result (text.new ≡ text.old ++ (32 ∷ bytes_text bytes.now)) }
{
    text.append(b" 0x")?;
    put_hex(text, bytes.as_slice())
}

fn put_end(text: &mut Bytes, count: u64) -> Result<(), OutOfMemory>
    ensures { OnOk result (text.new ≡ text.old ++ (end_line count ++ 10 ∷ [])) }
{
    text.append(b"end ")?;
    put_number(text, count)?;
    text.push(b'\n')
}
