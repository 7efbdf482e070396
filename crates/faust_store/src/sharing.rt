//! Bytes that came shortly before are kept once.
ghost use Rattle.std.specs.Prelude.{◌≡◌, IfSome};

use faust_record::{Input, PushInput, RunRecord};
use faust_types::Bytes;

// How many entries back equal bytes are looked for.
const ENTRIES_BACK: u64 = 32;

/// The same input. The bytes of a reply lie in the memory of an equal one, if that is among the run's last entries.
pub fn kept_once(run: &RunRecord, input: PushInput) -> PushInput
    ensures { result ≡ input }
{
    match input {
        PushInput::Reply(bytes) => PushInput::Reply(bytes_once(run, bytes)),
        other => other,
    }
}

fn bytes_once(run: &RunRecord, bytes: Bytes) -> Bytes
    ensures { result ≡ bytes }
{
    match equal_reply(run, bytes.as_slice()) {
        Some(before) => before,
        None => bytes.shared(),
    }
}

fn equal_reply(run: &RunRecord, bytes: &[u8]) -> Option<Bytes>
    ensures { IfSome result (λ before. before ≡ bytes.now) }
{
    let due = run.len();
    for back in 0..ENTRIES_BACK {
        let number = due.checked_sub(back + 1)?;
        if let Some(before) = equal_reply_at(run, number, bytes) {
            return Some(before);
        }
    }
    None
}

fn equal_reply_at(run: &RunRecord, number: u64, bytes: &[u8]) -> Option<Bytes>
    ensures { IfSome result (λ before. before ≡ bytes.now) }
{
    match &run.entry(number)?.input {
        Input::Reply(before) if before.as_slice() == bytes => before.copy().ok(),
        _ => None,
    }
}
