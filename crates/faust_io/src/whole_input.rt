ghost use Rattle.std.specs.Prelude.{◌≡◌, ◌+◌, ◌<◌, ◌≤◌, length, take, drop, vec_len, IfOk, OnOk, IfSome, Err};
ghost use Rattle.faust_io.specs.Faults.{Counts, CountsReading};
ghost use Rattle.faust_io.specs.Reading.{Reads, IsWhole, TakesAtMost};

use crate::failed::{Failed, ReadError};
use crate::source::Source;
use faust_types::{Bytes, OutOfMemory};
use std::alloc::Global;

/// How many bytes the first read asks for.
const FIRST_ROOM: usize = 8_192;

/// All bytes of the source up to its end. `TooLong` says that more than `limit` bytes stand in it; one byte
/// beyond the limit is then taken. `Failed` says that a read failed. The bytes that were taken are lost with
/// an error.
pub fn read_whole<S: Source>(
    alloc: Global,
    source: &mut S,
    limit: usize,
) -> Result<Bytes, ReadError>
    // Only a failed read raises the count.
    ensures count { CountsReading result (S.faults source.old) (S.faults source.new) }

    // The bytes are those of the source, all of them, and no more than the limit.
    ensures whole { IfOk result (IsWhole (S.left source.old) (S.left source.new)) }
    ensures within { IfOk result (λ bytes. length bytes ≤ limit) }

    // It is refused as too long only where it is.
    ensures too_long { result ≡ Err ReadError.TooLong
        → IfSome (S.left source.old) (λ content. limit < length content) }

    // Whatever the answer, at most one byte beyond the limit is taken.
    ensures taken { TakesAtMost (S.left source.old) (S.left source.new) (limit + 1) }
{
    let mut buffer = Vec::new(alloc);
    let mut filled = 0;
    while filled <= limit {
        make_room(&mut buffer, filled, limit)?;
        let given = read_behind(source, &mut buffer, filled)?;
        if given == 0 {
            buffer.truncate(filled);
            return Ok(Bytes::from_vec(buffer));
        }
        filled += given;
    }
    Err(ReadError::TooLong)
}

/// Makes the buffer longer than its filled front, by as much again, but for one byte beyond the limit at most.
fn make_room(buffer: &mut Vec<u8>, filled: usize, limit: usize) -> Result<(), OutOfMemory>
    requires below_limit { filled ≤ limit }
    requires in_buffer { filled ≤ vec_len buffer.old }
    requires bounded { vec_len buffer.old ≤ limit + 1 }
    ensures room { OnOk result (filled < vec_len buffer.new) }
    ensures bounded { OnOk result (vec_len buffer.new ≤ limit + 1) }
    ensures front { OnOk result (take filled buffer.new.items ≡ take filled buffer.old.items) }
{
    if filled < buffer.len() {
        return Ok(());
    }
    let more = filled
        .max(FIRST_ROOM)
        .min((limit - filled).saturating_add(1));
    let len = filled.checked_add(more).ok_or(OutOfMemory)?;
    buffer.resize(len, 0)?;
    Ok(())
}

/// One read, into the buffer behind its filled front.
fn read_behind<S: Source>(
    source: &mut S,
    buffer: &mut Vec<u8>,
    filled: usize,
) -> Result<usize, Failed>
    requires { filled < vec_len buffer.old }
    ensures count { Counts result (S.faults source.old) (S.faults source.new) }
    ensures bytes { Reads (S.left source.old) (S.left source.new) (drop filled buffer.new.items) result }
    ensures front { take filled buffer.new.items ≡ take filled buffer.old.items }
    ensures len { vec_len buffer.new ≡ vec_len buffer.old }
{
    source.read(&mut buffer[filled..])
}
