// The run of a record that is read from a source as it comes: of the text no more is kept than a piece and a line.
ghost use Rattle.std.specs.Prelude.{◌≡◌, ◌+◌, ◌^◌, ◌<◌, ◌≤◌, true, length, take, drop, vec_len, IfOk};
ghost use Rattle.std.specs.Io.KnownBytes.{Consumes, IsAtEnd};
ghost use Rattle.faust_io.specs.Faults.{Counts};
ghost use Rattle.faust_io.specs.Reading.{Reads};
ghost use Rattle.faust_top.specs.RecordInput.{Drains, Fills, GivesPiece, ReadsRun, at_end, IsRefusal};

use faust_io::{Failed, ReadError, Source};
use faust_record::RunRecord;
use faust_store::{Feed, StoreError};
use faust_text::Cause;
use std::alloc::Global;

/// How many bytes are read together.
const PIECE_LEN: usize = 65_536;

/// Why a source gave no run.
#[derive(Debug, Drop)]
pub enum RecordError {
    /// It wasn't read to its end.
    Unread(ReadError),
    /// It was, and a line is refused.
    Refused { line: u64, cause: Cause },
}

/// The next bytes of a source stand in front of a buffer, so many, and they are the last or not.
#[derive(Clone, Copy, Debug, Drop)]
pub struct Piece {
    pub len: usize,
    pub last: bool,
}

/// The run whose record the source holds. Its lines are read as they come, and what was read is let go. A record that is
/// refused is read to its end all the same: that a read fails, or that there are more bytes than the limit, comes first.
pub fn read_run<S: Source>(
    alloc: Global,
    source: &mut S,
    limit: usize,
) -> Result<RunRecord, RecordError>
    requires { limit < 2 ^ 62 }
    ensures { ReadsRun limit (S.left source.old) (S.left source.new) (S.faults source.old) (S.faults source.new) result }
{
    let mut buffer = Vec::new(alloc);
    if buffer.resize(PIECE_LEN, 0).is_err() {
        return Err(RecordError::Unread(ReadError::OutOfMemory));
    }
    let mut feed = Feed::start(alloc, limit);
    let mut last = false;
    while !last {
        let piece = match next_piece(source, &mut buffer, feed.left) {
            Ok(piece) => piece,
            Err(error) => return Err(RecordError::Unread(error)),
        };
        let left = feed.left - piece.len;
        feed = match feed.take(alloc, &buffer[..piece.len]) {
            Ok(feed) => feed,
            Err(error) => return Err(refused(source, &mut buffer, left, piece.last, error)),
        };
        last = piece.last;
    }
    match feed.finish(alloc) {
        Ok(run) => Ok(run),
        Err(error) => Err(at_end(error)),
    }
}

/// Why a record that was read to its end gives no run.
fn at_end(error: StoreError) -> RecordError
    ensures { result ≡ at_end error }
{
    match error {
        StoreError::BadRecord { line, cause } => RecordError::Refused { line, cause },
        StoreError::OutOfMemory => RecordError::Unread(ReadError::OutOfMemory),
    }
}

/// Why a record that is refused gives no run, with what is left of its source.
fn refused<S: Source>(
    source: &mut S,
    buffer: &mut Vec<u8>,
    left: usize,
    last: bool,
    error: StoreError,
) -> RecordError
    requires room { 0 < vec_len buffer.old }
    requires left { left < 2 ^ 62 }
    requires last { last ≡ true → IsAtEnd (S.left source.old) }
    ensures { IsRefusal left (S.left source.old) (S.left source.new) (S.faults source.old) (S.faults source.new) error result }
{
    match error {
        StoreError::BadRecord { line, cause } => match drain(source, buffer, left, last) {
            Ok(()) => RecordError::Refused { line, cause },
            Err(error) => RecordError::Unread(error),
        },
        StoreError::OutOfMemory => RecordError::Unread(ReadError::OutOfMemory),
    }
}

/// Reads a source to its end: no more than these bytes are left in it.
fn drain<S: Source>(
    source: &mut S,
    buffer: &mut Vec<u8>,
    room: usize,
    ended: bool,
) -> Result<(), ReadError>
    requires buffer { 0 < vec_len buffer.old }
    requires room { room < 2 ^ 62 }
    requires ended { ended ≡ true → IsAtEnd (S.left source.old) }
    ensures { Drains room (S.left source.old) (S.left source.new) (S.faults source.old) (S.faults source.new) result }
{
    let mut left = room;
    let mut last = ended;
    while !last {
        let piece = next_piece(source, buffer, left)?;
        left -= piece.len;
        last = piece.last;
    }
    Ok(())
}

/// The next piece of a source, which is the last exactly where it doesn't fill the buffer. The buffer is cut so that at
/// most one byte more than `left` is read.
fn next_piece<S: Source>(
    source: &mut S,
    buffer: &mut Vec<u8>,
    left: usize,
) -> Result<Piece, ReadError>
    requires room { 0 < vec_len buffer.old }
    requires left { left < 2 ^ 62 }
    ensures piece { GivesPiece left (S.left source.old) (S.left source.new) (S.faults source.old)
        (S.faults source.new) buffer.new.items result }
    ensures room { 0 < vec_len buffer.new }
{
    buffer.truncate(left + 1);
    let len = fill(source, buffer)?;
    if len > left {
        return Err(ReadError::TooLong);
    }
    Ok(Piece {
        len,
        last: len < buffer.len(),
    })
}

/// Fills a buffer from its front on, unless the source ends before.
fn fill<S: Source>(source: &mut S, buffer: &mut Vec<u8>) -> Result<usize, Failed>
    ensures count { Counts result (S.faults source.old) (S.faults source.new) }
    ensures fills { IfOk result (Fills (S.left source.old) (S.left source.new) buffer.new.items) }
    ensures len { vec_len buffer.new ≡ vec_len buffer.old }
{
    let mut filled = 0;
    while filled < buffer.len() {
        let given = read_behind(source, buffer, filled)?;
        if given == 0 {
            return Ok(filled);
        }
        filled += given;
    }
    Ok(filled)
}

/// One read, into the buffer behind its filled front.
fn read_behind<S: Source>(
    source: &mut S,
    buffer: &mut Vec<u8>,
    filled: usize,
) -> Result<usize, Failed>
    requires { filled < vec_len buffer.old }
    ensures count { Counts result (S.faults source.old) (S.faults source.new) }
    ensures bytes { Reads (S.left source.old) (S.left source.new) (drop filled buffer.new.items) result }
    ensures front { take filled buffer.new.items ≡ take filled buffer.old.items }
    ensures len { vec_len buffer.new ≡ vec_len buffer.old }
{
    source.read(&mut buffer[filled..])
}
