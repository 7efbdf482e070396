ghost use Rattle.std.specs.Prelude.{◌≡◌, ℕ, ◌+◌, ◌^◌, ◌<◌, ◌≤◌, List, [], ◌++◌, length, IfOk};
ghost use Rattle.faust_store.specs.Feeding.{Feeds, IsEndedLineAt, IsFeed, KeepsRest, Takes, TakesLines, due_of};
ghost use Rattle.faust_store.specs.InRange.{IsStage};
ghost use Rattle.faust_store.specs.Reading.{Reads, read};

use crate::error::StoreError;
use crate::reading::{refused, run_from};
use crate::stage::Stage;
use faust_record::RunRecord;
use faust_text::{Cause, Line, MAX_LINE_LEN, line_at};
use faust_types::{Bytes, OutOfMemory};
use std::alloc::Global;

/// A record whose bytes come piece by piece, cut anywhere. It keeps what the whole lines so far make, and of the bytes
/// only those of the next line; that line's number, from 1 on; and how many bytes may still come.
#[derive(Drop)]
pub struct Feed {
    pub stage: Stage,
    pub number: u64,
    pub rest: Bytes,
    pub left: usize,
}

/// The whole lines in front of some bytes, read: what they make, the number of the next line, and where it begins.
#[derive(Drop)]
pub struct Taken {
    pub stage: Stage,
    pub number: u64,
    pub from: usize,
}

impl Feed {
    /// No byte came yet, and at most `limit` will.
    pub fn start(alloc: Global, limit: usize) -> Feed
        requires { limit < 2 ^ 62 }
        ensures feed { IsFeed result }
        ensures left { result.left ≡ limit }
        ensures due { (later : List ℕ) → due_of result later ≡ read later }
    {
        Feed {
            stage: Stage::start(),
            number: 1,
            rest: Bytes::new(alloc),
            left: limit,
        }
    }

    /// Takes the next bytes. A line is read once its line feed has come; of one that is too long not even that is waited
    /// for. Whatever bytes follow, it is refused exactly as the whole record is.
    pub fn take(self, alloc: Global, piece: &[u8]) -> Result<Feed, StoreError>
        requires feed { IsFeed self }
        requires room { length piece.now ≤ self.left }
        ensures takes { Takes result self piece.now }
        ensures feed { IfOk result IsFeed }
        ensures left { IfOk result (λ next. next.left + length piece.now ≡ self.left) }
    {
        let Feed {
            stage,
            number,
            rest,
            left,
        } = self;
        match joined(rest, piece) {
            Ok(bytes) => fed(alloc, stage, number, bytes.as_slice(), left - piece.len()),
            Err(OutOfMemory) => Err(StoreError::OutOfMemory),
        }
    }

    /// No more bytes come: the run, or the first line that is refused.
    pub fn finish(self, alloc: Global) -> Result<RunRecord, StoreError>
        requires { IsFeed self }
        ensures { Reads result (due_of self []) }
    {
        run_from(alloc, self.stage, self.number, self.rest.as_slice())
    }
}

/// The bytes of a line so far, and the next ones.
fn joined(rest: Bytes, piece: &[u8]) -> Result<Bytes, OutOfMemory>
    ensures { IfOk result (λ bytes. bytes ≡ rest ++ piece.now) }
{
    let mut bytes = rest;
    bytes.append(piece)?;
    Ok(bytes)
}

/// Reads what stands in the bytes, and keeps what is left of them.
fn fed(
    alloc: Global,
    start: Stage,
    first: u64,
    bytes: &[u8],
    left: usize,
) -> Result<Feed, StoreError>
    requires stage { IsStage start }
    requires counted { first + left + length bytes.now < 2 ^ 63 }
    ensures { Feeds result start first bytes.now left }
{
    match whole_lines(alloc, start, first, bytes) {
        Ok(taken) => next_feed(alloc, taken, bytes, left),
        Err(error) => Err(error),
    }
}

/// Reads each line of the bytes whose line feed stands in them.
fn whole_lines(alloc: Global, start: Stage, first: u64, bytes: &[u8]) -> Result<Taken, StoreError>
    requires stage { IsStage start }
    requires counted { first + length bytes.now ≤ 2 ^ 63 }
    ensures { TakesLines result start first bytes.now }
{
    let mut stage = start;
    let mut number = first;
    let mut from = 0;
    while let Some(line) = ended_line_at(bytes, from) {
        stage = match stage.next(alloc, bytes, line) {
            Ok(stage) => stage,
            Err(error) => return Err(refused(number, error)),
        };
        from = line.span.end + 1;
        number += 1;
    }
    Ok(Taken {
        stage,
        number,
        from,
    })
}

/// The line that begins at a place, where its line feed stands in the bytes.
#[tactic(auto, using(crate::proofs::Feeds::line_ended, crate::proofs::Feeds::line_open, crate::proofs::Feeds::no_line))]
fn ended_line_at(bytes: &[u8], from: usize) -> Option<Line>
    ensures { IsEndedLineAt bytes.now from result }
{
    match line_at(bytes, from) {
        None => None,
        Some(line) => { if line.ended { Some(line) } else { None } }
    }
}

/// What is kept behind whole lines. The next line is refused where it is too long already.
fn next_feed(alloc: Global, taken: Taken, bytes: &[u8], left: usize) -> Result<Feed, StoreError>
    requires { taken.from ≤ length bytes.now }
    ensures { KeepsRest result taken bytes.now left }
{
    let rest = bytes.split_at(taken.from).1;
    if rest.len() > MAX_LINE_LEN {
        return Err(StoreError::BadRecord {
            line: taken.number,
            cause: Cause::TooLong,
        });
    }
    match Bytes::from_slice(alloc, rest) {
        Ok(rest) => Ok(Feed {
            stage: taken.stage,
            number: taken.number,
            rest,
            left,
        }),
        Err(_) => Err(StoreError::OutOfMemory),
    }
}
