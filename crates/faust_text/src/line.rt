ghost use Rattle.std.specs.Prelude.{◌≡◌, ◌+◌, ◌≤◌, ◌==◌, drop, length, IfOk, MatchResult};
ghost use Rattle.std.specs.List.{list_any};
ghost use Rattle.faust_text.specs.Lines.{line_places, line_in, IsLineAt, whole_line};
ghost use Rattle.faust_text.specs.Tokens.{len_before};

use crate::cause::Cause;
use faust_types::{OutOfMemory, Sequence};
use std::alloc::Global;

/// The most bytes of a line, without its line feed.
pub const MAX_LINE_LEN: usize = 40_000;

/// A piece of a text: from its first byte, counted from 0, up to the byte before `end`.
#[derive(Clone, Copy, Debug, PartialEq, Eq)]
pub struct Span {
    pub start: usize,
    pub end: usize,
}

/// A line without its line feed, and whether one follows.
#[derive(Clone, Copy, Debug, PartialEq, Eq)]
pub struct Line {
    pub span: Span,
    pub ended: bool,
}

/// Lines in the order in which they stand.
pub type Lines = Sequence<Line>;

/// The lines of an input. After the last line feed a further line stands only where bytes follow it.
pub fn lines(alloc: Global, input: &[u8]) -> Result<Lines, OutOfMemory>
    ensures { IfOk result (λ lines. lines ≡ line_places input.now) }
{
    let mut lines = Sequence::new(alloc);
    let mut from = 0;
    while let Some(line) = line_at(input, from) {
        lines.push(line)?;
        from = line.span.end + 1;
    }
    Ok(lines)
}

/// The line that begins at a place of the input: none at its end. The next line begins behind its line feed, so
/// that lines are read one by one without a list of them.
pub fn line_at(input: &[u8], from: usize) -> Option<Line>
    ensures { IsLineAt input.now from result }
{
    if from >= input.len() {
        return None;
    }
    let length = len_before(input.split_at(from).1, b'\n');
    let end = from + length;
    Some(Line {
        span: Span { start: from, end },
        ended: end < input.len(),
    })
}

/// The text of a line of the input: `TooLong` where it has more than 40,000 bytes, and else `CutOff` where no line
/// feed follows it.
pub fn whole_line(input: &[u8], line: Line) -> Result<&[u8], Cause>
    requires start { line.span.start ≤ line.span.end }
    requires end { line.span.end ≤ length input.now }
    ensures { MatchResult result (λ text. whole_line (line_in input.now line) ≡ Ok text.now)
        (λ cause. whole_line (line_in input.now line) ≡ Err cause) }
{
    let text = &input[line.span.start..line.span.end];
    if text.len() > MAX_LINE_LEN {
        return Err(Cause::TooLong);
    }
    if line.ended {
        Ok(text)
    } else {
        Err(Cause::CutOff)
    }
}

/// How many bytes are looked at together.
const BLOCK: usize = 32;

/// How many bytes stand before the first of a kind: all where there is none.
pub(crate) fn len_before(bytes: &[u8], kind: u8) -> usize
    ensures count { result ≡ len_before kind bytes.now }
    ensures within { result ≤ length bytes.now }
{
    let skipped = blocks_before(bytes, kind);
    skipped + len_before_bytewise(bytes.split_at(skipped).1, kind)
}

/// How many bytes the first whole blocks have that lack the kind.
fn blocks_before(bytes: &[u8], kind: u8) -> usize
    ensures skipped { result + len_before kind (drop result bytes.now) ≡ len_before kind bytes.now }
    ensures within { result ≤ length bytes.now }
{
    let mut at = 0;
    while bytes.len() - at >= BLOCK {
        if has(&bytes[at..at + BLOCK], kind) {
            return at;
        }
        at += BLOCK;
    }
    at
}

/// Whether a byte of the kind stands there. It looks at each byte, so that the processor takes many at once.
fn has(bytes: &[u8], kind: u8) -> bool
    ensures { result ≡ list_any (λ b. b == kind) bytes.now }
{
    let mut found = false;
    for byte in bytes {
        found |= *byte == kind;
    }
    found
}

fn len_before_bytewise(bytes: &[u8], kind: u8) -> usize
    ensures count { result ≡ len_before kind bytes.now }
    ensures within { result ≤ length bytes.now }
{
    for (at, byte) in bytes.iter().enumerate() {
        if *byte == kind {
            return at;
        }
    }
    bytes.len()
}
