use super::HEAD;
use crate::error::ScriptError;
use crate::parser::parse;
use faust_text::Cause;
use faust_types::{Bytes, OutOfMemory};
use std::alloc::Global;

/// A script with a piece that stands in it so many times.
#[derive(Clone, Copy)]
struct Repeated {
    head: &'static [u8],
    front: &'static [u8],
    piece: &'static [u8],
    count: usize,
    rest: &'static [u8],
}

impl Repeated {
    fn text(&self, alloc: Global) -> Result<Bytes, OutOfMemory> {
        let mut text = Bytes::from_slice(alloc, self.head)?;
        text.append(self.front)?;
        for _ in 0..self.count {
            text.append(self.piece)?;
        }
        text.append(self.rest)?;
        Ok(text)
    }

    fn refusal(&self, alloc: Global) -> Result<Option<ScriptError>, OutOfMemory> {
        Ok(parse(alloc, self.text(alloc)?.as_slice()).err())
    }
}

const fn with_many(
    head: &'static [u8],
    front: &'static [u8],
    piece: &'static [u8],
    count: usize,
    rest: &'static [u8],
) -> Repeated {
    Repeated {
        head,
        front,
        piece,
        count,
        rest,
    }
}

#[test]
fn limits_of_lines_values_and_events(rt: HostRuntime) -> Result<(), OutOfMemory> {
    let key = b"faust 1\nclients 2\nkey ";
    let cases = [
        (
            with_many(HEAD, b"write 1 0x", b"61", 4_097, b"\nend\n"),
            6,
            Cause::Value,
        ),
        (
            with_many(HEAD, b"write 1 0x", b"61", 4_096, b"\nend"),
            7,
            Cause::CutOff,
        ),
        (
            with_many(HEAD, b"write 1 \"", b"a", 4_097, b"\"\nend\n"),
            6,
            Cause::Value,
        ),
        (
            with_many(HEAD, b"write 1 \"", b"a", 4_096, b"\"\nend"),
            7,
            Cause::CutOff,
        ),
        (
            with_many(HEAD, b"edit 1 value 0x", b"61", 4_097, b"\n"),
            6,
            Cause::Value,
        ),
        (
            with_many(HEAD, b"raw 1 0x", b"00", 16_385, b"\nend\n"),
            6,
            Cause::Value,
        ),
        (
            with_many(HEAD, b"post 2 0x", b"00", 16_384, b"\nend"),
            7,
            Cause::CutOff,
        ),
        (with_many(key, b"", b"00", 129, b"\n"), 3, Cause::Value),
        (with_many(key, b"", b"00", 128, b"\n"), 4, Cause::CutOff),
        (with_many(b"", b"", b"\"", 40_000, b"\n"), 1, Cause::Word),
        (with_many(b"", b"", b"\"", 40_001, b"\n"), 1, Cause::TooLong),
        (with_many(b"", b"", b"\"", 40_001, b""), 1, Cause::TooLong),
        (
            with_many(HEAD, b"end\n", b" ", 40_001, b"\n"),
            7,
            Cause::TooLong,
        ),
        (
            with_many(HEAD, b"end\n", b" ", 40_000, b"\n"),
            7,
            Cause::AfterEnd,
        ),
        (
            with_many(HEAD, b"", b"arrive 1\n", 20_001, b"end\n"),
            20_006,
            Cause::Events,
        ),
        (
            with_many(HEAD, b"", b"arrive 1\n", 20_000, b"raw 1 \"\n"),
            20_006,
            Cause::Events,
        ),
        (
            with_many(HEAD, b"", b"arrive 1\n", 20_000, b"\n"),
            20_006,
            Cause::Events,
        ),
        (
            with_many(HEAD, b"", b"arrive 1\n", 20_000, b"end x\n"),
            20_006,
            Cause::Events,
        ),
        (
            with_many(HEAD, b"", b"arrive 1\n", 20_000, b"end"),
            20_006,
            Cause::CutOff,
        ),
        (
            with_many(HEAD, b"", b"arrive 1\n", 20_000, b""),
            20_006,
            Cause::CutOff,
        ),
    ];
    for (script, line, cause) in cases.iter() {
        let due = Some(ScriptError::BadLine {
            line: *line,
            cause: *cause,
        });
        assert!(rt;
            script.refusal(rt.alloc())? == due,
            "{} times: {}",
            script.count,
            *cause
        );
    }
    let most = with_many(HEAD, b"", b"arrive 1\n", 20_000, b"end\n");
    assert!(rt; most.refusal(rt.alloc())?.is_none());
    Ok(())
}
