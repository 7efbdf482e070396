mod clocks;
mod spawners;

use crate::{
    Failed, MemSink, MemSource, ReadError, Sink, Source, StdSink, StdSource, SureSink, SureSource,
    read_whole, write_whole,
};
use faust_types::Bytes;
use std::io;
use std::io::{ErrorKind, Read, Write};
use std::process::Abort;
use std::test::Fail;

const TEXT: &[u8] = b"faust report 1\n";

/// Reads the text whole from a source in memory, and compares the answer.
fn check_input(
    rt: &(impl Abort + AllocGlobal),
    most: usize,
    fails: &[u64],
    limit: usize,
    expected: Result<&[u8], ReadError>,
) -> Result<(), Fail> {
    assert!(rt; most > 0);
    let mut source = MemSource::new(rt.alloc(), TEXT, most, fails)?;
    let answer = read_whole(rt.alloc(), &mut source, limit);
    match (answer, expected) {
        (Ok(bytes), Ok(expected)) => assert_eq!(rt; bytes.as_slice(), expected),
        (Err(error), Err(expected)) => assert_eq!(rt; error, expected),
        _ => panic!(rt; "at {most} a read, {fails:?} failing, and limit {limit}"),
    }
    Ok(())
}

#[test]
fn inputs_are_read_to_their_end(rt: HostRuntime) -> Result<(), Fail> {
    let cases: [(usize, &[u64], usize, Result<&[u8], ReadError>); 10] = [
        (100, &[], 100, Ok(TEXT)),
        (1, &[], 100, Ok(TEXT)),
        (4, &[], 15, Ok(TEXT)),
        (4, &[], 14, Err(ReadError::TooLong)),
        (100, &[], 0, Err(ReadError::TooLong)),
        (100, &[], usize::MAX, Ok(TEXT)),
        (100, &[1], 100, Err(ReadError::Failed)),
        (4, &[3, 9], 100, Err(ReadError::Failed)),
        (4, &[5], 15, Err(ReadError::Failed)),
        (4, &[6], 15, Ok(TEXT)),
    ];
    for (most, fails, limit, expected) in cases {
        check_input(&rt, most, fails, limit, expected)?;
    }
    Ok(())
}

#[test]
fn a_long_input_is_read_in_any_pieces(rt: HostRuntime) -> Result<(), Fail> {
    let alloc = rt.alloc();
    let mut content = Bytes::new(alloc);
    for i in 0..20_000u32 {
        content.push((i % 251) as u8)?;
    }
    let mut sure = SureSource::new(alloc, content.as_slice())?;
    let mut pieces = MemSource::new(alloc, content.as_slice(), 777, &[])?;
    let from_sure = read_whole(alloc, &mut sure, 20_000)?;
    let from_pieces = read_whole(alloc, &mut pieces, 20_000)?;
    assert_eq!(rt; from_sure.as_slice(), content.as_slice());
    assert_eq!(rt; from_pieces.as_slice(), content.as_slice());
    assert_eq!(rt; sure.read(&mut [0; 4]), Ok(0));
    assert_eq!(rt; pieces.read(&mut [0; 4]), Ok(0));
    Ok(())
}

#[test]
fn outputs_are_written_whole_or_a_prefix(rt: HostRuntime) -> Result<(), Fail> {
    let cases: [(usize, usize, &[u64], &[u8], Result<(), Failed>); 7] = [
        (100, 100, &[], TEXT, Ok(())),
        (100, 1, &[], TEXT, Ok(())),
        (15, 4, &[], TEXT, Ok(())),
        (10, 100, &[], b"faust repo", Err(Failed)),
        (100, 4, &[3], b"faust re", Err(Failed)),
        (100, 100, &[1], b"", Err(Failed)),
        (0, 100, &[], b"", Err(Failed)),
    ];
    for (room, most, fails, held, expected) in cases {
        assert!(rt; most > 0);
        let mut sink = MemSink::new(rt.alloc(), room, most, fails)?;
        assert_eq!(rt; write_whole(&mut sink, TEXT), expected);
        assert_eq!(rt;
            sink.bytes(),
            held,
            "at room {room}, {most} a write, and {fails:?} failing"
        );
        assert_eq!(rt; sink.faults(), u64::from(expected.is_err()));
    }
    assert_eq!(rt; write_whole(&mut SureSink::new(), TEXT), Ok(()));
    Ok(())
}

/// A reader whose first read is interrupted, whose second gives bytes, and whose third fails.
#[derive(Drop)]
struct TroubledReader {
    reads: u8,
}

impl Read for TroubledReader {
    fn read(&mut self, buf: &mut [u8]) -> io::Result<usize> {
        self.reads = self.reads.saturating_add(1);
        match self.reads {
            1 => Err(io::Error::from(ErrorKind::Interrupted)),
            2 => {
                let mut text: &[u8] = b"faust";
                text.read(buf)
            }
            _ => Err(io::Error::from(ErrorKind::BrokenPipe)),
        }
    }
}

#[test]
fn readers_of_std_are_sources(rt: HostRuntime) -> Result<(), Fail> {
    let mut source = StdSource::new(TEXT);
    let read = read_whole(rt.alloc(), &mut source, 15)?;
    assert_eq!(rt; read.as_slice(), TEXT);
    assert_eq!(rt; source.faults(), 0);

    let mut troubled = StdSource::new(TroubledReader { reads: 0 });
    let mut buf = [0; 8];
    assert_eq!(rt; troubled.read(&mut buf), Ok(5));
    assert_eq!(rt; troubled.read(&mut buf), Err(Failed));
    assert_eq!(rt; troubled.faults(), 1);
    Ok(())
}

/// A writer whose first write is interrupted, whose second takes one byte, and whose third takes nothing.
#[derive(Drop)]
struct TroubledWriter {
    writes: u8,
}

impl Write for TroubledWriter {
    fn write(&mut self, buf: &[u8]) -> io::Result<usize> {
        self.writes = self.writes.saturating_add(1);
        match self.writes {
            1 => Err(io::Error::from(ErrorKind::Interrupted)),
            2 => Ok(buf.len().min(1)),
            3 => Ok(0),
            _ => Err(io::Error::from(ErrorKind::BrokenPipe)),
        }
    }

    fn flush(&mut self) -> io::Result<()> {
        Ok(())
    }
}

#[test]
fn writers_of_std_are_sinks(rt: HostRuntime) -> Result<(), Fail> {
    let mut held: Vec<u8> = Vec::new(rt.alloc());
    assert_eq!(rt; write_whole(&mut StdSink::new(&mut held), TEXT), Ok(()));
    assert_eq!(rt; held.as_slice(), TEXT);

    let mut troubled = StdSink::new(TroubledWriter { writes: 0 });
    assert_eq!(rt; write_whole(&mut troubled, TEXT), Err(Failed));
    assert_eq!(rt; troubled.faults(), 1);
    assert_eq!(rt; troubled.write(TEXT), Err(Failed));
    assert_eq!(rt; troubled.faults(), 2);
    Ok(())
}
