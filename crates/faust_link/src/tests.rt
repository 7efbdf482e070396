mod nets;

use crate::{FrameIn, FrameOut, FrameReader, FrameWriter, Got, LinkError};
use faust_io::{MemSink, MemSource, SureSource};
use faust_types::Bytes;
use std::process::Abort;
use std::test::Fail;

const REPLY: &[u8] = &[1, 2, 1, 0, 0, 0, 0, 0];

/// Takes the frames of a stream whose reads give at most `most` bytes, none where one is empty here, and asks
/// twice more behind the last.
fn check_stream(
    rt: &(impl Abort + AllocGlobal),
    stream: &[u8],
    most: usize,
    frames: [&[u8]; 2],
    last: Result<Got, LinkError>,
) -> Result<(), Fail> {
    assert!(rt; most > 0);
    let source = MemSource::new(rt.alloc(), stream, most, &[])?;
    let mut reader = FrameReader::new(rt.alloc(), source)?;
    let mut into = Bytes::new(rt.alloc());
    for frame in frames {
        if !frame.is_empty() {
            assert_eq!(rt; reader.recv(&mut into), Ok(Got::Frame));
            assert_eq!(rt; into.as_slice(), frame);
        }
    }
    assert_eq!(rt; reader.recv(&mut into), last);
    assert_eq!(rt; reader.recv(&mut into), last);
    let counts = if last.is_ok() { (2, 0) } else { (0, 2) };
    assert_eq!(rt; (reader.ends(), reader.faults()), counts);
    Ok(())
}

#[test]
fn frames_come_out_however_a_stream_is_cut(rt: HostRuntime) -> Result<(), Fail> {
    let ended = Ok(Got::Ended);
    let failed = Err(LinkError::Failed);
    let cases: [(&[u8], &[u8], &[u8], Result<Got, LinkError>); 9] = [
        (
            b"\x00\x00\x00\x08\x01\x02\x01\x00\x00\x00\x00\x00",
            REPLY,
            b"",
            ended,
        ),
        (b"\x00\x00\x00\x01a\x00\x00\x00\x02bc", b"a", b"bc", ended),
        (b"", b"", b"", ended),
        (b"\x00\x00\x40\x01", b"", b"", failed),
        (b"\x00\x00", b"", b"", failed),
        (b"\x00\x00\x00\x00a", b"", b"", failed),
        (b"\x01\x00\x00\x01a", b"", b"", failed),
        (b"\x00\x00\x00\x01a\x00\x00\x00\x02b", b"a", b"", failed),
        (b"\x00\x00\x00\x01a\x00\x00\x00\x02", b"a", b"", failed),
    ];
    for (stream, first, second, last) in cases {
        for most in [1, 2, 3, 4, 5, 7, 100] {
            check_stream(&rt, stream, most, [first, second], last)?;
        }
    }
    Ok(())
}

#[test]
fn the_longest_frame_goes_out_and_comes_in(rt: HostRuntime) -> Result<(), Fail> {
    let alloc = rt.alloc();
    let mut frame = Bytes::new(alloc);
    for i in 0..16_384u32 {
        frame.push((i % 251) as u8)?;
    }
    let sent = frame.as_slice();
    assert!(rt; sent.len() == 16_384);
    let mut writer = FrameWriter::new(MemSink::new(alloc, 20_000, 1_000, &[])?);
    assert_eq!(rt; writer.send(sent), Ok(()));

    let mut reader = FrameReader::new(alloc, SureSource::new(alloc, writer.sink().bytes())?)?;
    let mut into = Bytes::new(alloc);
    assert_eq!(rt; reader.recv(&mut into), Ok(Got::Frame));
    assert_eq!(rt; into.as_slice(), sent);
    assert_eq!(rt; reader.recv(&mut into), Ok(Got::Ended));
    assert_eq!(rt; into.as_slice(), sent);
    Ok(())
}

#[test]
fn a_stream_whose_source_failed_stays_shut(rt: HostRuntime) -> Result<(), Fail> {
    let stream = [0, 0, 0, 1, 7, 0, 0, 0, 1, 8];
    let source = MemSource::new(rt.alloc(), &stream, 100, &[3])?;
    let mut reader = FrameReader::new(rt.alloc(), source)?;
    let mut into = Bytes::new(rt.alloc());
    assert_eq!(rt; reader.recv(&mut into), Ok(Got::Frame));
    for faults in 1..4 {
        assert_eq!(rt; reader.recv(&mut into), Err(LinkError::Failed));
        assert_eq!(rt; reader.faults(), faults);
    }
    assert_eq!(rt; into.as_slice(), [7].as_slice());
    Ok(())
}

#[test]
fn nothing_is_sent_behind_a_fault_or_a_close(rt: HostRuntime) -> Result<(), Fail> {
    let mut writer = FrameWriter::new(MemSink::new(rt.alloc(), 100, 3, &[5])?);
    assert_eq!(rt; writer.send(&[7]), Ok(()));
    assert_eq!(rt; writer.send(&[8, 9]), Err(LinkError::Failed));
    assert_eq!(rt; writer.sink().bytes(), [0, 0, 0, 1, 7, 0, 0, 0].as_slice());
    assert_eq!(rt; writer.send(&[8, 9]), Err(LinkError::Failed));
    assert_eq!(rt; writer.sink().bytes(), [0, 0, 0, 1, 7, 0, 0, 0].as_slice());
    assert_eq!(rt; writer.faults(), 2);

    let mut closed = FrameWriter::new(MemSink::new(rt.alloc(), 100, 100, &[])?);
    assert_eq!(rt; closed.send(&[7]), Ok(()));
    closed.close();
    assert_eq!(rt; closed.send(&[8]), Err(LinkError::Failed));
    assert_eq!(rt; closed.sink().bytes(), [0, 0, 0, 1, 7].as_slice());
    assert_eq!(rt; closed.faults(), 1);
    Ok(())
}
