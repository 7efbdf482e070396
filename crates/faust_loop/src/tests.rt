use crate::LoopNet;
use faust_link::{FrameIn, FrameOut, Got, LinkError, Net, PostIn, PostOut};
use faust_types::Bytes;
use std::process::Abort;
use std::test::Fail;

/// Sends two frames and ends the stream, and compares what comes out at its other end.
fn check_stream<I: FrameIn, O: FrameOut>(
    rt: &(impl Abort + AllocGlobal),
    output: &mut O,
    input: &mut I,
) -> Result<(), Fail> {
    let mut long = Bytes::new(rt.alloc());
    for i in 0..16_384u32 {
        long.push((i % 251) as u8)?;
    }
    let long = long.as_slice();
    assert!(rt; long.len() == 16_384);
    assert_eq!(rt; output.send(b"ab"), Ok(()));
    assert_eq!(rt; output.send(long), Ok(()));
    output.close();
    assert_eq!(rt; output.send(b"cd"), Err(LinkError::Failed));

    let mut into = Bytes::new(rt.alloc());
    assert_eq!(rt; input.recv(&mut into), Ok(Got::Frame));
    assert_eq!(rt; into.as_slice(), b"ab".as_slice());
    assert_eq!(rt; input.recv(&mut into), Ok(Got::Frame));
    assert_eq!(rt; into.as_slice(), long);
    assert_eq!(rt; input.recv(&mut into), Ok(Got::Ended));
    Ok(())
}

#[test]
fn sockets_carry_frames_both_ways_and_datagrams(rt: HostRuntime) -> Result<(), Fail> {
    let mut net = LoopNet::new(&rt, rt.alloc());
    assert!(rt; net.connect(1).is_err());
    assert_eq!(rt; net.listen(2), Ok(()));
    let Ok((mut client_in, mut client_out)) = net.connect(1) else {
        panic!(rt; "the connect fails");
    };
    let Ok((mut server_in, mut server_out)) = net.accept() else {
        panic!(rt; "no stream was connected");
    };
    check_stream(&rt, &mut client_out, &mut server_in)?;
    check_stream(&rt, &mut server_out, &mut client_in)?;
    net.back_in(client_in);
    assert_eq!(rt; net.faults(), 1);
    net.back_out(client_out);
    assert_eq!(rt; net.faults(), 2);

    let (Ok((_, mut outbox)), Ok((mut inbox, _))) = (net.post(1), net.post(2)) else {
        panic!(rt; "the post fails");
    };
    let mut into = Bytes::new(rt.alloc());
    assert_eq!(rt; inbox.take(&mut into), Ok(Got::Idle));
    assert_eq!(rt; outbox.give(2, b"ab"), Ok(()));
    assert_eq!(rt; outbox.give(3, b"nobody"), Ok(()));
    assert_eq!(rt; inbox.take(&mut into), Ok(Got::Frame));
    assert_eq!(rt; into.as_slice(), b"ab".as_slice());
    assert!(rt; net.post(3).is_err());
    Ok(())
}
