use crate::{FrameIn, FrameOut, Got, LinkError, MemNet, Net, PostIn, PostOut};
use faust_types::Bytes;
use std::alloc::Global;
use std::process::Abort;
use std::test::Fail;
use std::thread;

/// What came out of a stream: the frames joined, with a point behind each, and the last answer.
#[derive(Debug, Drop)]
struct Heard {
    text: Bytes,
    last: Result<Got, LinkError>,
}

/// Takes frames until none comes.
fn hear<I: FrameIn>(alloc: Global, link: &mut I) -> Result<Heard, Fail> {
    let mut text = Bytes::new(alloc);
    let mut into = Bytes::new(alloc);
    for _ in 0..100 {
        let got = link.recv(&mut into);
        if got != Ok(Got::Frame) {
            return Ok(Heard { text, last: got });
        }
        text.append(into.as_slice())?;
        text.push(b'.')?;
    }
    Ok(Heard {
        text,
        last: Ok(Got::Idle),
    })
}

/// Takes frames up to the end of a stream, and compares them.
fn check_heard<I: FrameIn>(
    rt: &(impl Abort + AllocGlobal),
    link: &mut I,
    expected: &[u8],
) -> Result<(), Fail> {
    let heard = hear(rt.alloc(), link)?;
    assert_eq!(rt; heard.text.as_slice(), expected);
    assert_eq!(rt; heard.last, Ok(Got::Ended));
    Ok(())
}

/// Sends two frames of two letters.
fn send_two<O: FrameOut>(link: &mut O) -> bool {
    link.send(b"ab").is_ok() && link.send(b"cd").is_ok()
}

#[test]
fn streams_in_memory_carry_their_frames_both_ways(rt: HostRuntime) -> Result<(), Fail> {
    let mut net = MemNet::new(&rt, rt.alloc(), 2, &[], &[])?;
    let Ok((mut client_in, mut client_out)) = net.connect(1) else {
        panic!(rt; "the connect fails");
    };
    let Ok((mut server_in, mut server_out)) = net.accept() else {
        panic!(rt; "no stream was connected");
    };
    assert!(rt; send_two(&mut client_out) && send_two(&mut server_out));
    client_out.close();
    server_out.close();
    check_heard(&rt, &mut server_in, b"ab.cd.")?;
    check_heard(&rt, &mut client_in, b"ab.cd.")
}

#[test]
fn a_net_counts_what_fails_and_what_comes_back(rt: HostRuntime) -> Result<(), Fail> {
    let mut net = MemNet::new(&rt, rt.alloc(), 2, &[2], &[])?;
    assert_eq!(rt; net.listen(2), Ok(()));
    let Ok((client_in, mut client_out)) = net.connect(1) else {
        panic!(rt; "the first connect fails");
    };
    assert!(rt; net.connect(2).is_err());
    assert_eq!(rt; net.faults(), 1);
    client_out.close();
    assert_eq!(rt; client_out.send(b"ab"), Err(LinkError::Failed));
    net.back_in(client_in);
    assert_eq!(rt; net.faults(), 1);
    net.back_out(client_out);
    assert_eq!(rt; net.faults(), 2);
    Ok(())
}

#[test]
fn a_receiver_waits_for_what_another_thread_sends(rt: HostRuntime) -> Result<(), Fail> {
    let alloc = rt.alloc();
    let mut net = MemNet::new(&rt, alloc, 2, &[], &[])?;
    let Ok((_client_in, mut client_out)) = net.connect(1) else {
        panic!(rt; "the connect fails");
    };
    let Ok((mut server_in, _server_out)) = net.accept() else {
        panic!(rt; "no stream was connected");
    };
    let (heard, sent) = thread::join(
        &rt,
        move || hear(alloc, &mut server_in),
        move || {
            let sent = send_two(&mut client_out);
            client_out.close();
            sent
        },
    );
    assert!(rt; sent);
    let heard = heard?;
    assert_eq!(rt; heard.text.as_slice(), b"ab.cd.".as_slice());
    Ok(())
}

#[test]
fn a_net_changes_the_frames_that_it_is_to_change(rt: HostRuntime) -> Result<(), Fail> {
    let mut net = MemNet::new(&rt, rt.alloc(), 2, &[], &[])?;
    net.flip(1, true, 2)?;
    net.flip(1, false, 1)?;
    let Ok((mut client_in, mut client_out)) = net.connect(1) else {
        panic!(rt; "the connect fails");
    };
    let Ok((mut server_in, mut server_out)) = net.accept() else {
        panic!(rt; "no stream was connected");
    };
    assert!(rt; send_two(&mut client_out) && send_two(&mut server_out));
    client_out.close();
    server_out.close();
    check_heard(&rt, &mut server_in, b"ab.ce.")?;
    check_heard(&rt, &mut client_in, b"ac.cd.")
}

#[test]
fn first_frames_come_once_all_have_met(rt: HostRuntime) -> Result<(), Fail> {
    let mut net = MemNet::new(&rt, rt.alloc(), 1, &[], &[])?;
    net.meet();
    let Ok((mut client_in, mut client_out)) = net.connect(1) else {
        panic!(rt; "the connect fails");
    };
    let Ok((_server_in, mut server_out)) = net.accept() else {
        panic!(rt; "no stream was connected");
    };
    assert!(rt; send_two(&mut server_out) && send_two(&mut client_out));
    server_out.close();
    check_heard(&rt, &mut client_in, b"ab.cd.")
}

#[test]
fn datagrams_are_lost_repeated_and_overtaken_by_the_list(rt: HostRuntime) -> Result<(), Fail> {
    let mut net = MemNet::new(&rt, rt.alloc(), 2, &[], &[0, 1, 2, 3, 0, 3])?;
    let Ok((mut inbox, mut outbox)) = net.post(2) else {
        panic!(rt; "the post fails");
    };
    for letter in [b'a', b'b', b'c', b'd', b'e', b'f'] {
        assert_eq!(rt; outbox.give(2, &[letter]), Ok(()));
    }
    assert_eq!(rt; outbox.give(3, b"nobody"), Ok(()));
    let mut into = Bytes::new(rt.alloc());
    for letter in [b'a', b'c', b'c', b'e', b'd'] {
        assert_eq!(rt; inbox.take(&mut into), Ok(Got::Frame));
        assert_eq!(rt; into.as_slice(), [letter].as_slice());
    }
    assert_eq!(rt; inbox.take(&mut into), Ok(Got::Idle));
    Ok(())
}
