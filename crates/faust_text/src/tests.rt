use crate::{
    Cause, Cursor, Head, HeadForm, HeadStep, Line, LineError, Span, Title, ValueError, bytes,
    hex_bytes, line_at, lines, number, put_head, put_hex, put_number, put_value, split_token,
    tokens, value,
};
use faust_types::{Bytes, Config, Kind, OutOfMemory};
use std::test::Fail;

fn span(start: usize, end: usize) -> Span {
    Span { start, end }
}

#[test]
fn lines_have_their_places(rt: HostRuntime) -> Result<(), Fail> {
    let none: [Line; 0] = [];
    assert_eq!(rt; lines(rt.alloc(), b"")?.as_slice(), none.as_slice());
    let ended = |start: usize, end: usize| Line {
        span: Span { start, end },
        ended: true,
    };
    let found = lines(rt.alloc(), b"ab\n\nc\n")?;
    assert_eq!(rt;
        found.as_slice(),
        [ended(0, 2), ended(3, 3), ended(4, 5)].as_slice()
    );
    let found = lines(rt.alloc(), b"\nab")?;
    let last = Line {
        span: span(1, 3),
        ended: false,
    };
    assert_eq!(rt; found.as_slice(), [ended(0, 0), last].as_slice());
    assert_eq!(rt; line_at(b"\nab", 1), Some(last));
    assert_eq!(rt; line_at(b"\nab", 3), None);
    assert_eq!(rt; line_at(b"\nab", 9), None);
    let long = b"0123456789012345678901234567890123456789\n0123456789012345678901234567890\n";
    let found = lines(rt.alloc(), long)?;
    assert_eq!(rt; found.as_slice(), [ended(0, 40), ended(41, 72)].as_slice());
    Ok(())
}

#[test]
fn tokens_have_their_places(rt: HostRuntime) -> Result<(), Fail> {
    let cases: [(&[u8], &[Span]); 8] = [
        (b"", &[span(0, 0)]),
        (b" ", &[span(0, 0), span(1, 1)]),
        (b"ab  c", &[span(0, 2), span(3, 3), span(4, 5)]),
        (b"w 1 \"a b\"", &[span(0, 1), span(2, 3), span(4, 9)]),
        (b"\"a\"b", &[span(0, 3), span(3, 4)]),
        (b"\"a\" ", &[span(0, 3), span(4, 4)]),
        (b"\"a b", &[span(0, 4)]),
        (b"a\"b\" c", &[span(0, 4), span(5, 6)]),
    ];
    for (line, places) in cases.iter() {
        assert_eq!(rt; tokens(rt.alloc(), line)?.as_slice(), *places, "{line:?}");
    }
    let (token, left) = split_token(b"\"a b\" c");
    assert_eq!(rt; token, b"\"a b\"".as_slice());
    assert_eq!(rt; left.ok_or("nothing is left")?, b"c".as_slice());
    assert!(rt; split_token(b"ab").1.is_none());
    Ok(())
}

#[test]
fn numbers_are_read_and_printed(rt: HostRuntime) -> Result<(), Fail> {
    let cases: [(&[u8], Option<u64>); 12] = [
        (b"", None),
        (b"0", Some(0)),
        (b"00", None),
        (b"07", None),
        (b"7", Some(7)),
        (b"+7", None),
        (b"-7", None),
        (b"7 ", None),
        (b"1a", None),
        (b"18446744073709551615", Some(18_446_744_073_709_551_615)),
        (b"18446744073709551616", None),
        (b"123456789012345678901234567890", None),
    ];
    for (token, expected) in cases.iter() {
        assert_eq!(rt; number(token), *expected, "{token:?}");
    }
    let printed: [(u64, &[u8]); 5] = [
        (0, b"=0"),
        (9, b"=9"),
        (10, b"=10"),
        (1_000_000, b"=1000000"),
        (18_446_744_073_709_551_615, b"=18446744073709551615"),
    ];
    for (x, text) in printed.iter() {
        let mut out = Bytes::from_slice(rt.alloc(), b"=")?;
        put_number(&mut out, *x)?;
        assert_eq!(rt; out.as_slice(), *text);
    }
    Ok(())
}

#[test]
fn values_are_read(rt: HostRuntime) -> Result<(), Fail> {
    let taken: [(&[u8], &[u8]); 6] = [
        (b"\"\"", b""),
        (b"\"a ~\"", b"a ~"),
        (b"0x", b""),
        (b"0x00ff", b"\x00\xff"),
        (b"\"abcd\"", b"abcd"),
        (b"0x61626364", b"abcd"),
    ];
    for (token, expected) in taken.iter() {
        assert_eq!(rt;
            value(rt.alloc(), token, 4)?.as_slice(),
            *expected,
            "{token:?}"
        );
    }
    let refused: [&[u8]; 13] = [
        b"",
        b"a",
        b"\"",
        b"\"a",
        b"\"a\"b",
        b"\"a\\\"",
        b"\"\n\"",
        b"\"\x7f\"",
        b"\"abcde\"",
        b"0x0",
        b"0x0G",
        b"0xAB",
        b"0x6162636465",
    ];
    for token in refused.iter() {
        assert_eq!(rt;
            value(rt.alloc(), token, 4).err(),
            Some(ValueError::Bad),
            "{token:?}"
        );
    }
    Ok(())
}

#[test]
fn bytes_are_read(rt: HostRuntime) -> Result<(), Fail> {
    assert_eq!(rt;
        bytes(rt.alloc(), b"0x0f10", 2)?.as_slice(),
        b"\x0f\x10".as_slice()
    );
    assert_eq!(rt; hex_bytes(rt.alloc(), b"", 0)?.len(), 0);
    assert_eq!(rt;
        hex_bytes(rt.alloc(), b"0f10", 2)?.as_slice(),
        b"\x0f\x10".as_slice()
    );
    let refused: [&[u8]; 7] = [b"", b"0", b"0f10", b"\"a\"", b"0X00", b"0x0F", b"0x000000"];
    for token in refused.iter() {
        assert_eq!(rt;
            bytes(rt.alloc(), token, 2).err(),
            Some(ValueError::Bad),
            "{token:?}"
        );
    }
    let refused: [&[u8]; 4] = [b"0", b"0x00", b"0F", b"000000"];
    for token in refused.iter() {
        assert_eq!(rt;
            hex_bytes(rt.alloc(), token, 2).err(),
            Some(ValueError::Bad),
            "{token:?}"
        );
    }
    Ok(())
}

#[test]
fn values_are_printed(rt: HostRuntime) -> Result<(), OutOfMemory> {
    let cases: [(Option<&[u8]>, &[u8]); 5] = [
        (None, b"=none"),
        (Some(b""), b"=\"\""),
        (Some(b"a b"), b"=\"a b\""),
        (Some(b"a\"b"), b"=0x612262"),
        (Some(b"\x00\xff"), b"=0x00ff"),
    ];
    for (shown, text) in cases.iter() {
        let mut out = Bytes::from_slice(rt.alloc(), b"=")?;
        put_value(&mut out, *shown)?;
        assert_eq!(rt; out.as_slice(), *text);
    }
    let mut out = Bytes::from_slice(rt.alloc(), b"=")?;
    put_hex(&mut out, b"\x01\xab")?;
    assert_eq!(rt; out.as_slice(), b"=01ab".as_slice());
    assert_eq!(rt; Cause::AfterEnd.text(), "after end");
    Ok(())
}

#[test]
fn fields_are_read(rt: HostRuntime) -> Result<(), Fail> {
    let mut cursor = Cursor::new(b"edit 12 write 007 18446744073709551616 \"a b\"");
    cursor.word(b"edit")?;
    assert_eq!(rt; cursor.client(12)?, 12);
    assert_eq!(rt; cursor.kind()?, Kind::Write);
    assert_eq!(rt;
        cursor.any_number().err(),
        Some(LineError::Refused(Cause::Word))
    );
    assert_eq!(rt; cursor.any_number()?, b"18446744073709551616".as_slice());
    assert_eq!(rt; cursor.value(rt.alloc())?.as_slice(), b"a b".as_slice());
    assert_eq!(rt; cursor.end(), Ok(()));
    assert_eq!(rt;
        cursor.number(0, 7).err(),
        Some(LineError::Refused(Cause::Word))
    );
    let mut cursor = Cursor::new(b"8 0x0a 00ff more");
    assert_eq!(rt;
        cursor.number(0, 7).err(),
        Some(LineError::Refused(Cause::Number))
    );
    assert_eq!(rt; cursor.bytes(rt.alloc())?.as_slice(), b"\x0a".as_slice());
    assert_eq!(rt; cursor.key(rt.alloc())?.as_slice(), b"\x00\xff".as_slice());
    assert_eq!(rt; cursor.end(), Err(LineError::Refused(Cause::Word)));
    Ok(())
}

fn form(title: Title, formats: u8, clients: u8) -> HeadForm {
    HeadForm {
        title,
        formats,
        clients,
    }
}

fn read_head(
    rt: &HostRuntime,
    form: HeadForm,
    lines: &[&[u8]],
) -> Result<Option<(u8, Config)>, LineError> {
    let mut head = Head::Title;
    for line in lines.iter() {
        head = match head.read(rt.alloc(), form, line)? {
            HeadStep::Next(head) => head,
            HeadStep::Whole { format, config } => return Ok(Some((format, config))),
        };
    }
    Ok(None)
}

#[test]
fn heads_are_read(rt: HostRuntime) -> Result<(), Fail> {
    let script: [&[u8]; 5] = [
        b"faust 1",
        b"clients 32",
        b"key 0a0b",
        b"delta 1099511627775",
        b"dummy 1",
    ];
    let (format, config) = read_head(&rt, form(Title::Script, 1, 32), &script)?.ok_or("not whole")?;
    assert_eq!(rt; format, 1);
    assert_eq!(rt; config.clients, 32);
    assert_eq!(rt; config.key.as_slice(), b"\x0a\x0b".as_slice());
    assert_eq!(rt; config.delta, 1_099_511_627_775);
    assert_eq!(rt; config.dummy, 1);
    assert_eq!(rt; config.wire, 1);
    assert!(rt; read_head(&rt, form(Title::Script, 1, 32), &script[..4])?.is_none());
    let record: [&[u8]; 6] = [
        b"faust-record 2",
        b"wire 2",
        b"clients 2",
        b"key 00",
        b"delta 1000",
        b"dummy 1000000",
    ];
    let (format, config) = read_head(&rt, form(Title::Record, 2, 32), &record)?.ok_or("not whole")?;
    assert_eq!(rt; format, 2);
    assert_eq!(rt; config.wire, 2);
    let mut out = Bytes::from_slice(rt.alloc(), b"=")?;
    put_head(&mut out, Title::Record, 2, &config)?;
    assert_eq!(rt;
        out.as_slice(),
        b"=faust-record 2\nwire 2\nclients 2\nkey 00\ndelta 1000\ndummy 1000000\n".as_slice()
    );
    let mut out = Bytes::new(rt.alloc());
    put_head(&mut out, Title::Script, 1, &config)?;
    assert_eq!(rt;
        out.as_slice(),
        b"faust 1\nclients 2\nkey 00\ndelta 1000\ndummy 1000000\n".as_slice()
    );
    Ok(())
}

#[test]
fn lines_of_heads_are_refused(rt: HostRuntime) {
    let refused: [(HeadForm, &[&[u8]], Cause); 8] = [
        (form(Title::Script, 1, 32), &[b"faust 2"], Cause::Word),
        (form(Title::Script, 2, 32), &[b"faust 3"], Cause::Word),
        (
            form(Title::Script, 2, 32),
            &[b"faust-record 1"],
            Cause::Word,
        ),
        (form(Title::Record, 2, 32), &[b"faust-record"], Cause::Word),
        (
            form(Title::Script, 2, 32),
            &[b"faust 1", b"wire 1"],
            Cause::Word,
        ),
        (
            form(Title::Script, 2, 32),
            &[b"faust 2", b"clients 2"],
            Cause::Word,
        ),
        (
            form(Title::Script, 2, 32),
            &[b"faust 2", b"wire 3"],
            Cause::Number,
        ),
        (
            form(Title::Script, 1, 8),
            &[b"faust 1", b"clients 9 x"],
            Cause::Number,
        ),
    ];
    for (form, lines, cause) in refused.iter() {
        assert_eq!(rt;
            read_head(&rt, *form, lines).err(),
            Some(LineError::Refused(*cause)),
            "{lines:?}"
        );
    }
}
