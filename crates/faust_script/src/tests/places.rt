use super::{HEAD, is_refused};
use faust_text::Cause;
use faust_types::OutOfMemory;

/// A front of the script, the line that is refused, and the cause.
type Refused = (&'static [u8], u64, Cause);

const HEADS: [Refused; 53] = [
    (b"", 1, Cause::CutOff),
    (b"\n", 1, Cause::Word),
    (b"faust 1", 1, Cause::CutOff),
    (b"faust 2", 1, Cause::CutOff),
    (b"faust 3\n", 1, Cause::Word),
    (b"faust 01\n", 1, Cause::Word),
    (b"faust 1 \n", 1, Cause::Word),
    (b"faust\n", 1, Cause::Word),
    (b"Faust 1\n", 1, Cause::Word),
    (b"faust-record 1\n", 1, Cause::Word),
    (b"faust 1\r\n", 1, Cause::Word),
    (b"end\n", 1, Cause::Word),
    (b"faust 1\n", 2, Cause::CutOff),
    (b"faust 2\n", 2, Cause::CutOff),
    (b"faust 2\nclients 2\n", 2, Cause::Word),
    (b"faust 2\nwire\n", 2, Cause::Word),
    (b"faust 2\nwire 01\n", 2, Cause::Word),
    (b"faust 2\nwire 0\n", 2, Cause::Number),
    (b"faust 2\nwire 3\n", 2, Cause::Number),
    (b"faust 2\nwire 2\nclients 33\n", 3, Cause::Number),
    (b"faust 1\nwire 1\n", 2, Cause::Word),
    (b"faust 1\nclients 2", 2, Cause::CutOff),
    (b"faust 1\nend\n", 2, Cause::Word),
    (b"faust 1\nkey 00\n", 2, Cause::Word),
    (b"faust 1\nclients\n", 2, Cause::Word),
    (b"faust 1\nclients \n", 2, Cause::Word),
    (b"faust 1\nclients 02\n", 2, Cause::Word),
    (b"faust 1\nclients 2 2\n", 2, Cause::Word),
    (b"faust 1\nclients 1\n", 2, Cause::Number),
    (b"faust 1\nclients 33\n", 2, Cause::Number),
    (b"faust 1\nclients 258\n", 2, Cause::Number),
    (
        b"faust 1\nclients 100000000000000000000\n",
        2,
        Cause::Number,
    ),
    (b"faust 1\nclients 2\n", 3, Cause::CutOff),
    (b"faust 1\nclients 2\nkey\n", 3, Cause::Word),
    (b"faust 1\nclients 2\nkey \n", 3, Cause::Value),
    (b"faust 1\nclients 2\nkey 0\n", 3, Cause::Value),
    (b"faust 1\nclients 2\nkey 0G\n", 3, Cause::Value),
    (b"faust 1\nclients 2\nkey AB\n", 3, Cause::Value),
    (b"faust 1\nclients 2\nkey 0x00\n", 3, Cause::Value),
    (b"faust 1\nclients 2\nkey \"a b\"\n", 3, Cause::Value),
    (b"faust 1\nclients 2\nkey 00 00\n", 3, Cause::Word),
    (b"faust 1\nclients 2\nkey 00\ndelta 0\n", 4, Cause::Number),
    (
        b"faust 1\nclients 2\nkey 00\ndelta 1099511627776\n",
        4,
        Cause::Number,
    ),
    (b"faust 1\nclients 2\nkey 00\ndelta x\n", 4, Cause::Word),
    (b"faust 1\nclients 2\nkey 00\ndelta\n", 4, Cause::Word),
    (b"faust 1\nclients 2\nkey 00\ndummy 1\n", 4, Cause::Word),
    (
        b"faust 1\nclients 2\nkey 00\ndelta 1\ndummy 0\n",
        5,
        Cause::Number,
    ),
    (
        b"faust 1\nclients 2\nkey 00\ndelta 1\ndummy 1099511627776\n",
        5,
        Cause::Number,
    ),
    (
        b"faust 1\nclients 2\nkey 00\ndelta 1\ndummy 1 \n",
        5,
        Cause::Word,
    ),
    (
        b"faust 1\nclients 2\nkey 00\ndelta 1\nend\n",
        5,
        Cause::Word,
    ),
    (
        b"faust 1\nclients 2\nkey 00\ndelta 1\ndummy 1",
        5,
        Cause::CutOff,
    ),
    (
        b"faust 1\nclients 32\nkey 00\ndelta 1\ndummy 1\nread 33 1\nend\n",
        6,
        Cause::Number,
    ),
    (
        b"faust 1\nclients 32\nkey 00\ndelta 1\ndummy 1\nread 1 33\nend\n",
        6,
        Cause::Number,
    ),
];

const ENDS: [Refused; 13] = [
    (b"", 6, Cause::CutOff),
    (b"end", 6, Cause::CutOff),
    (b"write 1 \"a", 6, Cause::CutOff),
    (b"zzz", 6, Cause::CutOff),
    (b"arrive 1\n", 7, Cause::CutOff),
    (b"arrive 1\nend", 7, Cause::CutOff),
    (b"arrive 1\n\nend\n", 7, Cause::Word),
    (b"arrive 1\narrive 3\nzzz\n", 7, Cause::Number),
    (b"end\n\n", 7, Cause::AfterEnd),
    (b"end\nend\n", 7, Cause::AfterEnd),
    (b"end\narrive 1\n", 7, Cause::AfterEnd),
    (b"end\narrive 9", 7, Cause::CutOff),
    (b"end\n\n\n", 7, Cause::AfterEnd),
];

#[test]
fn heads_and_ends(rt: HostRuntime) -> Result<(), OutOfMemory> {
    for (front, line, cause) in HEADS.iter() {
        assert!(rt; is_refused(&rt, &[front], *line, *cause)?, "{front:?}");
    }
    for (rest, line, cause) in ENDS.iter() {
        assert!(rt; is_refused(&rt, &[HEAD, rest], *line, *cause)?, "{rest:?}");
    }
    Ok(())
}
