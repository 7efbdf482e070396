use crate::generator::generate;
use crate::parser::parse;
use std::test::Fail;

/// What the rules of drawing give for this seed, 3 clients and 5 operations.
const SCRIPT: &[u8] = b"faust 1\n\
clients 3\n\
key 000102030405060708090a0b0c0d0e0f\n\
delta 1000\n\
dummy 1000000\n\
read 2 2\n\
write 3 \"3-1\"\n\
arrive 3\n\
read 1 2\n\
reply 3\n\
arrive 3\n\
write 3 \"3-2\"\n\
arrive 2\n\
arrive 3\n\
reply 2\n\
reply 3\n\
arrive 2\n\
arrive 1\n\
reply 1\n\
arrive 3\n\
arrive 1\n\
read 3 1\n\
arrive 3\n\
reply 3\n\
arrive 3\n\
tick 1 1000\n\
tick 2 1000\n\
tick 3 1000\n\
peer 1 2 1\n\
peer 1 3 1\n\
peer 2 1 1\n\
peer 2 3 1\n\
peer 3 1 1\n\
peer 3 2 1\n\
peer 2 1 2\n\
peer 3 1 2\n\
peer 1 2 2\n\
peer 3 2 2\n\
peer 1 3 2\n\
peer 2 3 2\n\
tick 1 2000\n\
tick 2 2000\n\
tick 3 2000\n\
peer 1 2 3\n\
peer 1 3 3\n\
peer 2 1 3\n\
peer 2 3 3\n\
peer 3 1 3\n\
peer 3 2 3\n\
peer 2 1 4\n\
peer 3 1 4\n\
peer 1 2 4\n\
peer 3 2 4\n\
peer 1 3 4\n\
peer 2 3 4\n\
end\n";

#[test]
fn the_script_of_a_seed(rt: HostRuntime) -> Result<(), Fail> {
    let made = generate(rt.alloc(), u64::MAX, 3, 5)?;
    let read = parse(rt.alloc(), SCRIPT)?;
    let made_text = format!(in rt.alloc(); "{made:?}")?;
    let read_text = format!(in rt.alloc(); "{read:?}")?;
    assert_eq!(rt; made_text.as_str(), read_text.as_str());
    Ok(())
}

#[test]
fn the_largest_script(rt: HostRuntime) -> Result<(), Fail> {
    let made = generate(rt.alloc(), u64::MAX, 32, 3000)?;
    assert_eq!(rt; made.events.len(), 16_032);
    Ok(())
}
