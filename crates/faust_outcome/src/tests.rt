ghost use Rattle.std.specs.Prelude.{◌≡◌, IfOk, IfSome};
ghost use Rattle.faust_types.specs.Clients.{IsClient};
ghost use Rattle.faust_outcome.specs.Gathering.{IsGathered};
ghost use Rattle.faust_outcome.specs.UserLists.{AreTold};
ghost use Rattle.faust_outcome.specs.Words.{IsInRange};

use crate::{
    Detail, Gathered, LiveCommand, LiveStatus, link_fault_line, outcome, start_fault_line,
};
use faust_node::Receipt;
use faust_receipts::Receipts;
use faust_record::{Journal, Journals};
use faust_types::{Answer, Arrivals, Kind, OpName, Operation, OutOfMemory, Sequence};
use std::alloc::Global;
use std::test::Fail;

/// The command whose form these words are, if any.
fn read(alloc: Global, words: &[&str]) -> Result<Option<LiveCommand>, OutOfMemory>
    ensures { IfOk result (λ found. IfSome found IsInRange) }
{
    let mut list = Vec::new(alloc);
    for word in words {
        list.push(String::from_str(alloc, word)?)?;
    }
    LiveCommand::of(alloc, list.as_slice())
}

/// A user that was told nothing.
fn told_nothing(alloc: Global) -> Sequence<Receipt>
    ensures { AreTold 2 1 1 result }
{
    Sequence::new(alloc)
}

/// A user that was told that entry 0 completed operation 1.1, a write.
fn told_a_write(alloc: Global) -> Result<Sequence<Receipt>, OutOfMemory>
    ensures { IfOk result (λ told. AreTold 2 1 1 told) }
{
    let op = Operation {
        name: OpName { client: 1, t: 1 },
        kind: Kind::Write,
        register: 1,
        dummy: false,
    };
    let answer = Answer {
        op,
        value: None,
        asof: 0,
    };
    let mut told = Sequence::new(alloc);
    told.push(Receipt::new(0, answer))?;
    Ok(told)
}

/// What is gathered of two clients that did nothing, with the journals in this order, where user 1 was told this.
fn idle(
    alloc: Global,
    command: &LiveCommand,
    first: u8,
    second: u8,
    told: Sequence<Receipt>,
) -> Result<Gathered, OutOfMemory>
    requires range { IsInRange command.now }
    requires two { command.now.clients ≡ 2 }
    requires one { command.now.ops ≡ 1 }
    requires first { IsClient 2 first }
    requires second { IsClient 2 second }
    requires told { AreTold 2 1 1 told }
    ensures { IfOk result (λ gathered. IsGathered command.now gathered) }
{
    let config = command.config(alloc)?;
    let mut journals = Journals::new(alloc);
    journals.push(Journal::new(alloc, &config, first)?)?;
    journals.push(Journal::new(alloc, &config, second)?)?;
    let mut receipts = Receipts::new(alloc);
    receipts.push(told)?;
    receipts.push(Sequence::new(alloc))?;
    Ok(Gathered {
        journals,
        arrivals: Arrivals::new(alloc),
        receipts,
    })
}

/// Whether that comes to a mismatch with this line.
fn is_mismatch(
    alloc: Global,
    first: u8,
    second: u8,
    told: Sequence<Receipt>,
    line: &str,
) -> Result<bool, OutOfMemory>
    requires first { IsClient 2 first }
    requires second { IsClient 2 second }
    requires told { AreTold 2 1 1 told }
{
    let Some(command) = read(alloc, &["live", "2", "1", "00", "short"])? else {
        return Ok(false);
    };
    if command.clients != 2 || command.ops != 1 {
        return Ok(false);
    }
    let gathered = idle(alloc, &command, first, second, told)?;
    let output = outcome(alloc, &command, gathered)?;
    Ok(output.status == LiveStatus::Mismatch && output.text.as_slice() == line.as_bytes())
}

#[test]
fn words_say_what_to_run(rt: HostRuntime) -> Result<(), Fail> {
    let command = read(rt.alloc(), &["live", "8", "1000", "0a7f", "full"])?;
    assert!(rt; command.is_some());
    if let Some(command) = command {
        assert_eq!(rt; command.clients, 8);
        assert_eq!(rt; command.ops, 1000);
        assert_eq!(rt; command.key.as_slice(), b"\x0a\x7f".as_slice());
        assert_eq!(rt; command.detail, Detail::Full);
        assert_eq!(rt; command.config(rt.alloc())?.delta, 200);
    }
    Ok(())
}

#[test]
fn other_words_are_no_form(rt: HostRuntime) -> Result<(), Fail> {
    let forms: [&[&str]; 8] = [
        &["live", "1", "1", "00", "short"],
        &["live", "9", "1", "00", "short"],
        &["live", "2", "0", "00", "short"],
        &["live", "2", "1001", "00", "short"],
        &["live", "2", "1", "0", "short"],
        &["live", "2", "1", "", "short"],
        &["live", "2", "1", "00", "Short"],
        &["live", "2", "1", "00", "short", "more"],
    ];
    for form in forms {
        assert!(rt; read(rt.alloc(), form)?.is_none(), "{form:?}");
    }
    Ok(())
}

#[test]
fn each_mismatch_has_its_line(rt: HostRuntime) -> Result<(), Fail> {
    let alloc = rt.alloc();
    let stranger = "journal differs: place 1 client 2\n";
    let difference = "receipt differs: 0 done 1.1 write X1 | none\n";
    let shortage = "receipts short: user 1 has 0 of 1\n";
    assert!(rt; is_mismatch(alloc, 2, 1, told_a_write(alloc)?, stranger)?);
    assert!(rt; is_mismatch(alloc, 1, 2, told_a_write(alloc)?, difference)?);
    assert!(rt; is_mismatch(alloc, 1, 2, told_nothing(alloc), shortage)?);
    Ok(())
}

#[test]
fn statuses_have_their_numbers(rt: HostRuntime) -> Result<(), Fail> {
    assert_eq!(rt; LiveStatus::WriteFault as u8, 4);
    assert_eq!(rt; LiveStatus::Mismatch as u8, 9);
    assert_eq!(rt; start_fault_line(), b"start fault\n".as_slice());
    assert_eq!(rt; link_fault_line(), b"link fault\n".as_slice());
    Ok(())
}
