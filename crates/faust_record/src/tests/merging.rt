ghost use Rattle.std.specs.Prelude.{◌≡◌, [], ◌∷◌, ◌++◌, IfOk};
ghost use Rattle.faust_types.specs.Ranges.{IsConfig};
ghost use Rattle.faust_record.specs.Merging.{numbers_of};

use super::{bytes_of, config, message_of};
use crate::{Input, Journal, Journals, MergeError, RunRecord};
use faust_types::{Arrival, Arrivals, Bytes, Config, OutOfMemory};
use std::alloc::Global;
use std::test::Fail;

// Under wire 1 the SUBMIT of the write of `a` says nothing of a COMMIT.
const SUBMIT_OF_A_1: &str =
    "010101010000000000000001352fbaf1d0763b484ffdd243407dfffdeef23b8c194f9a8c2d0451d034a09d384abcef5c3ca28a617ba6b8ae0bb0b00914422da068d31e676b0e3b7edd24b06e000161";

const CHANGED: &str =
    "010101010000000000000001352fbaf1d0763b484ffdd243407dfffdeef23b8c194f9a8c2d0451d034a09d384abcef5c3ca28a617ba6b8ae0bb0b00914422da068d31e676b0e3b7edd24b06e000160";

/// The journal of client 1 with one write, as entry 0.
fn one_write(alloc: Global, config: &Config) -> Result<Journal, MergeError>
    requires config { IsConfig config.now }
    requires two { config.now.clients ≡ 2 }
    ensures config { IfOk result (λ journal. journal.config ≡ config.now) }
    ensures numbers { IfOk result (λ journal. numbers_of journal.entries ≡ 0 ∷ []) }
{
    let mut journal = Journal::new(alloc, config, 1)?;
    let value = Bytes::from_slice(alloc, b"a")?;
    match journal.step(0, Input::Write(value)) {
        Ok(()) => Ok(journal),
        Err(_) => Err(MergeError::OutOfMemory),
    }
}

/// What merging answers to two journals, which have entry 0, and an arrival of these bytes from this client, as
/// entry 1.
fn merged(
    alloc: Global,
    config: Config,
    first: Journal,
    second: Journal,
    from: u8,
    text: &str,
) -> Result<RunRecord, MergeError>
    requires config { IsConfig config }
    requires two { config.clients ≡ 2 }
    requires first { first.config ≡ config }
    requires second { second.config ≡ config }
    requires numbers { numbers_of (first.entries ++ second.entries) ≡ 0 ∷ [] }
{
    let mut journals = Journals::new(alloc);
    journals.push(first)?;
    journals.push(second)?;
    let mut arrivals = Arrivals::new(alloc);
    arrivals.push(Arrival {
        number: 1,
        client: from,
        message: bytes_of(alloc, text)?,
    })?;
    RunRecord::merge(alloc, config, journals, arrivals)
}

/// The same for one write of client 1; `merged_swapped` has the journal of client 2 first.
fn merged_in_order(alloc: Global, from: u8, text: &str) -> Result<RunRecord, MergeError> {
    let config = config(alloc, 1)?;
    let first = one_write(alloc, &config)?;
    let second = Journal::new(alloc, &config, 2)?;
    merged(alloc, config, first, second, from, text)
}

fn merged_swapped(alloc: Global, from: u8, text: &str) -> Result<RunRecord, MergeError> {
    let config = config(alloc, 1)?;
    let first = one_write(alloc, &config)?;
    let second = Journal::new(alloc, &config, 2)?;
    merged(alloc, config, second, first, from, text)
}

fn is_sent(sent: &Option<Bytes>, text: &[u8]) -> bool {
    match sent {
        None => text.is_empty(),
        Some(bytes) => bytes.as_slice() == text,
    }
}

/// Whether the first arrival of this client is answered as another one than was sent.
fn is_frame(
    answer: &Result<RunRecord, MergeError>,
    from: u8,
    was_sent: &[u8],
    arrived: &[u8],
) -> bool {
    match answer {
        Err(
            MergeError::Frame {
                client,
                index,
                sent,
                got,
            },
        ) => {
            *client == from && *index == 1 && is_sent(sent, was_sent) && got.as_slice() == arrived
        }
        _ => false,
    }
}

fn is_stranger(answer: &Result<RunRecord, MergeError>, at: u8, who: u8) -> bool {
    match answer {
        Err(MergeError::Client { place, client }) => *place == at && *client == who,
        _ => false,
    }
}

/// Whether the SUBMIT of client 1, as it was sent, is refused as that of another client.
fn is_refused_from(alloc: Global, from: u8) -> Result<bool, OutOfMemory> {
    let submit = bytes_of(alloc, SUBMIT_OF_A_1)?;
    let answer = merged_in_order(alloc, from, SUBMIT_OF_A_1);
    Ok(is_frame(&answer, from, &[], submit.as_slice()))
}

#[test]
fn what_is_sent_merges(rt: HostRuntime) -> Result<(), Fail> {
    let alloc = rt.alloc();
    let submit = bytes_of(alloc, SUBMIT_OF_A_1)?;
    let record = merged_in_order(alloc, 1, SUBMIT_OF_A_1)?;
    assert_eq!(rt; record.len(), 2);
    assert!(rt; message_of(&record, 1) == submit.as_slice());
    Ok(())
}

#[test]
fn what_differs_is_named(rt: HostRuntime) -> Result<(), Fail> {
    let alloc = rt.alloc();
    let submit = bytes_of(alloc, SUBMIT_OF_A_1)?;
    let changed = bytes_of(alloc, CHANGED)?;
    let answer = merged_in_order(alloc, 1, CHANGED);
    assert!(rt; is_frame(&answer, 1, submit.as_slice(), changed.as_slice()));
    assert!(rt; is_refused_from(alloc, 0)?);
    assert!(rt; is_refused_from(alloc, 2)?);
    assert!(rt; is_refused_from(alloc, 3)?);
    assert!(rt; is_stranger(&merged_swapped(alloc, 1, CHANGED), 1, 2));
    Ok(())
}
