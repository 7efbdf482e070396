//! Messages arrive in the order of entries: each is the next one of its client, or the first that isn't is named.
ghost use Rattle.std.specs.Prelude.{◌≡◌, ◌<◌, ◌+◌, ◌^◌, None, Some, drop, length, slice_index_or, take};
ghost use Rattle.faust_types.specs.Clients.{IsClient};
ghost use Rattle.faust_record.specs.Runs.{arriving};
ghost use Rattle.faust_record.specs.Kept.{blank_entry};
ghost use Rattle.faust_record.specs.Placing.{AreFedTo, ArePlacedFor, Feeds, FeedsOne, IsPlacedFor};

use crate::entry::{Entry, Input};
use crate::errors::MergeError;
use crate::first::first_outboxes;
use crate::outbox::Outbox;
use faust_types::{Bytes, Sequence};
use std::alloc::Global;

/// The outboxes of n clients after all entries.
pub fn feed(alloc: Global, n: u8, entries: &Sequence<Entry>) -> Result<Vec<Outbox>, MergeError>
    requires { ArePlacedFor n entries.now }
    ensures { Feeds result n entries.now }
{
    let mut outboxes = first_outboxes(alloc, n)?;
    for q in 0..entries.len() {
        feed_one(n, &mut outboxes, entries, q)?;
    }
    Ok(outboxes)
}

fn feed_one(
    n: u8,
    outboxes: &mut Vec<Outbox>,
    entries: &Sequence<Entry>,
    q: usize,
) -> Result<(), MergeError>
    requires place { q < length entries.now }
    requires room { q + 1 < 2 ^ 64 }
    requires placed { ArePlacedFor n entries.now }
    requires fed { AreFedTo n outboxes.old.items (take q entries.now) (drop q entries.now) entries.now }
    ensures { FeedsOne result n outboxes.new.items entries.now (q + 1) }
{
    let entry = entries.at(q);
    match &entry.input {
        Input::Arrive(message) => deliver(n, outboxes, entries, q, message),
        Input::Write(_) | Input::Read(_) | Input::Reply(_) | Input::Peer(_) | Input::Tick(_) => {
            note(n, outboxes, entries, q)
        }
    }
}

// An entry that is no arrival.
fn note(
    n: u8,
    outboxes: &mut Vec<Outbox>,
    entries: &Sequence<Entry>,
    q: usize,
) -> Result<(), MergeError>
    requires place { q < length entries.now }
    requires placed { ArePlacedFor n entries.now }
    requires act { arriving (slice_index_or entries.now q blank_entry).input ≡ None }
    requires fed { AreFedTo n outboxes.old.items (take q entries.now) (drop q entries.now) entries.now }
    ensures { FeedsOne result n outboxes.new.items entries.now (q + 1) }
{
    let entry = entries.at(q);
    let outbox = &mut outboxes[usize::from(entry.client) - 1];
    outbox.note(entry, q)?;
    Ok(())
}

// An arrival. A number that is no client has sent nothing.
fn deliver(
    n: u8,
    outboxes: &mut Vec<Outbox>,
    entries: &Sequence<Entry>,
    q: usize,
    message: &Bytes,
) -> Result<(), MergeError>
    requires place { q < length entries.now }
    requires room { q + 1 < 2 ^ 64 }
    requires placed { ArePlacedFor n entries.now }
    requires arrival { arriving (slice_index_or entries.now q blank_entry).input ≡ Some message.now }
    requires fed { AreFedTo n outboxes.old.items (take q entries.now) (drop q entries.now) entries.now }
    ensures { FeedsOne result n outboxes.new.items entries.now (q + 1) }
{
    let client = entries.at(q).client;
    if client < 1 || client > n {
        return Err(MergeError::Frame {
            client,
            index: 1,
            sent: None,
            got: message.copy()?,
        });
    }
    let outbox = &mut outboxes[usize::from(client) - 1];
    outbox.deliver(entries, client, message)
}
