//! Entries put in the places of their numbers, without a copy of what they hold.
ghost use Rattle.std.specs.Prelude.{◌≡◌, ◌+◌, ◌++◌, length, map, IfOk, OnOk};
ghost use Rattle.faust_record.specs.Journals.{member_of};
ghost use Rattle.faust_record.specs.Merging.{entry_of, gathered, logged_in};
ghost use Rattle.faust_record.specs.Placing.{AreBelow, placed};

use crate::entry::{Entry, Input};
use crate::given::Given;
use crate::journal::{Journal, Journals};
use faust_agent::Agent;
use faust_types::{Arrival, Arrivals, OutOfMemory, Sequence};
use std::alloc::Global;

/// A place for each entry of the journals and for each arrival.
pub fn room_for(
    alloc: Global,
    journals: &Journals,
    arrivals: &Arrivals,
) -> Result<Sequence<Entry>, OutOfMemory>
    ensures { IfOk result (λ table. length table ≡ length (gathered journals.now arrivals.now)) }
{
    let mut table = Sequence::new(alloc);
    for before in 0..journals.len() {
        add_blanks(&mut table, journals.at(before).len() as usize)?;
    }
    add_blanks(&mut table, arrivals.len())?;
    Ok(table)
}

fn add_blanks(table: &mut Sequence<Entry>, more: usize) -> Result<(), OutOfMemory>
    ensures { OnOk result (length table.new ≡ length table.old + more) }
{
    table.reserve(more)?;
    for _ in 0..more {
        table.push(Entry::blank())?;
    }
    Ok(())
}

/// Puts entries in their places.
pub fn put_entries(entries: Sequence<Entry>, table: &mut Sequence<Entry>)
    requires { AreBelow (length table.old) entries }
    ensures { table.new ≡ placed table.old entries }
{
    let mut entries = entries;
    while let Some(entry) = entries.pop() {
        table.set(entry.number as usize, entry);
    }
}

/// Puts arrivals in their places.
pub fn put_arrivals(arrivals: Arrivals, table: &mut Sequence<Entry>)
    requires { AreBelow (length table.old) (map entry_of arrivals) }
    ensures { table.new ≡ placed table.old (map entry_of arrivals) }
{
    let mut arrivals = arrivals;
    while let Some(arrival) = arrivals.pop() {
        let Arrival {
            number,
            client,
            message,
        } = arrival;
        let entry = Entry {
            number,
            client,
            input: Input::Arrive(message),
            outcome: Given::nothing(),
        };
        table.set(number as usize, entry);
    }
}

/// Puts the entries of journals in their places, and gives their agents in order.
pub fn put_journals(
    alloc: Global,
    journals: Journals,
    table: &mut Sequence<Entry>,
) -> Result<Vec<Agent>, OutOfMemory>
    requires { AreBelow (length table.old) (logged_in journals) }
    ensures placed { OnOk result (table.new ≡ placed table.old (logged_in journals)) }
    ensures agents { IfOk result (λ agents. agents.items ≡ map member_of journals) }
{
    let mut journals = journals;
    let mut agents = Vec::with_capacity(alloc, journals.len())?;
    while let Some(journal) = journals.pop() {
        let (agent, entries) = journal.into_parts();
        put_entries(entries, table);
        agents.push(agent)?;
    }
    agents.reverse();
    Ok(agents)
}
