ghost use Rattle.std.specs.Prelude.{◌≡◌, ℕ, ◌+◌, ◌*◌, ◌≤◌, ◌++◌, length, OnOk, IfOk};
ghost use Rattle.faust_types.specs.Clients.{IsClient, IsClientCount};
ghost use Rattle.faust_script.specs.Generated.{IsSampleSize, drawn_events, each_up_to, from_each, generated, last_operation, round_of, sample_config, ticks, to_another, to_each};
ghost use Rattle.faust_script.specs.InRange.{IsScript};

use crate::event::Event;
use crate::progress::Progress;
use crate::script::{Events, Script};
use faust_types::{Bytes, Config, OutOfMemory};
use std::alloc::Global;

const KEY: [u8; 16] = [0, 1, 2, 3, 4, 5, 6, 7, 8, 9, 10, 11, 12, 13, 14, 15];

/// A script for 2 to 32 clients with 1 to 3,000 operations that overlap as the seed has it, and two rounds in which all
/// clients hear of each other. The server is right in it, and each event is an entry of the run.
pub fn generate(alloc: Global, seed: u64, clients: u8, ops: u64) -> Result<Script, OutOfMemory>
    requires { IsSampleSize clients ops }
    ensures exact { IfOk result (λ script. script ≡ generated seed clients ops) }
    ensures in_range { IfOk result IsScript }
{
    let mut events = drawn_events(alloc, seed, clients, ops)?;
    end_operations(&mut events, clients)?;
    put_round(&mut events, clients, 1)?;
    put_round(&mut events, clients, 2)?;
    Ok(Script {
        format: 1,
        config: sample_config(alloc, clients)?,
        events,
    })
}

fn drawn_events(alloc: Global, seed: u64, clients: u8, ops: u64) -> Result<Events, OutOfMemory>
    requires { IsSampleSize clients ops }
    ensures { IfOk result (λ events. events ≡ drawn_events seed clients ops) }
{
    let mut progress = Progress::start(alloc, seed, clients, event_count(clients, ops))?;
    for _ in 0..4 * (ops - 1) {
        progress.step(clients, ops)?;
    }
    let Progress { events, .. } = progress;
    Ok(events)
}

fn event_count(clients: u8, ops: u64) -> usize
    requires { IsSampleSize clients ops }
{
    let clients = usize::from(clients);
    4 * ops as usize + 2 * (clients + 2 * clients * (clients - 1))
}

fn sample_config(alloc: Global, clients: u8) -> Result<Config, OutOfMemory>
    ensures { IfOk result (λ config. config ≡ sample_config clients) }
{
    Ok(Config {
        clients,
        key: Bytes::from_slice(alloc, &KEY)?,
        delta: 1000,
        dummy: 1_000_000,
        wire: 1,
    })
}

fn end_operations(events: &mut Events, clients: u8) -> Result<(), OutOfMemory>
    ensures { OnOk result (events.new ≡ events.old ++ last_operation clients) }
{
    events.push(Event::Read {
        client: clients,
        register: 1,
    })?;
    events.push(Event::Arrive { client: clients })?;
    events.push(Event::Reply { client: clients })?;
    events.push(Event::Arrive { client: clients })
}

fn put_round(events: &mut Events, clients: u8, r: u8) -> Result<(), OutOfMemory>
    requires from_one { 1 ≤ r }
    requires to_two { r ≤ 2 }
    ensures { OnOk result (events.new ≡ events.old ++ round_of clients r) }
{
    let k = 2 * usize::from(r);
    put_ticks(events, clients, 1000 * u64::from(r))?;
    put_from_each(events, clients, k - 1)?;
    put_to_each(events, clients, k)
}

fn put_ticks(events: &mut Events, clients: u8, moment: u64) -> Result<(), OutOfMemory>
    ensures { OnOk result (events.new ≡ events.old ++ ticks clients moment) }
{
    for before in 0..clients {
        let client = before + 1;
        events.push(Event::Tick { client, moment })?;
    }
    Ok(())
}

fn put_from_each(events: &mut Events, clients: u8, k: usize) -> Result<(), OutOfMemory>
    ensures { OnOk result (events.new ≡ events.old ++ from_each clients k) }
{
    for before in 0..clients {
        put_from(events, clients, before + 1, k)?;
    }
    Ok(())
}

fn put_from(events: &mut Events, clients: u8, sender: u8, k: usize) -> Result<(), OutOfMemory>
    ensures { OnOk result (events.new ≡ events.old ++ each_up_to clients (λ j. to_another k sender j)) }
{
    for before in 0..clients {
        put_peer(events, sender, before + 1, k)?;
    }
    Ok(())
}

fn put_to_each(events: &mut Events, clients: u8, k: usize) -> Result<(), OutOfMemory>
    ensures { OnOk result (events.new ≡ events.old ++ to_each clients k) }
{
    for before in 0..clients {
        put_to(events, clients, before + 1, k)?;
    }
    Ok(())
}

fn put_to(events: &mut Events, clients: u8, receiver: u8, k: usize) -> Result<(), OutOfMemory>
    ensures { OnOk result (events.new ≡ events.old ++ each_up_to clients (λ j. to_another k j receiver)) }
{
    for before in 0..clients {
        put_peer(events, before + 1, receiver, k)?;
    }
    Ok(())
}

fn put_peer(events: &mut Events, sender: u8, receiver: u8, k: usize) -> Result<(), OutOfMemory>
    ensures { OnOk result (events.new ≡ events.old ++ to_another k sender receiver) }
{
    if sender == receiver {
        return Ok(());
    }
    events.push(Event::Peer {
        sender,
        receiver,
        k,
    })
}
