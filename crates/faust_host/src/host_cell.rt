// The value behind a host's lock.
ghost use Rattle.std.specs.Prelude.{◌≡◌, Some, IfOk, IfSome};
ghost use Rattle.faust_types.specs.Clients.{IsClientCount, IsClient};
ghost use Rattle.faust_link.specs.Frames.{IsFrame};
ghost use Rattle.faust_ticket.specs.Holders.{first_seat};
ghost use Rattle.faust_host.specs.Arriving.{AreServed, AreNumbered, replay};
ghost use Rattle.faust_host.specs.Cells.{IsCell, Handles, Names, first_cell};

use crate::arrival_log::ArrivalLog;
use crate::request::request_in;
use crate::servers::Servers;
use faust_ticket::{Counter, Seat};
use faust_types::{Arrivals, Bytes, Closing, OutOfMemory, Sequence};
use std::alloc::Global;
use std::marker::Model;

/// A server with all that arrived at it. Its server is the replay of its arrivals, whose numbers its seat drew.
#[derive(Drop)]
pub struct HostCell<T: Counter> {
    alloc: Global,
    servers: Servers,
    log: ArrivalLog<T>,
    named: Sequence<bool>,
}

impl<T: Counter> Model for HostCell<T> {
    ghost use Rattle.faust_host.specs.Cells.{Cell, IsCell};

    ghost Value = { Cell };

    ghost view = { λ c. record { clients = c.log.clients; named = c.named; server = c.servers; arrivals = c.log.arrivals; seat = c.log.seat } };

    ghost invariant = { λ c. IsCell (record { clients = c.log.clients; named = c.named; server = c.servers; arrivals = c.log.arrivals; seat = c.log.seat }) };
}

impl<T: Counter> HostCell<T> {
    /// A cell for n clients at which nothing arrived. The seat is as it was split off.
    pub fn new(alloc: Global, n: u8, seat: Seat<T>) -> Result<HostCell<T>, OutOfMemory>
        requires count { IsClientCount n }
        requires seat { seat ≡ first_seat }
        ensures { IfOk result (λ cell. cell ≡ first_cell n seat) }
    {
        let named = Vec::from_elem(alloc, false, usize::from(n))?;
        Ok(HostCell {
            alloc,
            servers: Servers::new(alloc, n)?,
            log: ArrivalLog::new(alloc, n, seat)?,
            named: Sequence::from_vec(named),
        })
    }

    /// Names client i. `Named` comes exactly where it was named before. It takes no memory.
    pub fn name(&mut self, i: u8) -> Result<(), Closing>
        requires { IsClient self.old.clients i }
        ensures { Names result self.old self.new i }
    {
        let place = usize::from(i) - 1;
        if *self.named.at(place) {
            return Err(Closing::Named(i));
        }
        self.named.set(place, true);
        Ok(())
    }

    /// Does what the bytes of client i ask, draws one number for it and keeps it as an arrival: the spelling of the reply to a
    /// SUBMIT, and none to a COMMIT. `Malformed` comes exactly where they ask nothing; then `Full` where the client has 200,000
    /// arrivals; then `Turn` where the server refuses. After a refusal no number was drawn, and all is as before.
    pub fn handle(&mut self, i: u8, bytes: &[u8]) -> Result<Option<Bytes>, Closing>
        requires { IsClient self.old.clients i }
        ensures row { Handles result self.old self.new i bytes.now }
        ensures sendable { IfOk result (λ reply. IfSome reply IsFrame) }
    {
        let request = request_in(self.alloc, self.servers.clients(), bytes)?;
        if self.log.is_full(i) {
            return Err(Closing::Full);
        }
        let tried = self.servers.tried(i, &request)?;
        let Ok(()) = self.log.append(i, bytes) else {
            return Err(Closing::Memory);
        };
        Ok(self.servers.settle(i, request, tried))
    }

    /// The arrivals and the seat, with all that they keep. It takes no memory.
    pub fn into_parts(self) -> (Arrivals, Seat<T>)
        ensures arrivals { result.0 ≡ self.arrivals }
        ensures seat { result.1 ≡ self.seat }
        ensures kept { AreServed self.clients result.0 result.1 }
    {
        self.log.into_parts()
    }
}
