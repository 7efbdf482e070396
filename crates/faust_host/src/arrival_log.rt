// The messages that the server accepted, with their numbers.
ghost use Rattle.std.specs.Prelude.{◌≡◌, ◌↔◌, ◌<◌, ◌∷◌, ◌++◌, ℕ, IfOk, OnOk, OnErr, IsTrue, true, length, [], replicate, false};
ghost use Rattle.faust_types.specs.Clients.{IsClientCount, IsClient};
ghost use Rattle.faust_ticket.specs.Holders.{first_seat, after_draw};
ghost use Rattle.faust_host.specs.Arriving.{AreNumbered, arrivals_of};
ghost use Rattle.faust_host.specs.Cells.{is_full};
ghost use Rattle.faust_host.specs.Logs.{logged, first_log};

use faust_ticket::{Counter, Seat};
use faust_types::{Arrival, Arrivals, Bytes, Numbers, OutOfMemory};
use std::alloc::Global;
use std::marker::Model;

/// The most arrivals of a client.
const MAX_ARRIVALS: u64 = 200_000;

/// The arrivals of a host, each with the number that the seat drew for it, and how many each client has.
#[derive(Drop)]
pub struct ArrivalLog<T: Counter> {
    arrivals: Vec<Arrival>,
    counts: Numbers,
    seat: Seat<T>,
}

impl<T: Counter> Model for ArrivalLog<T> {
    ghost use Rattle.std.specs.Prelude.{length};
    ghost use Rattle.faust_host.specs.Logs.{Log, IsCounted};

    ghost Value = { Log };

    ghost view = { λ log. record { clients = length log.counts; arrivals = log.arrivals.items; seat = log.seat } };

    ghost invariant = { λ log. IsCounted log.counts (record { clients = length log.counts; arrivals = log.arrivals.items; seat = log.seat }) };
}

impl<T: Counter> ArrivalLog<T> {
    /// No arrivals of n clients, and a seat that drew nothing.
    pub fn new(alloc: Global, n: u8, seat: Seat<T>) -> Result<ArrivalLog<T>, OutOfMemory>
        requires count { IsClientCount n }
        requires seat { seat ≡ first_seat }
        ensures log { IfOk result (λ log. log ≡ first_log n seat) }
        ensures kept { IfOk result (λ log. AreNumbered log.clients log.arrivals log.seat) }
    {
        let counts = Vec::from_elem(alloc, 0, usize::from(n))?;
        Ok(ArrivalLog {
            arrivals: Vec::new(alloc),
            counts: Numbers::from_vec(counts),
            seat,
        })
    }

    /// Whether client i has as many arrivals as it may.
    pub fn is_full(&self, i: u8) -> bool
        requires { IsClient self.now.clients i }
        ensures { result ≡ is_full i self.now.arrivals }
    {
        MAX_ARRIVALS <= *self.counts.at(usize::from(i) - 1)
    }

    /// Draws a number and puts the message of client i behind the others. The memory for it is found first: without it no number
    /// is drawn.
    pub fn append(&mut self, i: u8, bytes: &[u8]) -> Result<(), OutOfMemory>
        requires client { IsClient self.old.clients i }
        requires room { is_full i self.old.arrivals ≡ false }
        ensures ok { OnOk result ((number : ℕ) × (self.new ≡ logged self.old i bytes.now number)) }
        ensures err { OnErr result (self.new ≡ self.old) }
        ensures kept { AreNumbered self.new.clients self.new.arrivals self.new.seat }
    {
        let place = usize::from(i) - 1;
        let message = Bytes::from_slice(*self.arrivals.allocator(), bytes)?;
        self.arrivals.reserve(1)?;
        let number = self.seat.draw();
        self.arrivals.push_reserved(Arrival {
            number,
            client: i,
            message,
        });
        self.counts.set(place, *self.counts.at(place) + 1);
        Ok(())
    }

    /// The arrivals and the seat.
    pub fn into_parts(self) -> (Arrivals, Seat<T>)
        ensures arrivals { result.0 ≡ self.arrivals }
        ensures seat { result.1 ≡ self.seat }
        ensures kept { AreNumbered self.clients self.arrivals self.seat }
    {
        (Arrivals::from_vec(self.arrivals), self.seat)
    }
}
