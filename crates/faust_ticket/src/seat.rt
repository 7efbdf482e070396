// A seat of a counter: it draws numbers.
ghost use Rattle.std.specs.Prelude.{◌≡◌, ◌^◌, ◌<◌, All};
ghost use Rattle.std.specs.Arc.{arc_value};
ghost use Rattle.faust_ticket.specs.Holders.{first_seat, after_draw};
ghost use Rattle.faust_ticket.specs.Rule.{seat};
ghost use Rattle.faust_ticket.specs.Tokens.{IsOf};

use crate::counter::Counter;
use crate::table::{Draw, Tickets, Token};
use std::alloc::Global;
use std::marker::{Model, PhantomData};
use std::sync::Arc;

/// A seat of the counter that T names. It may go to another thread. Where it is dropped, the root's seats out stay one more.
#[derive(Drop)]
pub struct Seat<T: Counter> {
    table: Arc<Tickets, Global>,
    token: Token,
    counter: PhantomData<T>,
}

impl<T: Counter> Model for Seat<T> {
    ghost use Rattle.std.specs.Arc.{arc_value};
    ghost use Rattle.faust_ticket.specs.Holders.{SeatView};
    ghost use Rattle.faust_ticket.specs.Rule.{seat};
    ghost use Rattle.faust_ticket.specs.Tokens.{IsOf, seat_in};

    ghost Value = { SeatView };

    ghost view = { λ s. seat_in s.token.me.0 };

    ghost invariant = { λ s. IsOf T.counter (arc_value s.table).shared.table_id s.token (seat (seat_in s.token.me.0)) };
}

impl<T: Counter> Seat<T> {
    pub(crate) fn of(table: Arc<Tickets, Global>, token: Token) -> Seat<T>
        requires { IsOf T.counter (arc_value table).shared.table_id token (seat first_seat) }
        ensures { result ≡ first_seat }
    {
        Seat {
            table,
            token,
            counter: PhantomData,
        }
    }

    pub(crate) fn into_parts(self) -> (Arc<Tickets, Global>, Token)
        ensures { IsOf T.counter (arc_value result.0).shared.table_id result.1 (seat self) }
    {
        let Seat {
            table,
            token,
            counter: _,
        } = self;
        (table, token)
    }

    /// The next number, below 2^40 and above each one that this seat drew. One spare number is used up.
    pub fn draw(&mut self) -> u64
        requires { 0 < self.old.spare }
        ensures taken { self.new ≡ after_draw self.old result }
        ensures rising { All (λ x. x < result) self.old.drawn }
        ensures below { result < 2 ^ 40 }
    {
        self.table.shared.fetch_add::<Draw>(&mut self.token, 0, 1)
    }
}
