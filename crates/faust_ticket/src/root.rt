// The root of a counter: it splits seats off, takes them back, and tells how many numbers were drawn.
ghost use Rattle.std.specs.Prelude.{◌≡◌, ◌^◌, ◌≤◌, IfOk, OnOk, OnErr, length};
ghost use Rattle.std.specs.Arc.{arc_value};
ghost use Rattle.faust_ticket.specs.Numbers.{HoldsEachBelow};
ghost use Rattle.faust_ticket.specs.Holders.{first_root, first_seat, after_split, after_join};
ghost use Rattle.faust_ticket.specs.Rule.{root};
ghost use Rattle.faust_ticket.specs.Tokens.{IsOf};

use crate::counter::Counter;
use crate::seat::Seat;
use crate::table::{Finish, SplitOff, TakeBack, Tickets, Token};
use faust_types::OutOfMemory;
use std::alloc::Global;
use std::marker::{Model, PhantomData};
use std::sync::Arc;

/// The root of the counter that T names. It gives spare numbers to seats, and takes seats back with the numbers that they drew.
#[derive(Drop)]
pub struct Root<T: Counter> {
    table: Arc<Tickets, Global>,
    token: Token,
    counter: PhantomData<T>,
}

impl<T: Counter> Model for Root<T> {
    ghost use Rattle.std.specs.Arc.{arc_value};
    ghost use Rattle.faust_ticket.specs.Holders.{RootView};
    ghost use Rattle.faust_ticket.specs.Rule.{root};
    ghost use Rattle.faust_ticket.specs.Tokens.{IsOf, root_in};

    ghost Value = { RootView };

    ghost view = { λ r. root_in r.token.me.0 };

    ghost invariant = { λ r. IsOf T.counter (arc_value r.table).shared.table_id r.token (root (root_in r.token.me.0)) };
}

impl<T: Counter> Root<T> {
    pub(crate) fn of(table: Arc<Tickets, Global>, token: Token) -> Root<T>
        requires { IsOf T.counter (arc_value table).shared.table_id token (root first_root) }
        ensures { result ≡ first_root }
    {
        Root {
            table,
            token,
            counter: PhantomData,
        }
    }

    /// A new seat, with an empty list and 2^32 of the root's spare numbers.
    pub fn split(&mut self) -> Result<Seat<T>, OutOfMemory>
        requires { 2 ^ 32 ≤ self.old.spare }
        ensures seat { IfOk result (λ seat. seat ≡ first_seat) }
        ensures given { OnOk result (self.new ≡ after_split self.old) }
        ensures kept { OnErr result (self.new ≡ self.old) }
    {
        let table = Arc::try_clone(&self.table)?;
        let token = table.shared.split_seat::<SplitOff>(&mut self.token);
        Ok(Seat::of(table, token))
    }

    /// Takes a seat back: its numbers go behind the root's, and its spare numbers are the root's again.
    pub fn join(&mut self, seat: Seat<T>)
        ensures { self.new ≡ after_join self.old seat }
    {
        let (table, token) = seat.into_parts();
        table.shared.join_seat::<TakeBack>(&mut self.token, token);
    }

    /// How many numbers were drawn. No seat is out, so the root's list holds each number below the answer.
    pub fn finish(self) -> u64
        requires { self.out ≡ 0 }
        ensures count { result ≡ length self.drawn }
        ensures each_once { HoldsEachBelow result self.drawn }
    {
        let Root {
            table,
            mut token,
            counter: _,
        } = self;
        table.shared.load::<Finish>(&mut token, 0)
    }
}
