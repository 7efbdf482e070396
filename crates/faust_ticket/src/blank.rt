// A counter that no type names yet.
ghost use Rattle.std.specs.Prelude.{◌≡◌};
ghost use Rattle.faust_ticket.specs.Holders.{first_root};

use crate::counter::Counter;
use crate::root::Root;
use crate::table::{Tickets, Token};
use faust_types::OutOfMemory;
use std::alloc::Global;
use std::marker::Model;
use std::sync::Arc;

/// A counter of which no number is drawn, and which no type names yet. Contracts see its name.
#[derive(Drop)]
pub struct Blank {
    table: Arc<Tickets, Global>,
    token: Token,
}

impl Model for Blank {
    ghost use Rattle.std.specs.Arc.{arc_value};
    ghost use Rattle.atomic_table.specs.Seated.{TableId};
    ghost use Rattle.faust_ticket.specs.Holders.{first_root};
    ghost use Rattle.faust_ticket.specs.Rule.{root};
    ghost use Rattle.faust_ticket.specs.Tokens.{IsOf};

    ghost Value = { TableId };

    ghost view = { λ b. b.token.table_id };

    ghost invariant = { λ b. IsOf b.token.table_id (arc_value b.table).shared.table_id b.token (root first_root) };
}

/// A new counter. What is known of it stands in the type: no number is drawn yet.
pub fn start(alloc: Global) -> Result<Blank, OutOfMemory> {
    let (table, token) = Tickets::of_words(alloc, &[0], &())?;
    let table = Arc::new(alloc, table)?;
    Ok(Blank { table, token })
}

impl Blank {
    /// The root of the counter, with 2^40 spare numbers. T names this counter.
    pub fn open<T: Counter>(self) -> Root<T>
        requires { self ≡ T.counter }
        ensures { result ≡ first_root }
    {
        let Blank { table, token } = self;
        Root::of(table, token)
    }
}
