// Which counter it is.
ghost use Rattle.atomic_table.specs.Seated.{TableId};
ghost use Rattle.faust_ticket.specs.Tokens.{no_counter};

use std::marker::Brand;

/// Names one counter, for proofs alone. A `Root<T>` and a `Seat<T>` belong to the counter that T names.
pub trait Counter {
    ghost counter: { TableId };
}

impl Counter for Brand {
    ghost counter = { no_counter };
}
