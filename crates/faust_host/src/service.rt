// How many clients a host serves.
ghost use Rattle.std.specs.Prelude.{ℕ};

use faust_ticket::Counter;
use std::marker::Brand;

/// Names one counter and a number of clients, for proofs alone: each value behind the lock of a `Host<T>` is of that many clients.
pub trait Service: Counter {
    ghost clients: { ℕ };
}

impl Service for Brand {
    ghost clients = { 2 };
}
