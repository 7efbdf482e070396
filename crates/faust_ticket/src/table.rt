// The counter's table: one word, which is the next number, under the rule of `specs/Rule.antt`. All types here but `Tickets` and
// `Token` exist for the proofs alone.
ghost use Rattle.std.specs.Prelude.{◌≡◌};
ghost use Rattle.faust_ticket.specs.Rule.{Holder, IsCounter, root, spent};
ghost use Rattle.faust_ticket.specs.Holders.{first_root};
ghost use Rattle.faust_ticket.specs.Steps.{drew, finished, root_left, seat_given, root_joined};

use atomic_table::{Join, Play, Split, Table, TableRule};
use std::alloc::Global;
use std::marker::{Model, PhantomData};

/// The table, which the root and all seats share.
pub type Tickets = Table<(), Known, (), Rule, Global>;

/// The right to step on the table. It has no bytes.
pub type Token = atomic_table::Seat<(), Known>;

/// What a token knows: which holder it is. No value of it is made, so what one would show is of no matter.
pub struct Known {
    marker: PhantomData<()>,
}

impl Model for Known {
    ghost Value = { Holder };

    ghost view = { λ _. spent };
}

/// The rule of the counter.
pub struct Rule;

impl TableRule<(), Known, ()> for Rule {
    ghost holds = { λ _. IsCounter };

    ghost first = { λ _. root first_root };
}

/// What a draw tells.
pub struct Draw;

impl Play<(), Known> for Draw {
    ghost then = { λ _ before found after. drew before.0 found after.0 × (after.1 ≡ before.1) };
}

/// What the last load tells.
pub struct Finish;

impl Play<(), Known> for Finish {
    ghost then = { λ _ before found _. finished before.0 found };
}

/// How a seat is split off.
pub struct SplitOff;

impl Split<Known> for SplitOff {
    ghost left = { root_left };

    ghost right = { seat_given };
}

/// How a seat is taken back.
pub struct TakeBack;

impl Join<Known> for TakeBack {
    ghost both = { root_joined };

    ghost spent = { spent };
}
