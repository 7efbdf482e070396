ghost use Rattle.std.specs.Prelude.{◌≡◌, ◌-◌, length, slice_index_or, slice_set, IfOk};
ghost use Rattle.faust_types.specs.Clients.{IsClient};

use faust_types::{OutOfMemory, Sequence};
use std::alloc::Global;
use std::marker::Model;

/// One item for each client, read by the client's number, from 1 on.
#[derive(Debug, Drop)]
pub struct PerClient<T> {
    items: Vec<T>,
}

impl<T> Model for PerClient<T> {
    ghost use Rattle.std.specs.Prelude.{List};

    ghost Value = { List T };

    ghost view = { λ p. p.items.items };
}

impl<T: Drop> PerClient<T> {
    /// The items of clients 1 to n.
    pub fn from_vec(items: Vec<T>) -> PerClient<T>
        ensures { result ≡ items.items }
    {
        PerClient { items }
    }

    /// How many clients there are.
    pub fn len(&self) -> usize
        ensures { result ≡ length self.now }
    {
        self.items.len()
    }

    /// The items in order of the clients.
    pub fn as_slice(&self) -> &[T]
        ensures { result.now ≡ self.now }
    {
        self.items.as_slice()
    }

    /// The allocator that the list keeps.
    pub fn allocator(&self) -> Global {
        *self.items.allocator()
    }

    /// The item of client k.
    pub fn at(&self, k: u8) -> &T
        requires { IsClient (length self.now) k }
        ensures { (d : T) → result.now ≡ slice_index_or self.now (k - 1) d }
    {
        &self.items[usize::from(k) - 1]
    }

    /// Puts an item in the place of client k.
    pub fn set(&mut self, k: u8, item: T)
        requires { IsClient (length self.old) k }
        ensures { self.new ≡ slice_set self.old (k - 1) item }
    {
        self.items[usize::from(k) - 1] = item;
    }

    /// Puts an item in the place of client k, and gives the one that was there.
    pub fn replace(&mut self, k: u8, item: T) -> T
        requires { IsClient (length self.old) k }
        ensures held { (d : T) → result ≡ slice_index_or self.old (k - 1) d }
        ensures after { self.new ≡ slice_set self.old (k - 1) item }
    {
        std::mem::replace(&mut self.items[usize::from(k) - 1], item)
    }
}

impl<T: Drop + Copy> PerClient<T> {
    /// The items as a list, for a reply.
    pub fn to_sequence(&self) -> Result<Sequence<T>, OutOfMemory>
        ensures { IfOk result (λ list. list ≡ self.now) }
    {
        Sequence::from_slice(*self.items.allocator(), &self.items)
    }

    /// An equal list of its own.
    pub fn copy(&self) -> Result<PerClient<T>, OutOfMemory>
        ensures { IfOk result (λ copy. copy ≡ self.now) }
    {
        Ok(PerClient {
            items: Vec::from_slice(*self.items.allocator(), &self.items)?,
        })
    }
}
