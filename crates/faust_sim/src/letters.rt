ghost use Rattle.std.specs.Prelude.{◌≡◌, ◌-◌, ◌<◌, ◌≤◌, [], length, replicate, slice_get, slice_index_or, IfOk, OnOk};
ghost use Rattle.faust_types.specs.Clients.{IsClient};
ghost use Rattle.faust_types.specs.declared.outcome.Post.{Post};

use faust_types::{OutOfMemory, Post, Sequence};
use std::alloc::Global;
use std::marker::Model;

/// Where a message to another client stands: the number of the entry that sent it, and its place among what that entry
/// sent, both from 0 on.
#[derive(Clone, Copy, Debug, Drop)]
pub struct Place {
    pub entry: u64,
    pub index: usize,
}

/// What one client sent to the others: for each receiver the places of the messages, in the order sent.
#[derive(Drop)]
pub struct Letters {
    lists: Vec<Sequence<Place>>,
}

impl Model for Letters {
    ghost use Rattle.std.specs.Prelude.{List};
    ghost use Rattle.faust_sim.specs.declared.letters.Place.{Place};

    ghost Value = { List (List Place) };

    ghost view = { λ s. s.lists.items };
}

impl Letters {
    ghost use Rattle.faust_sim.specs.Kept.{AreToClients, list_for, noted_from, place_at, with_place};

    /// Nothing was sent to any of n clients.
    pub fn new(alloc: Global, n: u8) -> Result<Letters, OutOfMemory>
        ensures { IfOk result (λ letters. letters ≡ replicate n []) }
    {
        let mut lists = Vec::with_capacity(alloc, usize::from(n))?;
        for _ in 0..n {
            lists.push(Sequence::new(alloc))?;
        }
        Ok(Letters { lists })
    }

    /// Takes the places of what an entry sent.
    pub fn note(&mut self, entry: u64, posts: &[Post]) -> Result<(), OutOfMemory>
        requires { AreToClients (length self.old) posts.now }
        ensures { OnOk result (self.new ≡ noted_from self.old entry 0 posts.now) }
    {
        for index in 0..posts.len() {
            let to = at(posts, index).to;
            self.put(to, Place { entry, index })?;
        }
        Ok(())
    }

    fn put(&mut self, to: u8, place: Place) -> Result<(), OutOfMemory>
        requires { IsClient (length self.old) to }
        ensures { OnOk result (self.new ≡ with_place self.old to place) }
    {
        self.lists[usize::from(to) - 1].push(place)
    }

    /// The place of the k-th message to client j, from 1 on: none exactly where there is none.
    pub fn place(&self, j: u8, k: usize) -> Option<Place>
        requires client { IsClient (length self.now) j }
        requires counted { 1 ≤ k }
        ensures { result ≡ slice_get (list_for self.now j) (k - 1) }
    {
        self.lists[usize::from(j) - 1]
            .as_slice()
            .get(k - 1)
            .copied()
    }
}

fn at(posts: &[Post], index: usize) -> &Post
    requires { index < length posts.now }
    ensures { (d : Post) → result.now ≡ slice_index_or posts.now index d }
{
    &posts[index]
}
