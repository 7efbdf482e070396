// What a cell's journal has to send next.
ghost use Rattle.std.specs.Prelude.{◌≡◌, ◌<◌, IfOk, IfSome, option_copied, slice_get};
ghost use Rattle.faust_node.specs.Sending.{FindsBatch, FindsMessage, IsCarried};

use crate::cell::NodeCell;
use crate::session::Session;
use faust_record::Entry;
use faust_types::{Bytes, OutOfMemory, Post, Posts};
use std::alloc::Global;

/// A message to the server, and the place behind the entry that sent it.
#[derive(Debug, Drop)]
pub struct Dispatch {
    pub bytes: Bytes,
    pub behind: u64,
}

/// The messages of one entry to other clients, and the place behind that entry.
#[derive(Debug, Drop)]
pub struct Batch {
    pub posts: Posts,
    pub behind: u64,
}

impl<T: Session> NodeCell<T> {
    // The entry at a place. A journal's entries send what a link carries.
    fn entry(&self, place: u64) -> Option<&Entry>
        ensures entry { option_copied result ≡ slice_get self.now.log.entries place }
        ensures carried { IfSome (option_copied result) IsCarried }
    {
        let _client = self.journal().client();
        self.journal().entry(place)
    }

    /// The first message that the entries from this place on sent to the server: none exactly where they sent none.
    pub fn message_from(&self, from: u64) -> Result<Option<Dispatch>, OutOfMemory>
        ensures { IfOk result (FindsMessage self.now.log.entries from) }
    {
        for place in from..self.journal().len() {
            if let Some(entry) = self.entry(place) {
                if let Some(bytes) = entry.outcome.to_server() {
                    return Ok(Some(Dispatch {
                        bytes: bytes.copy()?,
                        behind: place + 1,
                    }));
                }
            }
        }
        Ok(None)
    }

    /// The messages to other clients of the first entry from this place on that has any: none exactly where none has.
    pub fn batch_from(&self, from: u64) -> Result<Option<Batch>, OutOfMemory>
        ensures { IfOk result (FindsBatch self.now.log.entries from) }
    {
        for at in from..self.journal().len() {
            if let Some(entry) = self.entry(at) {
                let posts = entry.outcome.to_peers();
                if let Some(first) = posts.first() {
                    let alloc = first.bytes.allocator();
                    return Ok(Some(Batch {
                        posts: copy_of(alloc, posts)?,
                        behind: at + 1,
                    }));
                }
            }
        }
        Ok(None)
    }
}

fn copy_of(alloc: Global, posts: &[Post]) -> Result<Posts, OutOfMemory>
    ensures { IfOk result (λ copy. copy ≡ posts.now) }
{
    let mut copies = Posts::new(alloc);
    copies.reserve(posts.len())?;
    for post in posts {
        copies.push(Post {
            to: post.to,
            bytes: post.bytes.copy()?,
        })?;
    }
    Ok(copies)
}
