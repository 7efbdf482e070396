// The links of all clients, as a net makes them.
ghost use Rattle.std.specs.Prelude.{◌≡◌, IfOk, length};
ghost use Rattle.faust_link.specs.Counts.{CountsLink};

use crate::jobs::{Connection, Inbox, Outbox, Postbox, Replies};
use faust_link::{LinkError, Net};
use std::alloc::Global;

/// The ends of a client's stream at both sides, and those of its post.
#[derive(Drop)]
pub struct Links<N: Net> {
    pub replies: Replies<N::In>,
    pub outbox: Outbox<N::Out>,
    pub inbox: Inbox<N::Pin>,
    pub postbox: Postbox<N::Pout>,
    pub connection: Connection<N::In, N::Out>,
}

impl<N: Net> Links<N> {
    /// Connects client i, and accepts it.
    pub fn connect(net: &mut N, i: u8) -> Result<Links<N>, LinkError>
        ensures { CountsLink result (N.faults net.old) (N.faults net.new) }
    {
        let (replies, outbox) = net.connect(i)?;
        let (input, output) = net.accept()?;
        let (inbox, postbox) = net.post(i)?;
        Ok(Links {
            replies: Replies::new(replies),
            outbox: Outbox::new(outbox),
            inbox: Inbox::new(inbox),
            postbox: Postbox::new(postbox),
            connection: Connection::new(input, output),
        })
    }

    /// Connects clients 1 to n.
    pub fn connect_all(alloc: Global, net: &mut N, n: u8) -> Result<Vec<Links<N>>, LinkError>
        ensures count { CountsLink result (N.faults net.old) (N.faults net.new) }
        ensures as_many { IfOk result (λ links. length links.items ≡ n) }
    {
        net.listen(n)?;
        let mut links = Vec::new(alloc);
        for before in 0..n {
            let next = Links::connect(net, before + 1)?;
            if links.push(next).is_err() {
                return Err(LinkError::OutOfMemory);
            }
        }
        Ok(links)
    }
}
