// What the threads of a live run do: for each client its user, the four loops over its links, its ticks, and its
// connection at the server. The end of a link has the cause that stopped the loop over it: until then no call failed.
ghost use Rattle.std.specs.Prelude.{◌≡◌};
ghost use Rattle.faust_cluster.specs.Ending.{CountsBoth, CountsHealth, CountsStop, health_at};

use crate::cast::Cast;
use crate::health::Health;
use crate::user::{Told, User};
use faust_host::{Host, NoGate};
use faust_io::{Clock, Job};
use faust_link::{FrameIn, FrameOut, Net, PostIn, PostOut};
use faust_node::Node;
use faust_types::Closing;
use std::alloc::Global;
use std::sync::Wait;

/// The end of a client's stream at which replies come out.
#[derive(Drop)]
pub struct Replies<I: FrameIn> {
    link: I,
    stopped: Option<Closing>,
    ghost counted: { CountsStop stopped (I.faults link) },
}

impl<I: FrameIn + Drop> Replies<I> {
    /// Over a link of which no call failed.
    pub fn new(link: I) -> Replies<I>
        requires { I.faults link ≡ 0 }
    {
        Replies {
            link,
            stopped: None,
        }
    }

    /// Hands the replies to the node until the stream ends.
    pub fn serve<T: Cast, R: Wait>(self, rt: &R, node: &Node<T>) -> Replies<I> {
        if self.stopped.is_some() {
            return self;
        }
        let mut link = self.link;
        let cause = node.serve_replies(rt, &mut link);
        Replies {
            link,
            stopped: Some(cause),
        }
    }

    /// Gives the link back.
    pub fn give_back<N: Net<In = I>>(self, net: &mut N) -> Health
        ensures health { result ≡ health_at self.stopped }
        ensures count { CountsHealth result (N.faults net.old) (N.faults net.new) }
    {
        net.back_in(self.link);
        Health::at(self.stopped)
    }
}

/// The end of a client's stream into which it sends.
#[derive(Drop)]
pub struct Outbox<O: FrameOut> {
    link: O,
    stopped: Option<Closing>,
    ghost counted: { CountsStop stopped (O.faults link) },
}

impl<O: FrameOut + Drop> Outbox<O> {
    /// Over a link of which no call failed.
    pub fn new(link: O) -> Outbox<O>
        requires { O.faults link ≡ 0 }
    {
        Outbox {
            link,
            stopped: None,
        }
    }

    /// Sends the node's messages until it is closed and all are sent.
    pub fn serve<T: Cast, R: Wait>(self, rt: &R, node: &Node<T>) -> Outbox<O> {
        if self.stopped.is_some() {
            return self;
        }
        let mut link = self.link;
        let cause = node.serve_outbox(rt, &mut link);
        Outbox {
            link,
            stopped: Some(cause),
        }
    }

    /// Ends the stream.
    pub fn close(self) {
        let mut link = self.link;
        link.close();
    }

    /// Gives the link back.
    pub fn give_back<N: Net<Out = O>>(self, net: &mut N) -> Health
        ensures health { result ≡ health_at self.stopped }
        ensures count { CountsHealth result (N.faults net.old) (N.faults net.new) }
    {
        net.back_out(self.link);
        Health::at(self.stopped)
    }
}

/// The end of a client's post at which datagrams come out.
#[derive(Drop)]
pub struct Inbox<P: PostIn> {
    post: P,
    stopped: Option<Closing>,
    ghost counted: { CountsStop stopped (P.faults post) },
}

impl<P: PostIn + Drop> Inbox<P> {
    /// Over a post of which no call failed.
    pub fn new(post: P) -> Inbox<P>
        requires { P.faults post ≡ 0 }
    {
        Inbox {
            post,
            stopped: None,
        }
    }

    /// Hands the datagrams to the node until it is closed.
    pub fn serve<T: Cast, R: Wait>(self, rt: &R, node: &Node<T>) -> Inbox<P> {
        if self.stopped.is_some() {
            return self;
        }
        let mut post = self.post;
        let cause = node.serve_peers(rt, &mut post);
        Inbox {
            post,
            stopped: Some(cause),
        }
    }

    /// Gives the post back.
    pub fn give_back<N: Net<Pin = P>>(self, net: &mut N) -> Health
        ensures health { result ≡ health_at self.stopped }
        ensures count { CountsHealth result (N.faults net.old) (N.faults net.new) }
    {
        net.back_pin(self.post);
        Health::at(self.stopped)
    }
}

/// The end of a client's post into which it gives datagrams.
#[derive(Drop)]
pub struct Postbox<Q: PostOut> {
    post: Q,
    stopped: Option<Closing>,
    ghost counted: { CountsStop stopped (Q.faults post) },
}

impl<Q: PostOut + Drop> Postbox<Q> {
    /// Over a post of which no call failed.
    pub fn new(post: Q) -> Postbox<Q>
        requires { Q.faults post ≡ 0 }
    {
        Postbox {
            post,
            stopped: None,
        }
    }

    /// Gives the node's messages to other clients until it is closed and all are given.
    pub fn serve<T: Cast, R: Wait>(self, rt: &R, node: &Node<T>) -> Postbox<Q> {
        if self.stopped.is_some() {
            return self;
        }
        let mut post = self.post;
        let cause = node.serve_posts(rt, &mut post);
        Postbox {
            post,
            stopped: Some(cause),
        }
    }

    /// Gives the post back.
    pub fn give_back<N: Net<Pout = Q>>(self, net: &mut N) -> Health
        ensures health { result ≡ health_at self.stopped }
        ensures count { CountsHealth result (N.faults net.old) (N.faults net.new) }
    {
        net.back_pout(self.post);
        Health::at(self.stopped)
    }
}

/// Both ends of a stream that the server has.
#[derive(Drop)]
pub struct Connection<I: FrameIn, O: FrameOut> {
    input: I,
    output: O,
    stopped: Option<Closing>,
    ghost counted: { CountsBoth stopped (I.faults input) (O.faults output) },
}

impl<I: FrameIn + Drop, O: FrameOut + Drop> Connection<I, O> {
    /// Over a stream of which no call failed.
    pub fn new(input: I, output: O) -> Connection<I, O>
        requires { (I.faults input ≡ 0) × (O.faults output ≡ 0) }
    {
        Connection {
            input,
            output,
            stopped: None,
        }
    }

    /// Serves it until something stops it.
    pub fn serve<T: Cast, R: Wait>(self, rt: &R, host: &Host<T>) -> Connection<I, O> {
        if self.stopped.is_some() {
            return self;
        }
        let Connection {
            mut input,
            mut output,
            stopped: _,
        } = self;
        let cause = host.serve(rt, &mut input, &mut output, &NoGate);
        Connection {
            input,
            output,
            stopped: Some(cause),
        }
    }

    /// Ends the stream.
    pub fn close(self) {
        let mut output = self.output;
        output.close();
    }

    /// Gives both ends back.
    pub fn give_back<N: Net<In = I, Out = O>>(self, net: &mut N) -> Health
        ensures health { result ≡ health_at self.stopped }
        ensures count { CountsHealth result (N.faults net.old) (N.faults net.new) }
    {
        net.back_in(self.input);
        net.back_out(self.output);
        Health::at(self.stopped)
    }
}

/// What a thread leaves.
#[derive(Drop)]
pub enum Left<T: Cast, I: FrameIn, O: FrameOut, P: PostIn, Q: PostOut> {
    User(Told<T>),
    Replies(Replies<I>),
    Outbox(Outbox<O>),
    Inbox(Inbox<P>),
    Postbox(Postbox<Q>),
    Ticks(Closing),
    Connection(Connection<I, O>),
}

/// What one thread does, with whom it does it for.
#[derive(Drop)]
pub enum LiveJob<'a, T: Cast, R, I: FrameIn, O: FrameOut, P: PostIn, Q: PostOut, C: Clock> {
    User {
        rt: &'a R,
        alloc: Global,
        node: &'a Node<T>,
        user: User<T>,
    },
    Replies {
        rt: &'a R,
        node: &'a Node<T>,
        link: Replies<I>,
    },
    Outbox {
        rt: &'a R,
        node: &'a Node<T>,
        link: Outbox<O>,
    },
    Inbox {
        rt: &'a R,
        node: &'a Node<T>,
        post: Inbox<P>,
    },
    Postbox {
        rt: &'a R,
        node: &'a Node<T>,
        post: Postbox<Q>,
    },
    Ticks {
        rt: &'a R,
        node: &'a Node<T>,
        clock: C,
    },
    Connection {
        rt: &'a R,
        host: &'a Host<T>,
        connection: Connection<I, O>,
    },
}

impl<
    'a,
    T: Cast,
    R: Wait,
    I: FrameIn + Drop,
    O: FrameOut + Drop,
    P: PostIn + Drop,
    Q: PostOut + Drop,
    C: Clock + Drop,
> Job for LiveJob<'a, T, R, I, O, P, Q, C> {
    type Out = Left<T, I, O, P, Q>;

    ghost gives = { λ _ _. Unit {0} };

    fn work(self) -> Left<T, I, O, P, Q> {
        match self {
            LiveJob::User {
                rt,
                alloc,
                node,
                user,
            } => Left::User(user.serve(rt, alloc, node)),
            LiveJob::Replies { rt, node, link } => Left::Replies(link.serve(rt, node)),
            LiveJob::Outbox { rt, node, link } => Left::Outbox(link.serve(rt, node)),
            LiveJob::Inbox { rt, node, post } => Left::Inbox(post.serve(rt, node)),
            LiveJob::Postbox { rt, node, post } => Left::Postbox(post.serve(rt, node)),
            LiveJob::Ticks {
                rt,
                node,
                mut clock,
            } => Left::Ticks(node.serve_ticks(rt, &mut clock)),
            LiveJob::Connection {
                rt,
                host,
                connection,
            } => Left::Connection(connection.serve(rt, host)),
        }
    }

    // Closes what other threads wait for.
    fn give_up(self) {
        match self {
            LiveJob::User { rt, node, .. } => node.close(rt),
            LiveJob::Replies { rt, node, .. } => node.close(rt),
            LiveJob::Outbox { rt, node, link } => {
                node.close(rt);
                link.close();
            }
            LiveJob::Inbox { rt, node, .. } => node.close(rt),
            LiveJob::Postbox { rt, node, .. } => node.close(rt),
            LiveJob::Ticks { rt, node, .. } => node.close(rt),
            LiveJob::Connection { connection, .. } => connection.close(),
        }
    }
}
