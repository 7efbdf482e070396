// One live run: the links, who takes part, the threads, and what they leave.
ghost use Rattle.std.specs.Prelude.{◌≡◌, ◌≢◌, ◌+◌, ◌<◌, ◌≤◌, Err, IfErr, IfOk, length};
ghost use Rattle.faust_cluster.specs.Casting.{AreParts, AreUsersTold, IsLiveConfig};
ghost use Rattle.faust_cluster.specs.Ending.{CountsHealth};
ghost use Rattle.faust_cluster.specs.declared.health.Health.TheVariants.{LinkFailed};
ghost use Rattle.faust_cluster.specs.declared.running.Failure.TheVariants as failures;
ghost use Rattle.faust_cluster.specs.Counting.{CountsNet, CountsSpawner, IsFailureOf};

use crate::cast::Cast;
use crate::clocks::Clocks;
use crate::health::Health;
use crate::jobs::{Left, LiveJob};
use crate::links::Links;
use crate::stage::Stage;
use crate::user::User;
use faust_host::Host;
use faust_io::{Clock, Spawner, StartError};
use faust_link::{LinkError, Net};
use faust_node::Node;
use faust_outcome::Gathered;
use faust_receipts::Receipts;
use faust_ticket::Blank;
use faust_types::{Closing, Config, OutOfMemory, Sequence};
use std::alloc::Global;
use std::sync::Wait;
use std::thread::Threads;

/// Why nothing was gathered.
#[derive(Clone, Copy, Debug, PartialEq, Eq)]
pub enum Failure {
    /// A start of a thread was refused.
    Start,
    /// A link failed.
    Link,
    /// There was no memory.
    Memory,
}

impl From<OutOfMemory> for Failure {
    ghost from_gives = { λ _ failure. failure ≡ failures.Memory };

    fn from(_error: OutOfMemory) -> Failure {
        Failure::Memory
    }
}

/// A job of a run over the links of a net.
type JobOf<'a, T, R, N, C> = LiveJob<
    'a,
    T,
    R,
    <N as Net>::In,
    <N as Net>::Out,
    <N as Net>::Pin,
    <N as Net>::Pout,
    C,
>;

/// What such a job leaves.
type LeftOf<T, N> = Left<T, <N as Net>::In, <N as Net>::Out, <N as Net>::Pin, <N as Net>::Pout>;

/// Runs clients and a server with this config, each user making so many operations, and gathers what they leave. T names
/// the counter, the config and these numbers.
pub fn run_in<
    T: Cast + Send + Sync,
    R: Threads + Wait + Sync,
    N: Net,
    P: Spawner,
    C: Clock + Send + Drop,
>(
    rt: &R,
    alloc: Global,
    net: &mut N,
    spawner: &mut P,
    clocks: Clocks<C>,
    config: &Config,
    ops: u64,
    blank: Blank,
) -> Result<Gathered, Failure>
    requires counter { blank ≡ T.counter }
    requires config { IsLiveConfig config.now }
    requires named { (T.config ≡ config.now) × (T.clients ≡ config.now.clients) × (T.ops ≡ ops) }
    ensures parts { IfOk result (λ it. AreParts T.config it.journals it.arrivals) }
    ensures told { IfOk result (λ it. AreUsersTold T.config.clients T.ops it.receipts) }
    ensures net { CountsNet result (N.faults net.old) (N.faults net.new) }
    ensures spawner { CountsSpawner result (P.faults spawner.old) (P.faults spawner.new) }
{
    let n = config.clients;
    let links = connected(alloc, net, n)?;
    let stage = Stage::<T>::new(alloc, blank, config)?;
    let mut receipts = no_receipts::<T>(alloc, n)?;
    let jobs = jobs_of::<T, R, N, C>(rt, alloc, &stage, links, clocks, n, ops)?;
    match together::<T, R, N, P, C>(rt, spawner, jobs) {
        Ok(left) => {
            let health = give_back::<T, N>(net, left, &mut receipts);
            gathered(alloc, health, stage, receipts)
        }
        Err(failure) => Err(failure),
    }
}

/// What is gathered of a run that went so.
fn gathered<T: Cast>(
    alloc: Global,
    health: Health,
    stage: Stage<T>,
    receipts: Receipts,
) -> Result<Gathered, Failure>
    requires named { T.clients ≡ T.config.clients }
    requires told { AreUsersTold T.config.clients T.ops receipts }
    ensures parts { IfOk result (λ it. AreParts T.config it.journals it.arrivals) }
    ensures told { IfOk result (λ it. AreUsersTold T.config.clients T.ops it.receipts) }
    ensures health { IsFailureOf health result }
{
    if health == Health::Starved {
        return Err(Failure::Memory);
    }
    let parts = stage.into_parts(alloc)?;
    match health {
        Health::Sound => Ok(Gathered {
            journals: parts.journals,
            arrivals: parts.arrivals,
            receipts,
        }),
        Health::LinkFailed => Err(Failure::Link),
        Health::Starved => Err(Failure::Memory),
    }
}

fn connected<N: Net>(alloc: Global, net: &mut N, n: u8) -> Result<Vec<Links<N>>, Failure>
    ensures count { CountsNet result (N.faults net.old) (N.faults net.new) }
    ensures not_started { result ≢ Err failures.Start }
    ensures as_many { IfOk result (λ links. length links.items ≡ n) }
{
    match Links::connect_all(alloc, net, n) {
        Ok(links) => Ok(links),
        Err(LinkError::Failed) => Err(Failure::Link),
        Err(LinkError::OutOfMemory) => Err(Failure::Memory),
    }
}

/// An empty list for each user.
fn no_receipts<T: Cast>(alloc: Global, n: u8) -> Result<Receipts, OutOfMemory>
    requires { n ≡ T.config.clients }
    ensures { IfOk result (λ receipts. AreUsersTold T.config.clients T.ops receipts) }
{
    let mut receipts = Sequence::new(alloc);
    for before in 0..n {
        let _user = before;
        receipts.push(Sequence::new(alloc))?;
    }
    Ok(receipts)
}

/// Seven jobs for each client, from the last client on.
fn jobs_of<'a, T: Cast, R, N: Net, C: Clock + Drop>(
    rt: &'a R,
    alloc: Global,
    stage: &'a Stage<T>,
    links: Vec<Links<N>>,
    clocks: Clocks<C>,
    n: u8,
    ops: u64,
) -> Result<Vec<JobOf<'a, T, R, N, C>>, OutOfMemory>
    requires few { n ≤ 8 }
    requires named { (n ≡ T.config.clients) × (ops ≡ T.ops) }
    requires as_many { length links.items ≡ n }
{
    let mut jobs = Vec::new(alloc);
    let mut links = Sequence::from_vec(links);
    let mut clocks = Sequence::from_vec(clocks.into_vec());
    for before in 0..n {
        let client = n - before;
        let user = User::new(n, client, ops);
        let node = &stage.nodes[usize::from(client) - 1];
        let (ends, clock) = (last_of(&mut links), last_of(&mut clocks));
        put_jobs::<T, R, N, C>(rt, alloc, node, &stage.host, user, ends, clock, &mut jobs)?;
    }
    Ok(jobs)
}

/// Takes the last item out.
fn last_of<A: Drop>(items: &mut Sequence<A>) -> A
    requires { 0 < length items.old }
    ensures { length items.new + 1 ≡ length items.old }
{
    match items.pop() {
        Some(item) => item,
        None => unreachable!(),
    }
}

/// The seven jobs of one client.
fn put_jobs<'a, T: Cast, R, N: Net, C: Clock + Drop>(
    rt: &'a R,
    alloc: Global,
    node: &'a Node<T>,
    host: &'a Host<T>,
    user: User<T>,
    links: Links<N>,
    clock: C,
    jobs: &mut Vec<JobOf<'a, T, R, N, C>>,
) -> Result<(), OutOfMemory> {
    let Links {
        replies,
        outbox,
        inbox,
        postbox,
        connection,
    } = links;
    jobs.push(LiveJob::User {
        rt,
        alloc,
        node,
        user,
    })?;
    jobs.push(LiveJob::Replies {
        rt,
        node,
        link: replies,
    })?;
    jobs.push(LiveJob::Outbox {
        rt,
        node,
        link: outbox,
    })?;
    jobs.push(LiveJob::Inbox {
        rt,
        node,
        post: inbox,
    })?;
    jobs.push(LiveJob::Postbox {
        rt,
        node,
        post: postbox,
    })?;
    jobs.push(LiveJob::Ticks { rt, node, clock })?;
    jobs.push(LiveJob::Connection {
        rt,
        host,
        connection,
    })?;
    Ok(())
}

fn together<
    'a,
    T: Cast + Send + Sync,
    R: Threads + Wait + Sync,
    N: Net,
    P: Spawner,
    C: Clock + Send + Drop,
>(rt: &R, spawner: &mut P, jobs: Vec<JobOf<'a, T, R, N, C>>) -> Result<Vec<LeftOf<T, N>>, Failure>
    ensures count { CountsSpawner result (P.faults spawner.old) (P.faults spawner.new) }
    ensures no_link { IfErr result (λ failure. failure ≢ failures.Link) }
{
    match spawner.together(rt, jobs) {
        Ok(left) => Ok(left),
        Err(StartError::Failed) => Err(Failure::Start),
        Err(StartError::OutOfMemory) => Err(Failure::Memory),
    }
}

/// Gives all links back, and puts what users were told in their places.
fn give_back<T: Cast, N: Net>(
    net: &mut N,
    left: Vec<LeftOf<T, N>>,
    receipts: &mut Receipts,
) -> Health
    requires { AreUsersTold T.config.clients T.ops receipts.old }
    ensures count { CountsHealth result (N.faults net.old) (N.faults net.new) }
    ensures told { AreUsersTold T.config.clients T.ops receipts.new }
{
    let mut health = Health::Sound;
    for each in left {
        health = health.worse(give_one_back::<T, N>(net, each, receipts));
    }
    health
}

fn give_one_back<T: Cast, N: Net>(
    net: &mut N,
    left: LeftOf<T, N>,
    receipts: &mut Receipts,
) -> Health
    requires { AreUsersTold T.config.clients T.ops receipts.old }
    ensures count { CountsHealth result (N.faults net.old) (N.faults net.new) }
    ensures told { AreUsersTold T.config.clients T.ops receipts.new }
{
    match left {
        Left::User(told) => {
            receipts.set(usize::from(told.client) - 1, told.receipts);
            Health::of_user(told.stopped)
        }
        Left::Replies(link) => link.give_back(net),
        Left::Outbox(link) => link.give_back(net),
        Left::Inbox(post) => post.give_back(net),
        Left::Postbox(post) => post.give_back(net),
        Left::Ticks(cause) => ticks_health(cause),
        Left::Connection(connection) => connection.give_back(net),
    }
}

/// A clock has no count of faults, so only want of memory says anything.
fn ticks_health(cause: Closing) -> Health
    ensures { result ≢ LinkFailed }
{
    match cause {
        Closing::Memory => Health::Starved,
        _ => Health::Sound,
    }
}
