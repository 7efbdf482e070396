// Who takes part in a run: the root of its numbers, and those that hold its seats.
ghost use Rattle.std.specs.Prelude.{◌≡◌, ◌≢◌, ◌+◌, [], IfOk, OnOk, Some, length};
ghost use Rattle.faust_types.specs.declared.arrival.Closing.TheVariants as closings;
ghost use Rattle.faust_cluster.specs.Casting.{AreParts, IsJoining, IsLiveConfig, IsSplitting};

use crate::cast::Cast;
use faust_host::Host;
use faust_node::Node;
use faust_record::Journals;
use faust_ticket::{Blank, Root};
use faust_types::{Arrivals, Closing, Config, OutOfMemory, Sequence};
use std::alloc::Global;

/// The root, a node for each client, and the host.
#[derive(Drop)]
pub struct Stage<T: Cast> {
    root: Root<T>,
    pub nodes: Vec<Node<T>>,
    pub host: Host<T>,
    ghost none_drawn: { root.drawn ≡ [] },
    ghost out: { root.out ≡ length nodes.items + 1 },
    ghost as_many: { length nodes.items ≡ T.config.clients },
}

/// The journals of all clients and what arrived.
#[derive(Drop)]
pub struct Parts {
    pub journals: Journals,
    pub arrivals: Arrivals,
}

impl<T: Cast> Stage<T> {
    /// For a run with this config, which T names as it names the counter.
    pub fn new(alloc: Global, blank: Blank, config: &Config) -> Result<Stage<T>, OutOfMemory>
        requires counter { blank ≡ T.counter }
        requires config { IsLiveConfig config.now }
        requires named { (T.config ≡ config.now) × (T.clients ≡ config.now.clients) }
    {
        let mut root = blank.open::<T>();
        let host = Host::new(alloc, config.clients, root.split()?)?;
        let nodes = nodes_of(alloc, &mut root, config)?;
        Ok(Stage { root, nodes, host })
    }

    /// Takes all seats back. Where there was no memory for an entry that had its number, that is the answer.
    pub fn into_parts(self, alloc: Global) -> Result<Parts, OutOfMemory>
        requires { T.clients ≡ T.config.clients }
        ensures { IfOk result (λ parts. AreParts T.config parts.journals parts.arrivals) }
    {
        let Stage {
            mut root,
            nodes,
            host,
        } = self;
        let journals = journals_of(alloc, &mut root, nodes)?;
        let (arrivals, seat) = host.into_parts();
        root.join(seat);
        let _count = root.finish();
        Ok(Parts { journals, arrivals })
    }
}

/// A node for each client, each with a seat of its own.
fn nodes_of<T: Cast>(
    alloc: Global,
    root: &mut Root<T>,
    config: &Config,
) -> Result<Vec<Node<T>>, OutOfMemory>
    requires config { IsLiveConfig config.now }
    requires named { T.config ≡ config.now }
    requires root { IsSplitting root.old 1 }
    ensures as_many { IfOk result (λ nodes. length nodes.items ≡ config.now.clients) }
    ensures root { OnOk result (IsSplitting root.new (config.now.clients + 1)) }
{
    let mut nodes = Vec::new(alloc);
    for before in 0..config.clients {
        let seat = root.split()?;
        nodes.push(Node::new(alloc, config, before + 1, seat)?)?;
    }
    Ok(nodes)
}

/// The journals of the nodes, whose seats come back.
fn journals_of<T: Cast>(
    alloc: Global,
    root: &mut Root<T>,
    nodes: Vec<Node<T>>,
) -> Result<Journals, OutOfMemory>
    requires none_drawn { root.old.drawn ≡ [] }
    requires out { root.old.out ≡ length nodes.items + 1 }
    ensures as_many { IfOk result (λ journals. length journals ≡ length nodes.items) }
    ensures joined { IfOk result (λ journals. IsJoining T.config root.new 1 journals) }
{
    let mut journals = Sequence::new(alloc);
    for node in nodes {
        let (journal, seat, closed) = node.into_parts();
        root.join(seat);
        check_memory(closed)?;
        let _client = journal.client();
        journals.push(journal)?;
    }
    Ok(journals)
}

/// Whether a cell is closed for want of memory.
fn check_memory(closed: Option<Closing>) -> Result<(), OutOfMemory>
    ensures { IfOk result (λ _. closed ≢ Some closings.Memory) }
{
    match closed {
        Some(Closing::Memory) => Err(OutOfMemory),
        _ => Ok(()),
    }
}
