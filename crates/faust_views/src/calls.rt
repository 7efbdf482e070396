ghost use Rattle.std.specs.Prelude.{◌≡◌, ◌*◌, ◌^◌, ◌<◌, ◌≤◌, length, IfOk};
ghost use Rattle.faust_names.specs.Views.{IsWeakForkLinearizable};
ghost use Rattle.faust_premises.specs.Premises.{IsClean};
ghost use Rattle.faust_runs.specs.ForkViews.{fork_views, view_of};
ghost use Rattle.faust_runs.specs.Histories.{history_read};
ghost use Rattle.faust_views.specs.Forks.{AreEnds, AreViews, list_of};

use crate::ends::Forks;
use crate::forest::Forest;
use crate::seen::Seen;
use faust_record::{RunRecord, Views};
use faust_types::{Names, OutOfMemory};
use std::alloc::Global;

/// The fork views of a record of fewer than 2^27 entries: one end for each completed operation, in the order in which they
/// completed, and at most 32 nodes for each.
pub fn forks(alloc: Global, rec: &RunRecord) -> Result<Forks, OutOfMemory>
    requires { length rec.now.entries < 2 ^ 27 }
    ensures ends { IfOk result (λ forks. AreEnds forks.tree forks.ends (fork_views rec.now.config rec.now.entries)) }
    ensures few { IfOk result (λ forks. length forks.tree ≤ 32 * length forks.ends) }
{
    let Forest {
        tree,
        ends,
        places: _,
    } = Forest::of(alloc, rec)?;
    Ok(Forks { tree, ends })
}

/// The view of client i in a record of fewer than 2^27 entries: what stays of the fork view of its last completed
/// operation, and nothing where it completed nothing.
pub fn view(alloc: Global, rec: &RunRecord, i: u8) -> Result<Names, OutOfMemory>
    requires { length rec.now.entries < 2 ^ 27 }
    ensures { IfOk result (λ names. names ≡ view_of rec.now.config rec.now.entries i) }
{
    Seen::of(alloc, rec)?.view_of(alloc, i)
}

/// The views of all clients of a record of fewer than 2^27 entries, that of client 1 first. Of a clean record they are weak
/// fork-linearizable and causal.
pub fn views(alloc: Global, rec: &RunRecord) -> Result<Views, OutOfMemory>
    requires { length rec.now.entries < 2 ^ 27 }
    ensures each { IfOk result (AreViews rec.now) }
    ensures linearizable { IsClean rec.now.config rec.now.entries →
        IfOk result (λ views. IsWeakForkLinearizable rec.now.config.clients (history_read rec.now.entries) (list_of views)) }
{
    let seen = Seen::of(alloc, rec)?;
    let mut views = Views::new(alloc);
    for before in 0..rec.config().clients {
        views.push(seen.view_of(alloc, before + 1)?)?;
    }
    Ok(views)
}
