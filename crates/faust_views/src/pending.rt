ghost use Rattle.std.specs.Prelude.{◌≡◌, ℕ, ◌+◌, ◌^◌, ◌<◌, ◌≤◌, suc, [], length, slice_index, slice_set, IfOk};
ghost use Rattle.faust_types.specs.Versions.{timestamp_at};
ghost use Rattle.faust_tree.specs.Trees.{IsUnder};
ghost use Rattle.faust_runs.specs.ForkViews.{names_on};
ghost use Rattle.faust_views.specs.Grown.{AreOfClients, Extends, IsClientOf};

use faust_tree::Tree;
use faust_types::{OpName, OutOfMemory, Tuple, Version};

/// The number of the next operation of a client, counted on from a version: so many operations of each client came in
/// between.
fn next_number(version: &Version, counts: &mut [u64; 33], client: u8) -> u64
    requires client { IsClientOf version.now client }
    requires few { slice_index counts.old client < 2 ^ 20 }
    ensures number { result ≡ suc (timestamp_at version.now client + slice_index counts.old client) }
    ensures counts { counts.new ≡ slice_set counts.old client (suc (slice_index counts.old client)) }
{
    let count = &mut counts[usize::from(client)];
    *count += 1;
    version.at(client) + *count
}

/// Puts the operations of tuples under a place of a tree, numbered by counting on from a version, and answers the place
/// behind them.
pub(crate) fn add_tuples(
    tree: &mut Tree,
    base: Option<u32>,
    version: &Version,
    pending: &[Tuple],
) -> Result<Option<u32>, OutOfMemory>
    requires place { IsUnder tree.old base }
    requires clients { AreOfClients version.now pending.now }
    requires few { length pending.now ≤ 31 }
    requires room { length tree.old + 32 < 2 ^ 32 }
    ensures { IfOk result (λ place. Extends tree.old tree.new base place (names_on version.now [] pending.now)) }
{
    let mut counts = [0; 33];
    let mut place = base;
    for tuple in pending {
        let client = tuple.client;
        let t = next_number(version, &mut counts, client);
        place = Some(tree.add(place, OpName { client, t })?);
    }
    Ok(place)
}
