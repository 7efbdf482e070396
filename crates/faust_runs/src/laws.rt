//! What clean runs keep. Each function has an empty body, and its contract is the law.
ghost use Rattle.std.specs.Prelude.{◌≡◌, ◌↔◌, ◌⊎◌, ◌++◌, ℕ, ◌<◌, ◌≤◌, List, Some};
ghost use Rattle.faust_types.specs.Clients.{IsClient};
ghost use Rattle.faust_types.specs.Versions.{Vector, IsAtMost, initial};
ghost use Rattle.faust_types.specs.declared.config.Config.{Config};
ghost use Rattle.faust_types.specs.declared.operation.OpName.{OpName};
ghost use Rattle.faust_agent.specs.State.{completed_count, version_at};
ghost use Rattle.faust_lists.specs.Names.{AreDistinct, Has};
ghost use Rattle.faust_lists.specs.Walks.{IsVersionOf};
ghost use Rattle.faust_names.specs.Histories.{IsCompleted, IsOperation, named};
ghost use Rattle.faust_names.specs.Views.{IsPrefix, IsWeakForkLinearizable};
ghost use Rattle.faust_names.specs.ForkViews as forked;
ghost use Rattle.faust_record.specs.Runs.{IsRun};
ghost use Rattle.faust_record.specs.declared.entry.Entry.{Entry};
ghost use Rattle.faust_premises.specs.Premises.{IsClean};
ghost use Rattle.faust_runs.specs.ForkViews.{HasForkView, IsLastOf, clients_back, fork_view, version_of, view_of};
ghost use Rattle.faust_runs.specs.Histories.{history_read};
ghost use Rattle.faust_runs.specs.Ledgers.{client_after, ledger_of};
ghost use Rattle.faust_runs.specs.Sound.{IsSoundLedger};

/// The ledger of a clean run is sound, whatever its entries are and under both versions of the wire.
pub fn clean_runs_are_sound()
    ensures { (config : Config) (entries : List Entry) → IsRun config entries → IsClean config entries →
        IsSoundLedger config entries (ledger_of config entries) }
{}

/// The history, the fork views and the views of a clean run are those of its ledger.
pub fn ledgers_have_what_is_read()
    ensures history { (config : Config) (entries : List Entry) → IsRun config entries → IsClean config entries →
        history_read entries ≡ forked.history_of (ledger_of config entries).started (ledger_of config entries).book }
    ensures fork_view { (config : Config) (entries : List Entry) (a : OpName) → IsRun config entries → IsClean config entries →
        fork_view config entries a ≡ forked.fork_view (ledger_of config entries).book a }
    ensures view { (config : Config) (entries : List Entry) (i : ℕ) → IsRun config entries → IsClean config entries →
        view_of config entries i ≡ forked.view_of (ledger_of config entries).started (ledger_of config entries).book i }
{}

/// An operation of a clean run has a fork view exactly where it completed, and is the last one of it.
pub fn completed_operations_have_fork_views()
    ensures exactly { (config : Config) (entries : List Entry) (a : OpName) → IsRun config entries → IsClean config entries →
        IsCompleted (history_read entries) a ↔ HasForkView config entries a }
    ensures last { (config : Config) (entries : List Entry) (a : OpName) → IsRun config entries → IsClean config entries →
        IsCompleted (history_read entries) a → IsLastOf (fork_view config entries a) a }
{}

/// A fork view of a clean run names operations of the run, none twice, each client's from the first on without a gap; and
/// where it names two operations of one client, the earlier one completed, and its own fork view is a front.
pub fn fork_views_tell_operations()
    ensures operations { (config : Config) (entries : List Entry) (a b : OpName) → IsRun config entries → IsClean config entries →
        Has (fork_view config entries a) b → IsOperation (history_read entries) b }
    ensures once { (config : Config) (entries : List Entry) (a : OpName) → IsRun config entries → IsClean config entries →
        AreDistinct (fork_view config entries a) }
    ensures gapless { (config : Config) (entries : List Entry) (a b : OpName) (s : ℕ) → IsRun config entries → IsClean config entries →
        Has (fork_view config entries a) b → 1 ≤ s → s ≤ b.t → Has (fork_view config entries a) (named b.client s) }
    ensures completed { (config : Config) (entries : List Entry) (a b c : OpName) → IsRun config entries → IsClean config entries →
        Has (fork_view config entries a) b → Has (fork_view config entries a) c → b.client ≡ c.client → b.t < c.t →
        IsCompleted (history_read entries) b × IsPrefix (fork_view config entries b) (fork_view config entries a) }
{}

/// The version of a completed operation of a clean run is that of its fork view: its timestamps count the operations of
/// each client in it, and its digests are those of the chain of clients up to the last one of each.
pub fn versions_are_of_fork_views()
    ensures { (config : Config) (entries : List Entry) (a : OpName) (v : Vector) → IsRun config entries → IsClean config entries →
        version_of config entries a ≡ Some v → IsVersionOf config.clients v (clients_back (fork_view config entries a)) }
{}

/// The own version of a client of a clean run is initial, or that of its last completed operation.
pub fn own_versions_are_of_last_operations()
    ensures { (config : Config) (entries : List Entry) (i : ℕ) → IsRun config entries → IsClean config entries → IsClient config.clients i →
        (version_at (client_after config i entries) i ≡ initial config.clients)
        ⊎ (version_of config entries (named i (completed_count i (client_after config i entries)))
        ≡ Some (version_at (client_after config i entries) i)) }
{}

/// The fork view and the version of an operation that completed in a clean run stay as more entries come.
pub fn fork_views_stay()
    ensures view { (config : Config) (front rest : List Entry) (a : OpName) → IsRun config (front ++ rest) →
        IsClean config (front ++ rest) → IsCompleted (history_read front) a → fork_view config (front ++ rest) a ≡ fork_view config front a }
    ensures version { (config : Config) (front rest : List Entry) (a : OpName) (v : Vector) → IsRun config (front ++ rest) →
        IsClean config (front ++ rest) → version_of config front a ≡ Some v → version_of config (front ++ rest) a ≡ Some v }
{}

/// In a clean run the version of a completed operation is at most that of another exactly where its fork view is a front of
/// the other's.
pub fn versions_are_ordered_as_fork_views()
    ensures { (config : Config) (entries : List Entry) (a b : OpName) (v x : Vector) → IsRun config entries → IsClean config entries →
        version_of config entries a ≡ Some v → version_of config entries b ≡ Some x →
        IsAtMost v x ↔ IsPrefix (fork_view config entries a) (fork_view config entries b) }
{}

/// The views of all clients of a clean run are weak fork-linearizable and causal.
pub fn views_are_weak_fork_linearizable()
    ensures { (config : Config) (entries : List Entry) → IsRun config entries → IsClean config entries →
        IsWeakForkLinearizable config.clients (history_read entries) (view_of config entries) }
{}
