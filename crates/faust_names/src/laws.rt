//! What views and cuts of completions keep. Each function has an empty body, and its contract is the law.
ghost use Rattle.std.specs.Prelude.{◌≡◌, ◌↔◌, ℕ, ◌<◌, ◌≤◌, ◌⊎◌, List, Some, reverse};
ghost use Rattle.faust_types.specs.Clients.{IsClient};
ghost use Rattle.faust_types.specs.Versions.{IsAtMost};
ghost use Rattle.faust_types.specs.declared.operation.Kind.TheVariants.{Write};
ghost use Rattle.faust_types.specs.declared.operation.OpName.{OpName};
ghost use Rattle.faust_lists.specs.Lists.{AreAlong, IsTail};
ghost use Rattle.faust_lists.specs.Names.{AreDistinct, Has, names};
ghost use Rattle.faust_lists.specs.Walks.{IsFree};
ghost use Rattle.faust_forks.specs.Books.{Begun, Done, find, find_begun};
ghost use Rattle.faust_forks.specs.Answers.{AreAnswered};
ghost use Rattle.faust_forks.specs.Forks.{IsBook};
ghost use Rattle.faust_forks.specs.Pasts.{Past};
ghost use Rattle.faust_names.specs.Histories.{named, IsCompleted, IsOperation, IsWrite};
ghost use Rattle.faust_names.specs.Views.{IsBefore, IsPrefix};
ghost use Rattle.faust_names.specs.Views.{IsCausal, IsViewOf, IsWeakForkLinearizable, JoinAtMostOnce, KeepsWeakRealTime};
ghost use Rattle.faust_names.specs.Cuts.{IsCovered, IsLinearization, IsRightCut, IsRightUpTo};
ghost use Rattle.faust_names.specs.ForkViews.{fork_view, history_of, last_number, view_of};
ghost use Rattle.faust_names.specs.Chronicles.{IsBacked, IsChronicle};

/// Sound completions whose reads answer what was written are a chronicle, where operations have numbers from 1 and
/// clients write their own registers.
pub fn sound_completions_are_a_chronicle()
    ensures { (n : ℕ) (past : Past) → IsBook n past → AreAnswered past.started past.book →
        ((k t : ℕ) (begun : Begun) → find_begun past.started k t ≡ Some begun → 1 ≤ t) →
        ((k t : ℕ) (begun : Begun) → find_begun past.started k t ≡ Some begun → begun.kind ≡ Write → begun.register ≡ k) →
        IsChronicle n past.started past.book }
{}

/// A fork view names operations, none twice, each client's from the first on without a gap; and where it names two
/// operations of one client, the earlier one completed, and its own fork view is a front.
pub fn fork_views_tell_operations()
    ensures operations { (n : ℕ) (started : List Begun) (book : List Done) (a b : OpName) → IsChronicle n started book →
        Has (fork_view book a) b → IsOperation (history_of started book) b }
    ensures once { (book : List Done) (a : OpName) → AreDistinct (fork_view book a) }
    ensures gapless { (book : List Done) (a b : OpName) (s : ℕ) → Has (fork_view book a) b → 1 ≤ s → s ≤ b.t →
        Has (fork_view book a) (named b.client s) }
    ensures completed { (n : ℕ) (started : List Begun) (book : List Done) (a b c : OpName) → IsChronicle n started book →
        Has (fork_view book a) b → Has (fork_view book a) c → b.client ≡ c.client → b.t < c.t →
        IsCompleted (history_of started book) b × IsPrefix (fork_view book b) (fork_view book a) }
{}

/// The version of a completed operation is at most that of another exactly where its fork view is a front of the other's.
pub fn versions_are_ordered_as_fork_views()
    ensures { (n : ℕ) (past : Past) (a b : OpName) (x y : Done) → IsFree past.hashed → IsBook n past →
        find past.book a.client a.t ≡ Some x → find past.book b.client b.t ≡ Some y →
        IsAtMost x.version y.version ↔ IsPrefix (fork_view past.book a) (fork_view past.book b) }
{}

/// The view of a client has of the fork view of its last completed operation all writes, and those operations that
/// completed and whose own fork view is a front of it, in the same order.
pub fn views_are_what_stays_of_fork_views()
    ensures members { (n : ℕ) (started : List Begun) (book : List Done) (i : ℕ) (a : OpName) → IsChronicle n started book →
        Has (view_of started book i) a ↔ (Has (fork_view book (named i (last_number book i))) a ×
        (IsWrite (history_of started book) a ⊎
        (IsCompleted (history_of started book) a × IsPrefix (fork_view book a) (fork_view book (named i (last_number book i)))))) }
    ensures order { (started : List Begun) (book : List Done) (i : ℕ) (a b : OpName) → IsBefore (view_of started book i) a b →
        IsBefore (fork_view book (named i (last_number book i))) a b }
{}

/// The view of a client is a view of it: it names operations, none twice, each client's numbers rise, the client's own
/// names are all its completed operations, and each read in it answered the value of the last write before it.
pub fn views_are_views_of_their_clients()
    ensures { (n : ℕ) (started : List Begun) (book : List Done) (i : ℕ) → IsChronicle n started book →
        IsViewOf (history_of started book) i (view_of started book i) }
{}

/// The view of a client is causal: each write that causally precedes an operation in it stands before that operation.
pub fn views_are_causal()
    ensures { (n : ℕ) (started : List Begun) (book : List Done) (i : ℕ) → IsChronicle n started book →
        IsCausal (history_of started book) (view_of started book i) }
{}

/// The view of a client keeps real time, but for the last operation of each client in it.
pub fn views_keep_weak_real_time()
    ensures { (n : ℕ) (started : List Begun) (book : List Done) (i : ℕ) → IsChronicle n started book →
        KeepsWeakRealTime (history_of started book) (view_of started book i) }
{}

/// Two views that both have an operation and a later one of its client are the same up to that operation.
pub fn views_join_at_most_once()
    ensures { (n : ℕ) (started : List Begun) (book : List Done) (i j : ℕ) → IsChronicle n started book →
        JoinAtMostOnce (view_of started book i) (view_of started book j) }
{}

/// The views of all clients are weak fork-linearizable and causal.
pub fn views_are_weak_fork_linearizable()
    ensures { (n : ℕ) (started : List Begun) (book : List Done) → IsChronicle n started book →
        IsWeakForkLinearizable n (history_of started book) (view_of started book) }
{}

/// Where each completion of a covered client has a fork in line with that of the own operation, a cut is right up to
/// it; and where this is so for each own operation that it counts, the cut is right.
pub fn backed_cuts_are_right()
    ensures up_to { (n : ℕ) (started : List Begun) (book : List Done) (i t : ℕ) (cut : List ℕ) (done : Done) → IsChronicle n started book →
        find book i t ≡ Some done →
        ((k s : ℕ) (x : Done) → IsCovered n cut t k → find book k s ≡ Some x → AreAlong x.fork done.fork) →
        IsRightUpTo n (history_of started book) (view_of started book) i cut t }
    ensures whole { (n : ℕ) (started : List Begun) (book : List Done) (i : ℕ) (cut : List ℕ) → IsChronicle n started book →
        IsBacked n book i cut → IsRightCut n (history_of started book) (view_of started book) i cut }
{}

/// Where a cut is right up to an operation and covers all clients there, the front is a linearization of what it holds.
pub fn cuts_that_cover_all_are_linearizations()
    ensures { (n : ℕ) (started : List Begun) (book : List Done) (i t : ℕ) (cut : List ℕ) → IsChronicle n started book →
        (right : IsRightUpTo n (history_of started book) (view_of started book) i cut t) →
        ((k : ℕ) → IsClient n k → IsCovered n cut t k) → IsLinearization (history_of started book) right.front }
{}

/// The fork view of an operation is the names of its fork, the first one first, and fork views are fronts of each other
/// exactly where forks are.
pub fn fork_views_name_forks()
    ensures order { (book : List Done) (a : OpName) (done : Done) → find book a.client a.t ≡ Some done →
        fork_view book a ≡ reverse (names done.fork) }
    ensures members { (book : List Done) (a b : OpName) (done : Done) → find book a.client a.t ≡ Some done →
        Has (fork_view book a) b ↔ Has (names done.fork) b }
    ensures front { (book : List Done) (a b : OpName) (x y : Done) → find book a.client a.t ≡ Some x → find book b.client b.t ≡ Some y →
        IsPrefix (fork_view book a) (fork_view book b) ↔ IsTail x.fork y.fork }
{}
