//! What completions keep. Each function has an empty body, and its contract is the law.
ghost use Rattle.std.specs.Prelude.{◌≡◌, ◌↔◌, ℕ, ◌<◌, ◌≤◌, true, List, [], ◌∷◌, ◌++◌, Option, Some};
ghost use Rattle.faust_types.specs.Clients.{IsClientCount};
ghost use Rattle.faust_types.specs.Ranges.{IsKnownBy, IsOperationNumber, IsPeerMessageFor, IsVersionFor};
ghost use Rattle.faust_types.specs.Versions.{Vector, IsAtMost, digest_at, is_comparable};
ghost use Rattle.faust_types.specs.declared.operation.Kind.{Kind};
ghost use Rattle.faust_types.specs.declared.operation.Kind.TheVariants.{Read};
ghost use Rattle.faust_types.specs.declared.operation.Operation.{Operation};
ghost use Rattle.faust_types.specs.declared.operation.OpName.{OpName};
ghost use Rattle.faust_types.specs.declared.message.Known.{Known};
ghost use Rattle.faust_types.specs.declared.message.PeerMessage.{PeerMessage};
ghost use Rattle.faust_types.specs.declared.message.Reply.{Reply};
ghost use Rattle.faust_tags.specs.Bodies.{commit_body, data_body, peer_body, proof_body, submit_body};
ghost use Rattle.faust_ustor.specs.Checks.{is_known_right};
ghost use Rattle.faust_ustor.specs.Passed.{clients_after, next_of};
ghost use Rattle.faust_lists.specs.Lists.{count, upto, AreAlong, IsTail};
ghost use Rattle.faust_lists.specs.Names.{AreDistinct, Has, names};
ghost use Rattle.faust_lists.specs.Walks.{IsFree, IsVersionOf};
ghost use Rattle.faust_forks.specs.Books.{Begun, Done, Began, Completed, find};
ghost use Rattle.faust_forks.specs.Sources.{AreSources, IsMade, IsSent, Source, of_commit, of_data, of_proof, of_submit};
ghost use Rattle.faust_forks.specs.Pairs.{AreMade, known_pairs};
ghost use Rattle.faust_forks.specs.Pasts.{IsLater, Past, base_of, begun_in, completed_in, done_at, first_past, fork_after, hashed_in, history_at, names_since, sent_in};
ghost use Rattle.faust_forks.specs.Answers.{AreAnswered, IsAnswered};
ghost use Rattle.faust_forks.specs.Forks.{IsAccepted, IsBegin, IsBook, IsBooked, IsGround, IsHistoryOf, IsOwn, IsSound};

/// A body that was made tells what it was made of.
pub fn made_bodies_tell_their_sources()
    ensures submit { (n : ℕ) (made : List Source) (k : ℕ) (kind : Kind) (register t : ℕ) → AreSources n made → IsOperationNumber t →
        IsMade made (submit_body k kind register t) → Has made (of_submit k kind register t) }
    ensures data_part { (n : ℕ) (made : List Source) (k t : ℕ) (digest : Option (List ℕ)) → AreSources n made → IsOperationNumber t →
        IsMade made (data_body k t digest) → Has made (of_data k t digest) }
    ensures commit { (n : ℕ) (made : List Source) (k : ℕ) (v : Vector) → AreSources n made → IsVersionFor n v →
        IsMade made (commit_body k v) → Has made (of_commit k v) }
    ensures proof { (made : List Source) (k : ℕ) (digest : List ℕ) → IsMade made (proof_body k digest) → Has made (of_proof k digest) }
    ensures peer { (n : ℕ) (made : List Source) (message : PeerMessage) → AreSources n made → IsPeerMessageFor n message →
        IsMade made (peer_body message) → IsSent made message }
{}

/// Whatever began, completed, was made or hashed stays so as entries come, and what is sound stays sound.
pub fn past_stays()
    ensures begins { (past : Past) (me : ℕ) (op : Operation) (value digest : Option (List ℕ)) →
        IsLater past (begun_in past me op value digest) }
    ensures completes { (past : Past) (me : ℕ) (op : Operation) (reply : Reply) (digest : List ℕ) →
        IsLater past (completed_in past me op reply digest) }
    ensures sends { (past : Past) (message : PeerMessage) → IsLater past (sent_in past message) }
    ensures along { (a b c : Past) → IsLater a b → IsLater b c → IsLater a c }
    ensures sound { (n : ℕ) (past later : Past) (done : Done) → IsLater past later → IsSound n past done → IsSound n later done }
{}

/// The chain lemma at a reply. A client that accepts a reply completes its operation soundly: the fork ends with it, the
/// new version is that of the fork, each operation in the fork began, and each but the last of its client completed with
/// the front that ends with it as its fork. The new version is the client's own one then.
pub fn completion_is_sound()
    ensures sound { (n : ℕ) (past : Past) (key : List ℕ) (me : ℕ) (own : Vector) (op : Operation) (reply : Reply) →
        IsGround n past → IsAccepted n past key me own op reply → IsSound n past (done_at past me op reply) }
    ensures own { (n : ℕ) (past : Past) (key : List ℕ) (me : ℕ) (own : Vector) (op : Operation) (reply : Reply) →
        IsGround n past → IsAccepted n past key me own op reply →
        IsOwn n (done_at past me op reply ∷ past.book) me (next_of me reply) }
{}

/// What holds before the first entry holds on: where an operation begins, where one completes, where a message goes to
/// another client, and where more is hashed.
pub fn ground_is_kept()
    ensures first { (n : ℕ) → IsGround n first_past }
    ensures begins { (n : ℕ) (past : Past) (me : ℕ) (op : Operation) (value digest : Option (List ℕ)) → IsGround n past →
        IsBegin past me op value digest → IsGround n (begun_in past me op value digest) }
    ensures completes { (n : ℕ) (past : Past) (key : List ℕ) (me : ℕ) (own : Vector) (op : Operation) (reply : Reply)
        (digest : List ℕ) → IsGround n past → IsAccepted n past key me own op reply →
        digest_at (next_of me reply) me ≡ Some digest → IsGround n (completed_in past me op reply digest) }
    ensures sends { (n : ℕ) (past : Past) (message : PeerMessage) → IsGround n past → IsPeerMessageFor n message →
        IsGround n (sent_in past message) }
    ensures hashes { (n : ℕ) (past : Past) (hashed : List (List ℕ)) (entry : ℕ) → IsGround n past → IsFree hashed →
        ((x : List ℕ) → Has past.hashed x → Has hashed x) → past.entry ≤ entry → IsGround n (hashed_in past hashed entry) }
{}

/// A fork names operations that began before its completion, none twice; its version is that of the completion; and
/// where it names two operations of one client, the earlier one completed with the front that ends with it as its fork.
pub fn fork_tells_its_operations()
    ensures began { (n : ℕ) (past : Past) (k t : ℕ) (done : Done) (a : OpName) → IsBook n past → find past.book k t ≡ Some done →
        Has (names done.fork) a → Began past.started a.client a.t (λ begun. begun.entry < done.entry) }
    ensures once { (fork : List ℕ) → AreDistinct (names fork) }
    ensures version { (n : ℕ) (past : Past) (k t : ℕ) (done : Done) → IsBook n past → find past.book k t ≡ Some done →
        IsVersionOf n done.version done.fork }
    ensures counted { (n : ℕ) (past : Past) (k t : ℕ) (done : Done) → IsBook n past → find past.book k t ≡ Some done →
        count k done.fork ≡ t }
    ensures completed { (n : ℕ) (past : Past) (k t : ℕ) (done : Done) (a b : OpName) → IsBook n past →
        find past.book k t ≡ Some done → Has (names done.fork) a → Has (names done.fork) b → a.client ≡ b.client → a.t < b.t →
        Completed past.book a.client a.t (λ earlier. earlier.fork ≡ upto a.client a.t done.fork) }
{}

/// The names of a fork are those of the fork that the reply's version is of, then those of the tuples' operations and of
/// the own one, numbered by counting on from the timestamps of that version.
pub fn fork_counts_on_from_the_version()
    ensures { (n : ℕ) (past : Past) (key : List ℕ) (me : ℕ) (own : Vector) (op : Operation) (reply : Reply) → IsGround n past →
        IsAccepted n past key me own op reply → names (fork_after past.book me reply)
        ≡ names_since reply.version.version (me ∷ clients_after [] reply.pending) ++ names (base_of past.book reply) }
{}

/// The version of a completion is at most that of another exactly where its fork is a front of the other's; the versions
/// are comparable exactly where the forks stand in line; and one version has one fork.
pub fn versions_are_ordered_as_forks()
    ensures below { (n : ℕ) (past : Past) (j s k t : ℕ) (x y : Done) → IsFree past.hashed → IsBook n past →
        find past.book j s ≡ Some x → find past.book k t ≡ Some y → IsAtMost x.version y.version ↔ IsTail x.fork y.fork }
    ensures comparable { (n : ℕ) (past : Past) (j s k t : ℕ) (x y : Done) → IsFree past.hashed → IsBook n past →
        find past.book j s ≡ Some x → find past.book k t ≡ Some y →
        (is_comparable x.version y.version ≡ true) ↔ AreAlong x.fork y.fork }
    ensures same { (n : ℕ) (past : Past) (j s k t : ℕ) (x y : Done) → IsFree past.hashed → IsBook n past →
        find past.book j s ≡ Some x → find past.book k t ≡ Some y → x.version ≡ y.version → x.fork ≡ y.fork }
{}

/// Where no tag is forged, a version that comes with its client's tag is initial or that of a completion of the client;
/// and so is the own one. Such versions, too, are ordered exactly as their histories are by being fronts.
pub fn right_versions_are_booked()
    ensures known { (n : ℕ) (past : Past) (key : List ℕ) (k : ℕ) (known : Known) → IsGround n past → IsKnownBy n k known →
        is_known_right key k known ≡ true → AreMade key past.made (known_pairs k known) → IsBooked past.book k known.version }
    ensures own { (n : ℕ) (book : List Done) (me : ℕ) (own : Vector) → IsClientCount n → IsOwn n book me own → IsBooked book me own }
    ensures history { (n : ℕ) (past : Past) (k : ℕ) (v : Vector) → IsGround n past → IsVersionFor n v → IsBooked past.book k v →
        IsHistoryOf n past past.entry k v (history_at past.book k v) }
    ensures below { (n : ℕ) (past : Past) (j k : ℕ) (v x : Vector) → IsGround n past → IsVersionFor n v → IsVersionFor n x →
        IsBooked past.book j v → IsBooked past.book k x →
        IsAtMost v x ↔ IsTail (history_at past.book j v) (history_at past.book k x) }
    ensures comparable { (n : ℕ) (past : Past) (j k : ℕ) (v x : Vector) → IsGround n past → IsVersionFor n v → IsVersionFor n x →
        IsBooked past.book j v → IsBooked past.book k x →
        (is_comparable v x ≡ true) ↔ AreAlong (history_at past.book j v) (history_at past.book k x) }
{}

/// The forks of one client go up: that of an earlier operation is the front of a later one's that ends with it.
pub fn own_forks_go_up()
    ensures { (n : ℕ) (past : Past) (k s t : ℕ) (x y : Done) → IsBook n past → find past.book k s ≡ Some x →
        find past.book k t ≡ Some y → s ≤ t → x.fork ≡ upto k s y.fork }
{}

/// A completed read answers the value that its register's client wrote last in the fork, as of the last operation of
/// that client in it; and this stays so, where an operation begins and where one completes.
pub fn reads_answer_what_was_written()
    ensures read { (n : ℕ) (past : Past) (key : List ℕ) (me : ℕ) (own : Vector) (op : Operation) (reply : Reply) →
        IsGround n past → IsAccepted n past key me own op reply → op.kind ≡ Read →
        IsAnswered past.started op.register (done_at past me op reply) }
    ensures begins { (n : ℕ) (past : Past) (added : Begun) → IsBook n past → AreAnswered past.started past.book →
        AreAnswered (added ∷ past.started) past.book }
    ensures completes { (n : ℕ) (past : Past) (key : List ℕ) (me : ℕ) (own : Vector) (op : Operation) (reply : Reply) →
        IsGround n past → IsAccepted n past key me own op reply → AreAnswered past.started past.book →
        AreAnswered past.started (done_at past me op reply ∷ past.book) }
{}
