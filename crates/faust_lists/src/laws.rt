//! What histories keep. Each function has an empty body, and its contract is the law.
ghost use Rattle.std.specs.Prelude.{◌≡◌, ◌↔◌, ℕ, ◌≤◌, ◌⊎◌, ◌∷◌, List, [], Bool, true, false};
ghost use Rattle.std.specs.List.{AllByRecursion};
ghost use Rattle.faust_types.specs.Clients.{IsClient};
ghost use Rattle.faust_types.specs.Versions.{Vector, IsAtMost, is_comparable, is_initial, initial};
ghost use Rattle.faust_types.specs.Ranges.{IsTupleFor};
ghost use Rattle.faust_types.specs.declared.operation.OpName.{OpName};
ghost use Rattle.faust_types.specs.declared.message.Reply.{Reply};
ghost use Rattle.faust_hash.specs.Chain.{chain_of};
ghost use Rattle.faust_ustor.specs.Checks.{begun};
ghost use Rattle.faust_ustor.specs.Passed.{clients_after, next_of};
ghost use Rattle.faust_lists.specs.Lists.{count, upto, AreClients, EndsWith, IsTail, AreAlong};
ghost use Rattle.faust_lists.specs.Names.{name_of, names, sift, Has, IsKept, AreDistinct, Before};
ghost use Rattle.faust_lists.specs.Walks.{IsVersionOf, IsWalkOf, AreHashed, IsFree};

/// Two fronts of one history stand in line: one of them is a front of the other.
pub fn fronts_stand_in_line()
    ensures { (u v w : List ℕ) → IsTail u w → IsTail v w → AreAlong u v }
{}

/// The front up to operation t of a client has t operations of it, ends with one, and is the same in each front that
/// has as many.
pub fn front_up_to_an_operation()
    ensures front { (k t : ℕ) (w : List ℕ) → IsTail (upto k t w) w }
    ensures counted { (k t : ℕ) (w : List ℕ) → t ≤ count k w → count k (upto k t w) ≡ t }
    ensures ends { (k t : ℕ) (w : List ℕ) → 1 ≤ t → t ≤ count k w → EndsWith k (upto k t w) }
    ensures stable { (k t : ℕ) (u w : List ℕ) → IsTail u w → t ≤ count k u → upto k t w ≡ upto k t u }
{}

/// The names of a history are those of its operations, each once, and tell it.
pub fn names_tell_the_history()
    ensures members { (keep : List ℕ → Bool) (w : List ℕ) (a : OpName) → Has (sift keep w) a ↔ IsKept keep w a }
    ensures once { (keep : List ℕ → Bool) (w : List ℕ) → AreDistinct (sift keep w) }
    ensures same { (u w : List ℕ) → names u ≡ names w → u ≡ w }
    ensures before { (keep : List ℕ → Bool) (m : ℕ) (u w : List ℕ) (a : OpName) → keep (m ∷ u) ≡ true → IsTail (m ∷ u) w →
        Before (sift keep w) a (name_of m u) ↔ Has (sift keep u) a }
{}

/// Each history has one version. It is initial exactly where the history is empty, and greater where it is longer; so
/// the versions of two fronts of one history are comparable. No digest has to be trusted for it.
pub fn longer_is_greater()
    ensures one { (n : ℕ) (v x : Vector) (w : List ℕ) → IsVersionOf n v w → IsVersionOf n x w → v ≡ x }
    ensures empty { (n : ℕ) → IsVersionOf n (initial n) [] }
    ensures initial { (n : ℕ) (v : Vector) (w : List ℕ) → AreClients n w → IsVersionOf n v w → (is_initial v ≡ true) ↔ (w ≡ []) }
    ensures longer { (n : ℕ) (v x : Vector) (u w : List ℕ) → IsVersionOf n v u → IsVersionOf n x w → IsTail u w → IsAtMost v x }
    ensures comparable { (n : ℕ) (v x : Vector) (u w : List ℕ) → IsVersionOf n v u → IsVersionOf n x w → AreAlong u w →
        is_comparable v x ≡ true }
{}

/// A client that walks over a reply from the version of a history comes to that of the history with the tuples' clients
/// and its own behind it.
pub fn walk_goes_along_the_history()
    ensures { (n me : ℕ) (reply : Reply) (w : List ℕ) → IsWalkOf n (begun reply) w → AllByRecursion (IsTupleFor n) reply.pending →
        IsClient n me → IsVersionOf n (next_of me reply) (me ∷ clients_after w reply.pending) }
{}

/// Where no two hashed inputs have one digest, histories with one chain digest are one history.
pub fn chain_tells_the_history()
    ensures { (hashed : List (List ℕ)) (u w : List ℕ) → IsFree hashed → AreHashed hashed u → AreHashed hashed w →
        chain_of u ≡ chain_of w → u ≡ w }
{}
