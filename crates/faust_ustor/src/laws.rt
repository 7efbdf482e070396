//! What the checks mean. Each function has an empty body, and its contract is the law.
ghost use Rattle.std.specs.Prelude.{◌≡◌, ◌≢◌, ℕ, ◌+◌, ◌≤◌, List, [], ◌∷◌, ◌++◌, Option, length};
ghost use Rattle.faust_types.specs.Clients.{IsClient};
ghost use Rattle.faust_types.specs.Versions.{Vector, IsAtMost, clients_of, digest_at, timestamp_at};
ghost use Rattle.faust_types.specs.Messages.{tuples_by};
ghost use Rattle.faust_types.specs.Ranges.{IsCheck, IsReplyFor};
ghost use Rattle.faust_types.specs.declared.operation.Notice.{Notice};
ghost use Rattle.faust_types.specs.declared.operation.Operation.{Operation};
ghost use Rattle.faust_types.specs.declared.message.Reply.{Reply};
ghost use Rattle.faust_types.specs.declared.message.Tuple.{Tuple};
ghost use Rattle.faust_hash.specs.Chain.{chain_of};
ghost use Rattle.faust_ustor.specs.declared.judgement.Judged.{Judged};
ghost use Rattle.faust_ustor.specs.declared.walk.Walk.{Walk};
ghost use Rattle.faust_ustor.specs.Checks.{judged};
ghost use Rattle.faust_ustor.specs.Hashed.{all_inputs, hashed};
ghost use Rattle.faust_ustor.specs.Passed.{AreTuplesPassed, IsPassed, clients_after, followed, told};
ghost use Rattle.faust_ustor.specs.InRange.{IsJudgedFor, IsPendingOf};

/// A reply that is judged to pass breaks no check, whatever their order, and one that breaks none passes. The
/// answer is then what the reply tells.
pub fn passes_exactly_where_no_check_is_broken()
    ensures passed { (key : List ℕ) (me : ℕ) (own : Vector) (op : Operation) (reply : Reply) (answer : Judged) →
        judged key me own op reply ≡ Ok answer → IsPassed key me own op reply }
    ensures told { (key : List ℕ) (me : ℕ) (own : Vector) (op : Operation) (reply : Reply) (answer : Judged) →
        judged key me own op reply ≡ Ok answer → answer ≡ told me reply }
    ensures taken { (key : List ℕ) (me : ℕ) (own : Vector) (op : Operation) (reply : Reply) →
        IsPassed key me own op reply → judged key me own op reply ≡ Ok (told me reply) }
{}

/// The next version counts the own operation, and besides what the version of c counts one operation a tuple of
/// each other client.
pub fn next_counts_the_tuples_and_the_own_operation()
    ensures own { (key : List ℕ) (me : ℕ) (own : Vector) (op : Operation) (reply : Reply) (answer : Judged) →
        IsPendingOf me own op → IsReplyFor (clients_of own) reply → judged key me own op reply ≡ Ok answer →
        timestamp_at answer.next me ≡ op.name.t }
    ensures others { (key : List ℕ) (me : ℕ) (own : Vector) (op : Operation) (reply : Reply) (answer : Judged) (k : ℕ) →
        IsPendingOf me own op → IsReplyFor (clients_of own) reply → judged key me own op reply ≡ Ok answer →
        IsClient (clients_of own) k → k ≢ me →
        timestamp_at answer.next k ≡ timestamp_at reply.version.version k + tuples_by k reply.pending }
{}

/// The next version is above that of c and the own one.
pub fn next_is_above()
    ensures version { (key : List ℕ) (me : ℕ) (own : Vector) (op : Operation) (reply : Reply) (answer : Judged) →
        IsPendingOf me own op → IsReplyFor (clients_of own) reply → judged key me own op reply ≡ Ok answer →
        IsAtMost reply.version.version answer.next }
    ensures own { (key : List ℕ) (me : ℕ) (own : Vector) (op : Operation) (reply : Reply) (answer : Judged) →
        IsPendingOf me own op → IsReplyFor (clients_of own) reply → judged key me own op reply ≡ Ok answer →
        IsAtMost own answer.next }
{}

/// What is judged to pass is in range.
pub fn what_passes_is_in_range()
    ensures { (key : List ℕ) (me : ℕ) (own : Vector) (op : Operation) (reply : Reply) (answer : Judged) →
        IsPendingOf me own op → IsReplyFor (clients_of own) reply → judged key me own op reply ≡ Ok answer →
        IsJudgedFor (clients_of own) op.register answer }
{}

/// A broken condition is one of the checks 3 to 12, and so has the number of a check.
pub fn what_is_broken_is_a_check()
    ensures check { (key : List ℕ) (me : ℕ) (own : Vector) (op : Operation) (reply : Reply) (notice : Notice) →
        judged key me own op reply ≡ Err notice → IsCheck notice.check }
    ensures from_3 { (key : List ℕ) (me : ℕ) (own : Vector) (op : Operation) (reply : Reply) (notice : Notice) →
        judged key me own op reply ≡ Err notice → 3 ≤ notice.check }
    ensures to_12 { (key : List ℕ) (me : ℕ) (own : Vector) (op : Operation) (reply : Reply) (notice : Notice) →
        judged key me own op reply ≡ Err notice → notice.check ≤ 12 }
{}

/// A walk that begins with the digest of a chain of clients has at its end the digest of the chain of those and
/// of the clients of all tuples. Where the version of c has the digest of a chain of clients in the place of c, the
/// next version has in the own place the digest of the chain of those, the clients of all tuples, and the own one.
pub fn digest_is_that_of_the_chain()
    ensures walk { (walk : Walk) (tuples : List Tuple) (clients : List ℕ) → walk.digest ≡ chain_of clients →
        (followed walk tuples).digest ≡ chain_of (clients_after clients tuples) }
    ensures next { (key : List ℕ) (me : ℕ) (own : Vector) (op : Operation) (reply : Reply) (answer : Judged) (clients : List ℕ) →
        IsPendingOf me own op → IsReplyFor (clients_of own) reply → judged key me own op reply ≡ Ok answer →
        digest_at reply.version.version reply.c ≡ chain_of clients →
        digest_at answer.next me ≡ chain_of (me ∷ clients_after clients reply.pending) }
{}

/// A walk over two lists of tuples goes over the second from where it came to over the first, and both pass where
/// the first does, and the second does from there on.
pub fn walks_are_put_together()
    ensures followed { (walk : Walk) (tuples more : List Tuple) →
        followed walk (tuples ++ more) ≡ followed (followed walk tuples) more }
    ensures passed { (key : List ℕ) (me : ℕ) (proofs : List (Option (List ℕ))) (walk : Walk) (tuples more : List Tuple) →
        AreTuplesPassed key me proofs walk tuples → AreTuplesPassed key me proofs (followed walk tuples) more →
        AreTuplesPassed key me proofs walk (tuples ++ more) }
{}

/// A client that takes a reply has hashed one chain a tuple, the own one, and the value that it read.
#[tactic(auto, using(crate::proofs::Inputs::hashed_passed))]
pub fn all_is_hashed_where_no_check_is_broken()
    ensures { (key : List ℕ) (me : ℕ) (own : Vector) (op : Operation) (reply : Reply) →
        IsPassed key me own op reply → hashed key me own op reply ≡ all_inputs me reply }
{}

/// Of any other reply a client has hashed the first of these: none where check 3, 4 or 5 is broken, the tuples before
/// the place where check 6, 7 or 8 is, all but the value where check 9 is, and all where check 10, 11 or 12 is.
pub fn what_is_hashed_stops_at_the_broken_check()
    ensures front { (key : List ℕ) (me : ℕ) (own : Vector) (op : Operation) (reply : Reply) →
        (rest : List (List ℕ)) × (hashed key me own op reply ++ rest ≡ all_inputs me reply) }
    ensures base { (key : List ℕ) (me : ℕ) (own : Vector) (op : Operation) (reply : Reply) (notice : Notice) →
        judged key me own op reply ≡ Err notice → notice.check ≤ 5 → hashed key me own op reply ≡ [] }
    ensures tuple { (key : List ℕ) (me : ℕ) (own : Vector) (op : Operation) (reply : Reply) (notice : Notice) →
        judged key me own op reply ≡ Err notice → 6 ≤ notice.check → notice.check ≤ 8 →
        length (hashed key me own op reply) + 1 ≡ notice.place }
    ensures version { (key : List ℕ) (me : ℕ) (own : Vector) (op : Operation) (reply : Reply) (notice : Notice) →
        judged key me own op reply ≡ Err notice → notice.check ≡ 9 →
        length (hashed key me own op reply) ≡ length reply.pending + 1 }
    ensures memory { (key : List ℕ) (me : ℕ) (own : Vector) (op : Operation) (reply : Reply) (notice : Notice) →
        judged key me own op reply ≡ Err notice → 10 ≤ notice.check → hashed key me own op reply ≡ all_inputs me reply }
{}
