//! What an honest server keeps. Each function has an empty body, and its contract is the law.
ghost use Rattle.std.specs.Prelude.{◌≡◌, ℕ, suc, List, [], ◌∷◌, Some, Ok, IsOkAnd};
ghost use Rattle.faust_types.specs.Clients.{IsClientCount, IsClient};
ghost use Rattle.faust_types.specs.Ranges.{IsSubmitFor, IsCommitFor};
ghost use Rattle.faust_types.specs.Versions.{Vector};
ghost use Rattle.faust_types.specs.declared.message.Commit.{Commit};
ghost use Rattle.faust_types.specs.declared.message.Reply.{Reply};
ghost use Rattle.faust_types.specs.declared.operation.Operation.{Operation};
ghost use Rattle.faust_server.specs.Rows.{State, first_state, committed, submitted};
ghost use Rattle.faust_ustor.specs.Checks.{judged};
ghost use Rattle.faust_ustor.specs.Passed.{told};
ghost use Rattle.faust_lists.specs.Lists.{count, upto};
ghost use Rattle.faust_lists.specs.Walks.{IsVersionOf};
ghost use Rattle.faust_honest.specs.World.{World, IsCommitOf, submit_of};
ghost use Rattle.faust_honest.specs.Honest.{next_submit, IsHonest, IsAccepted, IsServedWell};

/// A server that no message reached is honest.
pub fn first_state_is_honest()
    ensures { (n : ℕ) (world : World) → IsClientCount n → IsHonest n world (first_state n) [] [] }
{}

/// The COMMIT of a client's last operation is taken, and the server stays honest.
pub fn commit_stays_honest()
    ensures { (n : ℕ) (world : World) (st : State) (arrived handled : List ℕ) (i : ℕ) (m : Commit) →
        IsHonest n world st arrived handled → IsClient n i → IsCommitFor n m → count i arrived ≡ suc (count i handled) →
        IsCommitOf n world i (upto i (count i arrived) arrived) m →
        IsOkAnd (committed st i m) (λ after. IsHonest n world after arrived (i ∷ handled)) }
{}

/// The SUBMIT of the next operation of a client that committed its last one is taken, the server stays honest, and the
/// client takes the reply.
pub fn submit_is_served_well()
    ensures { (n : ℕ) (world : World) (st : State) (arrived handled : List ℕ) (i : ℕ) →
        IsHonest n world st arrived handled → IsClient n i → IsSubmitFor n (next_submit world arrived i) →
        count i arrived ≡ count i handled →
        IsOkAnd (submitted st i (next_submit world arrived i)) (IsServedWell n world i arrived handled) }
{}

/// The same of a SUBMIT on which the COMMIT of the operation before rides.
pub fn riding_submit_is_served_well()
    ensures { (n : ℕ) (world : World) (st : State) (arrived handled : List ℕ) (i : ℕ) (commit : Commit) →
        IsHonest n world st arrived handled → IsClient n i → IsSubmitFor n (submit_of world i (suc (count i arrived)) (Some commit)) →
        count i arrived ≡ suc (count i handled) → IsCommitOf n world i (upto i (count i arrived) arrived) commit →
        IsOkAnd (submitted st i (submit_of world i (suc (count i arrived)) (Some commit))) (IsServedWell n world i arrived (i ∷ handled)) }
{}

/// A client that takes a reply judges it to pass, and is told what the reply tells.
pub fn accepted_reply_is_judged_to_pass()
    ensures { (n : ℕ) (world : World) (i : ℕ) (arrived : List ℕ) (reply : Reply) (own : Vector) (op : Operation) →
        IsAccepted n world i arrived reply → IsVersionOf n own (upto i (count i arrived) arrived) →
        op.kind ≡ world.kind i (suc (count i arrived)) → op.register ≡ world.register i (suc (count i arrived)) →
        judged world.key i own op reply ≡ Ok (told i reply) }
{}
