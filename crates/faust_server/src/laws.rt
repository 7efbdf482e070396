//! What the rows say, on the definitions alone. Each function has an empty body, and its contract is the law.
ghost use Rattle.std.specs.Prelude.{◌≡◌, ◌≢◌, ℕ, ◌+◌, ◌⊎◌, ◌^◌, ◌<◌, Bool, true, false, IfOk, Some, None, Ok, Err};
ghost use Rattle.faust_types.specs.Clients.{IsClientCount, IsClient};
ghost use Rattle.faust_types.specs.Versions.{timestamp_at};
ghost use Rattle.faust_types.specs.Ranges.{IsSubmitFor, IsCommitFor};
ghost use Rattle.faust_types.specs.declared.message.Submit.{Submit};
ghost use Rattle.faust_types.specs.declared.message.Commit.{Commit};
ghost use Rattle.faust_server.specs.declared.refusal.OutOfTurn.{OutOfTurn};
ghost use Rattle.faust_server.specs.Rows.{State, first_state, turn_at, out_of_turn, advanced, settled, committed, served, submitted, alone, retaken};
ghost use Rattle.faust_server.specs.States.{IsStateFor, IsServedFor};

/// A SUBMIT on which a COMMIT rides is the row COMMIT, and then the row SUBMIT of the message without it.
pub fn a_riding_commit_comes_first()
    ensures taken { (st after : State) (i : ℕ) (m : Submit) (commit : Commit) → m.commit ≡ Some commit →
        committed st i commit ≡ Ok after → submitted st i m ≡ submitted after i (alone m) }
    ensures refused { (st : State) (i : ℕ) (m : Submit) (commit : Commit) (refused : OutOfTurn) → m.commit ≡ Some commit →
        committed st i commit ≡ Err refused → submitted st i m ≡ Err refused }
{}

/// A COMMIT is out of turn exactly where its client is committed or its number isn't the last one.
pub fn when_a_commit_is_in_turn()
    ensures taken { (st : State) (i : ℕ) (m : Commit) → (turn_at st i).uncommitted ≡ true →
        timestamp_at m.version i ≡ (turn_at st i).last → committed st i m ≡ Ok (settled (advanced st i m.version) i m) }
    ensures refused { (st : State) (i : ℕ) (m : Commit) →
        ((turn_at st i).uncommitted ≡ false) ⊎ (timestamp_at m.version i ≢ (turn_at st i).last) →
        committed st i m ≡ Err (out_of_turn (turn_at st i) (timestamp_at m.version i)) }
{}

/// A SUBMIT on which no COMMIT rides is out of turn exactly where its client is uncommitted or its number isn't the
/// next one.
pub fn when_a_submit_alone_is_in_turn()
    ensures taken { (st : State) (i : ℕ) (m : Submit) → m.commit ≡ None → (turn_at st i).uncommitted ≡ false →
        m.t ≡ (turn_at st i).last + 1 → submitted st i m ≡ Ok (served st i m) }
    ensures refused { (st : State) (i : ℕ) (m : Submit) → m.commit ≡ None →
        ((turn_at st i).uncommitted ≡ true) ⊎ (m.t ≢ (turn_at st i).last + 1) →
        submitted st i m ≡ Err (out_of_turn (turn_at st i) m.t) }
{}

/// A SUBMIT on which a COMMIT rides is out of turn exactly where the COMMIT is, which the refusal then tells, or
/// where only its own number isn't the next one.
pub fn when_a_submit_with_a_commit_is_in_turn()
    ensures taken { (n : ℕ) (st : State) (i : ℕ) (m : Submit) (commit : Commit) → IsStateFor n st → IsClient n i →
        m.commit ≡ Some commit → (turn_at st i).uncommitted ≡ true → timestamp_at commit.version i ≡ (turn_at st i).last →
        m.t ≡ (turn_at st i).last + 1 →
        submitted st i m ≡ Ok (served (settled (advanced st i commit.version) i commit) i m) }
    ensures refused { (st : State) (i : ℕ) (m : Submit) (commit : Commit) → m.commit ≡ Some commit →
        ((turn_at st i).uncommitted ≡ false) ⊎ (timestamp_at commit.version i ≢ (turn_at st i).last) →
        submitted st i m ≡ Err (out_of_turn (turn_at st i) (timestamp_at commit.version i)) }
    ensures number { (n : ℕ) (st : State) (i : ℕ) (m : Submit) (commit : Commit) → IsStateFor n st → IsClient n i →
        m.commit ≡ Some commit → (turn_at st i).uncommitted ≡ true → timestamp_at commit.version i ≡ (turn_at st i).last →
        m.t ≢ (turn_at st i).last + 1 →
        submitted st i m ≡ Err (record { expected = (turn_at st i).last + 1; got = m.t }) }
{}

/// From a state in range a message in range leads to another, and its reply is in range and shows fewer operations
/// than there are clients. So does a turn set by hand, and the first state is in range.
pub fn rows_stay_in_range()
    ensures first { (n : ℕ) → IsClientCount n → IsStateFor n (first_state n) }
    ensures submit { (n : ℕ) (st : State) (i : ℕ) (m : Submit) → IsStateFor n st → IsClient n i → IsSubmitFor n m →
        IfOk (submitted st i m) (IsServedFor n) }
    ensures commit { (n : ℕ) (st : State) (i : ℕ) (m : Commit) → IsStateFor n st → IsClient n i → IsCommitFor n m →
        IfOk (committed st i m) (IsStateFor n) }
    ensures retake { (n : ℕ) (st : State) (i last : ℕ) (uncommitted : Bool) → IsStateFor n st → IsClient n i → last < 2 ^ 40 →
        IsStateFor n (retaken st i last uncommitted) }
{}
