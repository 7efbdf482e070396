//! What the definitions of `specs/` keep. Each function has an empty body, and its contract is the law.
ghost use Rattle.std.specs.Prelude.{◌≡◌, ℕ, List, Option, Some, Ok};
ghost use Rattle.faust_types.specs.Clients.{IsClient};
ghost use Rattle.faust_types.specs.Ranges.{IsSubmitFor, IsCommitFor, IsReplyFor};
ghost use Rattle.faust_types.specs.declared.message.Submit.{Submit};
ghost use Rattle.faust_types.specs.declared.message.Reply.{Reply};
ghost use Rattle.faust_types.specs.declared.message.Commit.{Commit};
ghost use Rattle.faust_server.specs.Rows.{State, Served, committed, submitted};
ghost use Rattle.faust_server.specs.States.{IsStateFor};
ghost use Rattle.faust_script.specs.InRange.{IsEditFor};
ghost use Rattle.faust_script.specs.declared.edit.Edit.{Edit};
ghost use Rattle.faust_liar.specs.Edits.{lied_reply};
ghost use Rattle.faust_liar.specs.Branches.{after_commit, answered, turn_set, uncommitted_at};
ghost use Rattle.faust_liar.specs.InRange.{IsBehind};

/// A branch is the honest server with its client's turn set to what the message needs: then no row is out of turn.
pub fn branches_are_never_out_of_turn()
    ensures submit { (n : ℕ) (st : State) (i : ℕ) (m : Submit) → IsStateFor n st → IsClient n i → IsSubmitFor n m →
        IsBehind i m m.commit → submitted (turn_set st i m m.commit) i m ≡ Ok (answered st i m) }
    ensures commit { (n : ℕ) (st : State) (i : ℕ) (m : Commit) → IsStateFor n st → IsClient n i → IsCommitFor n m →
        committed (uncommitted_at st i m) i m ≡ Ok (after_commit st i m) }
{}

/// Where the message is in turn, setting the turn changes nothing: a branch that saw all messages of its clients in
/// order is the honest server.
pub fn in_turn_branches_are_honest()
    ensures submit { (n : ℕ) (st : State) (i : ℕ) (m : Submit) (given : Served) → IsStateFor n st → IsClient n i → IsSubmitFor n m →
        IsBehind i m m.commit → submitted st i m ≡ Ok given → given ≡ answered st i m }
    ensures commit { (n : ℕ) (st after : State) (i : ℕ) (m : Commit) → IsStateFor n st → IsClient n i → IsCommitFor n m →
        committed st i m ≡ Ok after → after ≡ after_commit st i m }
{}

/// What an edit makes of a reply in range, forged or not, is in range too: it has a spelling.
pub fn lies_are_in_range()
    ensures { (n : ℕ) (key : Option (List ℕ)) (edit : Edit) (reply made : Reply) → IsReplyFor n reply → IsEditFor n edit →
        lied_reply key edit reply ≡ Some made → IsReplyFor n made }
{}
