ghost use Rattle.std.specs.Prelude.{◌≡◌, ◌^◌, ◌<◌, true, false, MatchResult};
ghost use Rattle.faust_server.specs.Rows.{is_submit_in_turn, is_commit_in_turn, expected_of, out_of_turn};

use crate::refusal::OutOfTurn;

/// The number that a client submitted last, 0 before the first, and whether that operation is uncommitted.
#[derive(Clone, Copy, Debug, PartialEq, Eq)]
pub struct Turn {
    pub last: u64,
    pub uncommitted: bool,
}

impl Turn {
    /// Whether a SUBMIT with the number t is in turn.
    pub fn admit_submit(self, t: u64) -> Result<(), OutOfTurn>
        requires { self.last < 2 ^ 40 }
        ensures { MatchResult result (λ _. is_submit_in_turn self t ≡ true)
            (λ e. (is_submit_in_turn self t ≡ false) × (e ≡ out_of_turn self t)) }
    {
        if !self.uncommitted && t == self.last + 1 {
            Ok(())
        } else {
            Err(self.refusal(t))
        }
    }

    /// Whether a COMMIT of the operation with the number t is in turn.
    pub fn admit_commit(self, t: u64) -> Result<(), OutOfTurn>
        requires { self.last < 2 ^ 40 }
        ensures { MatchResult result (λ _. is_commit_in_turn self t ≡ true)
            (λ e. (is_commit_in_turn self t ≡ false) × (e ≡ out_of_turn self t)) }
    {
        if self.uncommitted && t == self.last {
            Ok(())
        } else {
            Err(self.refusal(t))
        }
    }

    fn refusal(self, got: u64) -> OutOfTurn
        requires { self.last < 2 ^ 40 }
        ensures { result ≡ out_of_turn self got }
    {
        let expected = if self.uncommitted {
            self.last
        } else {
            self.last + 1
        };
        OutOfTurn { expected, got }
    }
}
