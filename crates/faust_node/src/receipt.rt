// What a user gets for an operation that completed.
ghost use Rattle.std.specs.Prelude.{◌≡◌};
ghost use Rattle.faust_node.specs.Answers.{IsUserAnswer};

use faust_types::Answer;

/// An operation that completed: its answer, and the number of the entry that gave it. No receipt is of a dummy read,
/// and that of a write has its client's register, no value, and `asof` 0.
#[derive(Debug, Drop)]
pub struct Receipt {
    pub number: u64,
    pub answer: Answer,
    pub ghost kept: { IsUserAnswer answer },
}

impl Receipt {
    /// The receipt of this answer by the entry with this number.
    pub fn new(number: u64, answer: Answer) -> Receipt
        requires { IsUserAnswer answer }
        ensures number { result.number ≡ number }
        ensures answer { result.answer ≡ answer }
    {
        Receipt { number, answer }
    }
}
