ghost use Rattle.std.specs.Prelude.{◌≡◌};

/// What a thread of its own is to do.
pub trait Job {
    type Out;

    /// What the answer of a job satisfies.
    ghost gives: { Self → Self.Out → Type 0 };

    /// Does the work, and answers.
    fn work(self) -> Self::Out
        ensures { gives self result };

    /// Ends the job without its work, so that no other job waits for it. It takes no memory.
    fn give_up(self);
}
