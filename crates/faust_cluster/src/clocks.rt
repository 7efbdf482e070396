// The clocks of a live run.
ghost use Rattle.std.specs.Prelude.{◌≤◌, length};

/// At least 8 clocks, one for each client that a run may have.
#[derive(Drop)]
pub struct Clocks<C> {
    clocks: Vec<C>,
    ghost enough: { 8 ≤ length clocks.items },
}

impl<C: Drop> Clocks<C> {
    /// Of these, at least 8.
    pub fn of(clocks: Vec<C>) -> Clocks<C>
        requires { 8 ≤ length clocks.items }
    {
        Clocks { clocks }
    }

    pub(crate) fn into_vec(self) -> Vec<C>
        ensures { 8 ≤ length result.items }
    {
        self.clocks
    }
}
