// Bytes that clauses name and no code holds.
ghost use Rattle.std.specs.Prelude.{◌≡◌, ℕ, List};
ghost use base.Fml.{ftrue};

use std::marker::{Model, PhantomData};

// It takes no memory and owns nothing. What it names is tied to what a struct does hold by that struct's invariant.
#[derive(Drop)]
pub(crate) struct GhostBytes {
    marker: PhantomData<()>,
    pub(crate) ghost bytes: { List ℕ },
}

impl Model for GhostBytes {
    ghost also_owns = { λ _. ftrue };
}

impl GhostBytes {
    // The bytes that the caller's proof picks of `source`.
    pub(crate) fn of<S>(source: &S) -> GhostBytes
        ghost picked: { List ℕ }
        ensures { result.bytes ≡ picked }
    {
        let _ = source;
        GhostBytes {
            marker: PhantomData,
        }
    }
}

unsafe impl Send for GhostBytes {}

unsafe impl Sync for GhostBytes {}
