// Whose run it is.
ghost use Rattle.std.specs.Prelude.{ℕ};

use faust_host::Service;
use faust_node::Session;
use std::marker::Brand;

/// Names the counter, the config and the number of clients of one run, and how many operations each user makes, for
/// proofs alone. All who take part in it are of one `Cast`.
pub trait Cast: Session + Service {
    ghost ops: { ℕ };
}

impl Cast for Brand {
    ghost ops = { 0 };
}
