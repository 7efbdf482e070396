ghost use Rattle.std.specs.Prelude.{◌≡◌};
ghost use Rattle.faust_views.specs.Keys.{key_of};

use faust_types::OpName;

/// The name of an operation, as it is looked up.
#[derive(Drop, PartialEq, Eq, PartialOrd, Ord)]
pub(crate) struct Key {
    pub client: u8,
    pub t: u64,
}

impl Key {
    pub(crate) fn of(name: OpName) -> Key
        ensures { result ≡ key_of name }
    {
        Key {
            client: name.client,
            t: name.t,
        }
    }
}
