ghost use Rattle.std.specs.Prelude.{◌≡◌, IfOk};

use crate::bytes::Bytes;
use crate::out_of_memory::OutOfMemory;
use crate::sequence::Sequence;

/// What an operation does to its register.
#[derive(Clone, Copy, Debug, PartialEq, Eq)]
pub enum Kind {
    Write,
    Read,
}

/// The name of an operation: the `t`-th that `client` began, counted from 1.
#[derive(Clone, Copy, Debug, PartialEq, Eq)]
pub struct OpName {
    pub client: u8,
    pub t: u64,
}

/// Names of operations in an order.
pub type Names = Sequence<OpName>;

/// An operation on the register that client number `register` writes. A `dummy` read was begun by a tick.
#[derive(Clone, Copy, Debug, PartialEq, Eq)]
pub struct Operation {
    pub name: OpName,
    pub kind: Kind,
    pub register: u8,
    pub dummy: bool,
}

/// The answer to a completed operation. A read that found no value has none; `asof` is the timestamp of the
/// register's owner that the value belongs to, and 0 for a write.
#[derive(Debug, Drop)]
pub struct Answer {
    pub op: Operation,
    pub value: Option<Bytes>,
    pub asof: u64,
}

/// A broken check for good: its number from 1 to 15, and the place that the check names.
#[derive(Clone, Copy, Debug, PartialEq, Eq)]
pub struct Notice {
    pub check: u8,
    pub place: u32,
}

impl Answer {
    /// An equal answer of its own.
    pub fn copy(&self) -> Result<Answer, OutOfMemory>
        ensures { IfOk result (λ copy. copy ≡ self.now) }
    {
        let value = match &self.value {
            Some(value) => Some(value.copy()?),
            None => None,
        };
        Ok(Answer {
            op: self.op,
            value,
            asof: self.asof,
        })
    }
}
