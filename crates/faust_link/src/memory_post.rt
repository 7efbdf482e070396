ghost use Rattle.std.specs.Prelude.{◌≡◌, None};

use crate::answers::{Got, LinkError};
use crate::mailbox::Office;
use crate::posts::{PostIn, PostOut};
use faust_types::Bytes;
use std::alloc::Global;
use std::sync::{Arc, Mutex, Wait};

/// Where the datagrams of a client come in, in memory. It tells nothing of them, since all clients share the
/// mailboxes, and it never fails.
#[derive(Drop)]
pub struct MemPostIn<R> {
    rt: R,
    office: Arc<Mutex<Office>, Global>,
    client: u8,
}

impl<R: Wait> MemPostIn<R> {
    /// The mailbox of this client.
    pub(crate) fn new(rt: R, office: Arc<Mutex<Office>, Global>, client: u8) -> MemPostIn<R> {
        MemPostIn { rt, office, client }
    }
}

impl<R: Wait> PostIn for MemPostIn<R> {
    ghost standing = { λ _. None };

    ghost faults = { λ _. 0 };

    fn take(&mut self, into: &mut Bytes) -> Result<Got, LinkError> {
        match self.office.lock(&self.rt).take(self.client) {
            Some(parcel) => {
                *into = parcel.into_bytes();
                Ok(Got::Frame)
            }
            None => Ok(Got::Idle),
        }
    }
}

/// Where the datagrams of a client go out, in memory. It never fails.
#[derive(Drop)]
pub struct MemPostOut<R> {
    rt: R,
    office: Arc<Mutex<Office>, Global>,
}

impl<R: Wait> MemPostOut<R> {
    /// The way to all mailboxes.
    pub(crate) fn new(rt: R, office: Arc<Mutex<Office>, Global>) -> MemPostOut<R> {
        MemPostOut { rt, office }
    }
}

impl<R: Wait> PostOut for MemPostOut<R> {
    ghost faults = { λ _. 0 };

    fn give(&mut self, to: u8, bytes: &[u8]) -> Result<(), LinkError> {
        self.office.lock(&self.rt).give(to, bytes)?;
        Ok(())
    }
}
