ghost use Rattle.std.specs.Prelude.{◌≡◌, IfOk};

use crate::bytes::Bytes;
use crate::out_of_memory::OutOfMemory;

/// What the clients of a run share. `key` has 1 to 128 bytes, `clients` is 2 to 32, and the two spans of
/// moments are 1 to 2^40 - 1: another client is probed after `delta` without news of it, and an idle client
/// reads by itself after `dummy`. `wire` is the version of the wire, 1 or 2: under version 2 a client keeps its
/// COMMIT and lets it ride on its next SUBMIT.
#[derive(Debug, Drop)]
pub struct Config {
    pub clients: u8,
    pub key: Bytes,
    pub delta: u64,
    pub dummy: u64,
    pub wire: u8,
}

impl Config {
    /// An equal config of its own.
    pub fn copy(&self) -> Result<Config, OutOfMemory>
        ensures { IfOk result (λ copy. copy ≡ self.now) }
    {
        Ok(Config {
            clients: self.clients,
            key: self.key.copy()?,
            delta: self.delta,
            dummy: self.dummy,
            wire: self.wire,
        })
    }
}
