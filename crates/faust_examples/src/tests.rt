ghost use Rattle.std.specs.Prelude.{◌≡◌, IfOk};
ghost use Rattle.faust_types.specs.Ranges.{IsConfig};

use faust_types::{Bytes, Config, OutOfMemory};
use std::alloc::Global;

mod audit;
mod checks;
mod client;
mod server;

const KEY: [u8; 16] = [0, 1, 2, 3, 4, 5, 6, 7, 8, 9, 10, 11, 12, 13, 14, 15];

/// What two clients share: the key, which their server never gets, and the spans of their timers.
fn config(alloc: Global) -> Result<Config, OutOfMemory>
    ensures config { IfOk result IsConfig }
    ensures two { IfOk result (λ config. config.clients ≡ 2) }
{
    Ok(Config {
        clients: 2,
        key: Bytes::from_slice(alloc, &KEY)?,
        delta: 1000,
        dummy: 1_000_000,
        wire: 1,
    })
}
