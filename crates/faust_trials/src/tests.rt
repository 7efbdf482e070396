ghost use Rattle.std.specs.Prelude.{◌≡◌, IfOk};
ghost use Rattle.faust_types.specs.Clients.{IsClientCount};
ghost use Rattle.faust_types.specs.Ranges.{IsConfig};

use faust_types::{Bytes, Config, OutOfMemory};
use std::alloc::Global;

mod faults;
mod live;
mod messages;

const KEY: [u8; 16] = [0, 1, 2, 3, 4, 5, 6, 7, 8, 9, 10, 11, 12, 13, 14, 15];

/// A config for so many clients.
fn config(alloc: Global, clients: u8) -> Result<Config, OutOfMemory>
    requires { IsClientCount clients }
    ensures config { IfOk result IsConfig }
    ensures count { IfOk result (λ config. config.clients ≡ clients) }
{
    Ok(Config {
        clients,
        key: Bytes::from_slice(alloc, &KEY)?,
        delta: 1000,
        dummy: 1_000_000,
        wire: 1,
    })
}
