ghost use Rattle.std.specs.Prelude.{◌≡◌, map, string_bytes, IfNone, IfOk, IfSome};
ghost use Rattle.faust_types.specs.Ranges.{IsConfig};
ghost use Rattle.faust_outcome.specs.Forms.{command_of, detail_of, key_of, live_command};
ghost use Rattle.faust_outcome.specs.Words.{IsForm, IsInRange, IsNoForm, config_of};

use faust_text::{ValueError, hex_bytes, number_between};
use faust_types::{Bytes, Config, OutOfMemory};
use std::alloc::Global;

/// How much is told of a run.
#[derive(Clone, Copy, Debug, PartialEq, Eq)]
pub enum Detail {
    /// A few numbers.
    Short,
    /// The report.
    Full,
}

/// What the words of a live run say: how many clients, how many operations each user makes, the key that the clients
/// share, and how much is told.
#[derive(Debug, Drop)]
pub struct LiveCommand {
    pub clients: u8,
    pub ops: u64,
    pub key: Bytes,
    pub detail: Detail,
}

const LIVE: &[u8] = b"live";

const SHORT: &[u8] = b"short";

const FULL: &[u8] = b"full";

impl LiveCommand {
    /// The command whose form the words are: none exactly where they are no form of a live run.
    pub fn of(alloc: Global, words: &[String]) -> Result<Option<LiveCommand>, OutOfMemory>
        ensures form { IfOk result (λ found. IfSome found (λ command. IsForm (map string_bytes words.now) command)) }
        ensures no_form { IfOk result (λ found. IfNone found (IsNoForm (map string_bytes words.now))) }
    {
        LiveCommand::read(alloc, words)
    }

    fn read(alloc: Global, words: &[String]) -> Result<Option<LiveCommand>, OutOfMemory>
        ensures { IfOk result (λ found. found ≡ command_of (map string_bytes words.now)) }
    {
        if words.len() != 5 {
            return Ok(None);
        }
        LiveCommand::live(
            alloc,
            words[0].as_bytes(),
            words[1].as_bytes(),
            words[2].as_bytes(),
            words[3].as_bytes(),
            words[4].as_bytes(),
        )
    }

    fn live(
        alloc: Global,
        word: &[u8],
        clients: &[u8],
        ops: &[u8],
        key: &[u8],
        detail: &[u8],
    ) -> Result<Option<LiveCommand>, OutOfMemory>
        ensures { IfOk result (λ found. found ≡ live_command word.now clients.now ops.now key.now detail.now) }
    {
        if word != LIVE {
            return Ok(None);
        }
        let Some(clients) = number_between(clients, 2, 8) else {
            return Ok(None);
        };
        let Some(ops) = number_between(ops, 1, 1_000) else {
            return Ok(None);
        };
        let Some(key) = key_of(alloc, key)? else {
            return Ok(None);
        };
        let Some(detail) = Detail::of(detail) else {
            return Ok(None);
        };
        Ok(Some(LiveCommand {
            clients: clients as u8,
            ops,
            key,
            detail,
        }))
    }

    /// What the clients share.
    pub fn config(&self, alloc: Global) -> Result<Config, OutOfMemory>
        requires { IsInRange self.now }
        ensures config { IfOk result (λ config. config ≡ config_of self.now) }
        ensures in_range { IfOk result IsConfig }
    {
        Ok(Config {
            clients: self.clients,
            key: Bytes::from_slice(alloc, self.key.as_slice())?,
            delta: 200,
            dummy: 50,
            wire: 1,
        })
    }
}

impl Detail {
    fn of(word: &[u8]) -> Option<Detail>
        ensures { result ≡ detail_of word.now }
    {
        if word == SHORT {
            Some(Detail::Short)
        } else if word == FULL {
            Some(Detail::Full)
        } else {
            None
        }
    }
}

/// The bytes of a key, of which there are 1 to 128.
fn key_of(alloc: Global, word: &[u8]) -> Result<Option<Bytes>, OutOfMemory>
    ensures { IfOk result (λ key. key ≡ key_of word.now) }
{
    match hex_bytes(alloc, word, 128) {
        Ok(key) if !key.is_empty() => Ok(Some(key)),
        Ok(_) | Err(ValueError::Bad) => Ok(None),
        Err(ValueError::OutOfMemory) => Err(OutOfMemory),
    }
}
