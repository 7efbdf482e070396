ghost use Rattle.std.specs.Prelude.{◌≡◌, map, string_bytes};
ghost use Rattle.faust_top.specs.Commands.{IsInRange, limit_of, word_of};
ghost use Rattle.faust_top.specs.Forms.{command_of, plain_command, sample_command};

use faust_text::{number, number_between};

/// What the words tell the program to do.
#[derive(Clone, Copy, Debug, PartialEq, Eq)]
pub enum Command {
    /// The report of the run of a script.
    Script,
    /// The run of a script as a record.
    Record,
    /// The report of the run of a record.
    Audit,
    /// The report of the run of a script as JSON.
    Json,
    /// The run of a record as a record of format 2.
    Migrate,
    /// The summary of a run that is generated from a seed.
    Sample { seed: u64, clients: u8, ops: u64 },
}

const PLAIN_COMMANDS: [Command; 5] = [
    Command::Script,
    Command::Record,
    Command::Audit,
    Command::Json,
    Command::Migrate,
];

const SAMPLE: &[u8] = b"sample";

/// The most bytes of a record.
pub const MAX_RECORD_LEN: usize = 400_000_000;

impl Command {
    /// The command whose form the words are.
    pub fn of(words: &[String]) -> Option<Command>
        ensures { result ≡ command_of (map string_bytes words.now) }
    {
        match words {
            [word] => Command::plain(word.as_bytes()),
            [word, seed, clients, ops] => Command::sample(
                word.as_bytes(),
                seed.as_bytes(),
                clients.as_bytes(),
                ops.as_bytes(),
            ),
            _ => None,
        }
    }

    fn plain(word: &[u8]) -> Option<Command>
        ensures { result ≡ plain_command word.now }
    {
        PLAIN_COMMANDS
            .iter()
            .copied()
            .find(|command| command.word() == word)
    }

    fn sample(word: &[u8], seed: &[u8], clients: &[u8], ops: &[u8]) -> Option<Command>
        ensures { result ≡ sample_command word.now seed.now clients.now ops.now }
    {
        if word != SAMPLE {
            return None;
        }
        let seed = number(seed)?;
        let clients = number_between(clients, 2, 32)?;
        let ops = number_between(ops, 1, 3_000)?;
        Some(Command::Sample {
            seed,
            clients: clients as u8,
            ops,
        })
    }

    fn word(self) -> &'static [u8]
        ensures { result.now ≡ word_of self }
    {
        match self {
            Command::Script => b"script",
            Command::Record => b"record",
            Command::Audit => b"audit",
            Command::Json => b"json",
            Command::Migrate => b"migrate",
            Command::Sample { .. } => SAMPLE,
        }
    }

    /// The most bytes of its input: none where it reads nothing.
    pub fn limit(self) -> Option<usize>
        ensures { result ≡ limit_of self }
    {
        match self {
            Command::Script | Command::Record | Command::Json => Some(1_048_576),
            Command::Audit | Command::Migrate => Some(MAX_RECORD_LEN),
            Command::Sample { .. } => None,
        }
    }
}
