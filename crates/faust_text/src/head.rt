ghost use Rattle.std.specs.Prelude.{◌≡◌, ◌≤◌, [], ◌∷◌, IfOk};
ghost use Rattle.faust_text.specs.Fields.{Gives, fields_at, next_field, number, one_of, word};
ghost use Rattle.faust_text.specs.Heads.{after_title, config_of, format_words, head_at, key_form, title_form, title_word};
ghost use Rattle.faust_text.specs.Tokens.{tokens_of};

use crate::cause::Cause;
use crate::cursor::Cursor;
use crate::error::LineError;
use faust_types::{Bytes, Config, MAX_TIMESTAMP};
use std::alloc::Global;

/// The first word of a text.
#[derive(Clone, Copy, Debug, PartialEq, Eq)]
pub enum Title {
    /// `faust`, of a script.
    Script,
    /// `faust-record`, of a record.
    Record,
}

/// Which heads a text may have.
#[derive(Clone, Copy, Debug, PartialEq, Eq)]
pub struct HeadForm {
    /// Its first word.
    pub title: Title,
    /// The greatest format: 1, or 2 where a text may also name the wire's version.
    pub formats: u8,
    /// The greatest number of clients, at most 32.
    pub clients: u8,
}

/// The format of a text, 1 or 2, and the wire's version, which is 1 under format 1.
#[derive(Clone, Copy, Debug, PartialEq, Eq)]
pub struct Formats {
    pub text: u8,
    pub wire: u8,
}

/// What was read of the head of a text; the name says which line is due: `faust F`, `wire W` of format 2,
/// `clients NUM`, `key HEX`, `delta NUM` or `dummy NUM`.
#[derive(Debug, Drop)]
pub enum Head {
    Title,
    Wire,
    Clients(Formats),
    Key(Formats, u8),
    Delta(Formats, u8, Bytes),
    Dummy(Formats, u8, Bytes, u64),
}

/// A head after one more line.
#[derive(Debug, Drop)]
pub enum HeadStep {
    Next(Head),
    Whole { format: u8, config: Config },
}

impl Title {
    /// The word as it stands in the first line.
    pub fn word(self) -> &'static [u8]
        ensures { result.now ≡ title_word self }
    {
        match self {
            Title::Script => b"faust",
            Title::Record => b"faust-record",
        }
    }
}

impl Head {
    /// Reads the line that is due. A refused line has the cause of its first token that may not stand there.
    #[tactic(auto, unfolding(crate::specs::Heads::head_at))]
    pub fn read(self, alloc: Global, form: HeadForm, line: &[u8]) -> Result<HeadStep, LineError>
        ensures { Gives (λ step. step) result (head_at form self (tokens_of line.now)) }
    {
        match self {
            Head::Title => {
                let place = titled(line, form)?;
                Ok(HeadStep::Next(Head::after_title(place)))
            }
            Head::Wire => {
                let wire = numbered(line, b"wire", 1, 2)? as u8;
                Ok(HeadStep::Next(Head::Clients(Formats { text: 2, wire })))
            }
            Head::Clients(formats) => {
                let clients = numbered(line, b"clients", 2, u64::from(form.clients))? as u8;
                Ok(HeadStep::Next(Head::Key(formats, clients)))
            }
            Head::Key(formats, clients) => {
                let key = keyed(alloc, line)?;
                Ok(HeadStep::Next(Head::Delta(formats, clients, key)))
            }
            Head::Delta(formats, clients, key) => {
                let delta = numbered(line, b"delta", 1, MAX_TIMESTAMP)?;
                Ok(HeadStep::Next(Head::Dummy(formats, clients, key, delta)))
            }
            Head::Dummy(formats, clients, key, delta) => {
                let dummy = numbered(line, b"dummy", 1, MAX_TIMESTAMP)?;
                Ok(whole(formats, clients, key, delta, dummy))
            }
        }
    }

    fn after_title(place: u8) -> Head
        ensures { result ≡ after_title place }
    {
        match place {
            0 => Head::Clients(Formats { text: 1, wire: 1 }),
            _ => Head::Wire,
        }
    }
}

fn whole(formats: Formats, clients: u8, key: Bytes, delta: u64, dummy: u64) -> HeadStep
    ensures { result ≡ HeadStep.Whole formats.text (config_of formats clients key delta dummy) }
{
    HeadStep::Whole {
        format: formats.text,
        config: Config {
            clients,
            key,
            delta,
            dummy,
            wire: formats.wire,
        },
    }
}

fn titled(line: &[u8], form: HeadForm) -> Result<u8, LineError>
    ensures { Gives (λ place. (tt, (place, tt))) result (fields_at (title_form form) (tokens_of line.now)) }
{
    let mut cursor = Cursor::new(line);
    cursor.word(form.title.word())?;
    let place = format_place(&mut cursor, form.formats)?;
    cursor.end()?;
    Ok(place)
}

/// 0 for format 1 and 1 for format 2.
#[tactic(auto, unfolding(crate::specs::Fields::field_at))]
fn format_place(cursor: &mut Cursor, formats: u8) -> Result<u8, LineError>
    ensures { Gives (λ place. (place, cursor.new)) result (next_field (one_of (format_words formats)) cursor.old) }
{
    match cursor.token() {
        Some(token) if token == b"1".as_slice() => Ok(0),
        Some(token) if formats >= 2 && token == b"2".as_slice() => Ok(1),
        _ => Err(LineError::Refused(Cause::Word)),
    }
}

fn numbered(line: &[u8], name: &[u8], low: u64, high: u64) -> Result<u64, LineError>
    ensures gives { Gives (λ x. (tt, (x, tt))) result (fields_at (word name.now ∷ number low high ∷ []) (tokens_of line.now)) }
    ensures high { IfOk result (λ x. x ≤ high) }
{
    let mut cursor = Cursor::new(line);
    cursor.word(name)?;
    let number = cursor.number(low, high)?;
    cursor.end()?;
    Ok(number)
}

fn keyed(alloc: Global, line: &[u8]) -> Result<Bytes, LineError>
    ensures { Gives (λ x. (tt, (x, tt))) result (fields_at key_form (tokens_of line.now)) }
{
    let mut cursor = Cursor::new(line);
    cursor.word(b"key")?;
    let key = cursor.key(alloc)?;
    cursor.end()?;
    Ok(key)
}
