ghost use Rattle.std.specs.Prelude.{◌≡◌};
ghost use Rattle.faust_text.specs.Causes.{cause_text};

use std::fmt;

/// Why a line is refused: by the grammar, up to `AfterEnd`, or in playing and reading entries.
#[derive(Clone, Copy, Debug, PartialEq, Eq)]
pub enum Cause {
    /// The line has more than 40,000 bytes.
    TooLong,
    /// The input ends without a line feed, or without its last line.
    CutOff,
    /// A token may not stand there, is missing, or is one too many.
    Word,
    /// A number is out of its range.
    Number,
    /// A value, bytes or a key break their spelling or their limit.
    Value,
    /// The line would be one event, or one entry, too many.
    Events,
    /// The line stands behind the last one.
    AfterEnd,
    /// The client has a notice of a broken check.
    Failed,
    /// The client has a pending operation.
    Busy,
    /// There is no such message or reply.
    Nothing,
    /// There is no such branch, or a new one isn't the next.
    Branch,
    /// The edit can't be made.
    Field,
    /// The number of an entry isn't the next one, or that of the last line isn't the number of entries.
    Order,
    /// The bytes that arrive aren't the next message that the client sent.
    Frame,
}

impl Cause {
    /// The words that a refusal prints.
    pub fn text(self) -> &'static str
        ensures { result.now ≡ cause_text self }
    {
        match self {
            Cause::TooLong => "too long",
            Cause::CutOff => "cut off",
            Cause::Word => "word",
            Cause::Number => "number",
            Cause::Value => "value",
            Cause::Events => "events",
            Cause::AfterEnd => "after end",
            Cause::Failed => "failed",
            Cause::Busy => "busy",
            Cause::Nothing => "nothing",
            Cause::Branch => "branch",
            Cause::Field => "field",
            Cause::Order => "order",
            Cause::Frame => "frame",
        }
    }
}

impl fmt::Display for Cause {
    fn fmt<W: fmt::Write>(&self, f: &mut fmt::Formatter<W>) -> fmt::Result {
        f.write_str(self.text())
    }
}
