ghost use Rattle.std.specs.Prelude.{◌≡◌, ◌≤◌, length};
ghost use Rattle.faust_text.specs.Fields.{Gives};
ghost use Rattle.faust_text.specs.Lines.{line_in};
ghost use Rattle.faust_script.specs.Parsing.{stage_at, start, text_at};

use crate::line::read_event;
use crate::script::{MAX_EVENTS, Script};
use faust_text::{Cause, Head, HeadForm, HeadStep, Line, LineError, Title, whole_line};
use faust_types::{MAX_CLIENTS, Sequence};
use std::alloc::Global;

/// Scripts are of format 1 or 2, for at most 32 clients.
const SCRIPT_HEAD: HeadForm = HeadForm {
    title: Title::Script,
    formats: 2,
    clients: MAX_CLIENTS,
};

/// How much of a script was read.
#[derive(Debug, Drop)]
pub enum Stage {
    /// A part of the head.
    Head(Head),
    /// The head and these events: an event or `end` is due.
    Events(Script),
    /// The whole script: nothing may follow.
    Ended(Script),
}

impl Stage {
    /// Nothing was read: the first line of the head is due.
    pub fn start() -> Stage
        ensures { result ≡ start }
    {
        Stage::Head(Head::Title)
    }

    /// Reads the next line of the input. It is refused where it is too long, and else where it is cut off, and else
    /// as its text is.
    #[tactic(auto, unfolding(crate::specs::Parsing::stage_at))]
    pub fn next(self, alloc: Global, input: &[u8], line: Line) -> Result<Stage, LineError>
        requires start { line.span.start ≤ line.span.end }
        requires end { line.span.end ≤ length input.now }
        ensures { Gives (λ stage. stage) result (stage_at self (line_in input.now line)) }
    {
        match whole_line(input, line) {
            Ok(text) => self.read(alloc, text),
            Err(cause) => Err(LineError::Refused(cause)),
        }
    }

    /// Reads the text of the next line. A refused line has the cause of the grammar: nothing may follow `end`, there
    /// are at most 20,000 events, and then the first token that may not stand there gives it.
    #[tactic(auto, unfolding(crate::specs::Parsing::text_at))]
    pub fn read(self, alloc: Global, text: &[u8]) -> Result<Stage, LineError>
        ensures { Gives (λ stage. stage) result (text_at self text.now) }
    {
        match self {
            Stage::Head(head) => match head.read(alloc, SCRIPT_HEAD, text)? {
                HeadStep::Next(head) => Ok(Stage::Head(head)),
                HeadStep::Whole { format, config } => Ok(Stage::Events(Script {
                    format,
                    config,
                    events: Sequence::new(alloc),
                })),
            },
            Stage::Events(script) => item(alloc, script, text),
            Stage::Ended(_) => Err(LineError::Refused(Cause::AfterEnd)),
        }
    }
}

#[tactic(auto, unfolding(crate::specs::Parsing::text_at))]
fn item(alloc: Global, script: Script, text: &[u8]) -> Result<Stage, LineError>
    ensures { Gives (λ stage. stage) result (text_at (Stage.Events script) text.now) }
{
    if text == b"end".as_slice() {
        return Ok(Stage::Ended(script));
    }
    if script.events.len() >= MAX_EVENTS {
        return Err(LineError::Refused(Cause::Events));
    }
    let event = read_event(alloc, text, script.config.clients)?;
    let mut script = script;
    script.events.push(event)?;
    Ok(Stage::Events(script))
}
