ghost use Rattle.std.specs.Prelude.{◌≡◌};
ghost use Rattle.faust_script.specs.Words.{edit_text, edit_word, event_text, event_word};

/// The first token of an event's line.
#[derive(Clone, Copy, Debug, PartialEq, Eq)]
pub enum EventWord {
    Write,
    Read,
    Arrive,
    Reply,
    Tick,
    Peer,
    Post,
    Branch,
    Route,
    Echo,
    Again,
    Edit,
    Forge,
    Raw,
}

/// The first token of an edit.
#[derive(Clone, Copy, Debug, PartialEq, Eq)]
pub enum EditWord {
    C,
    V,
    M,
    Ctag,
    Add,
    DropTuple,
    Swap,
    Ltag,
    Proof,
    Noproof,
    Jv,
    Jtag,
    T,
    Value,
    Dtag,
    Unread,
}

const EVENT_WORDS: [EventWord; 14] = [
    EventWord::Write,
    EventWord::Read,
    EventWord::Arrive,
    EventWord::Reply,
    EventWord::Tick,
    EventWord::Peer,
    EventWord::Post,
    EventWord::Branch,
    EventWord::Route,
    EventWord::Echo,
    EventWord::Again,
    EventWord::Edit,
    EventWord::Forge,
    EventWord::Raw,
];

const EDIT_WORDS: [EditWord; 16] = [
    EditWord::C,
    EditWord::V,
    EditWord::M,
    EditWord::Ctag,
    EditWord::Add,
    EditWord::DropTuple,
    EditWord::Swap,
    EditWord::Ltag,
    EditWord::Proof,
    EditWord::Noproof,
    EditWord::Jv,
    EditWord::Jtag,
    EditWord::T,
    EditWord::Value,
    EditWord::Dtag,
    EditWord::Unread,
];

impl EventWord {
    /// The word that a token is.
    #[tactic(auto, unfolding(crate::specs::Words::event_word))]
    pub fn of(token: &[u8]) -> Option<EventWord>
        ensures { result ≡ event_word token.now }
    {
        EVENT_WORDS
            .iter()
            .copied()
            .find(|word| word.text() == token)
    }

    fn text(self) -> &'static [u8]
        ensures { result.now ≡ event_text self }
    {
        match self {
            EventWord::Write => b"write",
            EventWord::Read => b"read",
            EventWord::Arrive => b"arrive",
            EventWord::Reply => b"reply",
            EventWord::Tick => b"tick",
            EventWord::Peer => b"peer",
            EventWord::Post => b"post",
            EventWord::Branch => b"branch",
            EventWord::Route => b"route",
            EventWord::Echo => b"echo",
            EventWord::Again => b"again",
            EventWord::Edit => b"edit",
            EventWord::Forge => b"forge",
            EventWord::Raw => b"raw",
        }
    }
}

impl EditWord {
    /// The word that a token is.
    #[tactic(auto, unfolding(crate::specs::Words::edit_word))]
    pub fn of(token: &[u8]) -> Option<EditWord>
        ensures { result ≡ edit_word token.now }
    {
        EDIT_WORDS.iter().copied().find(|word| word.text() == token)
    }

    fn text(self) -> &'static [u8]
        ensures { result.now ≡ edit_text self }
    {
        match self {
            EditWord::C => b"c",
            EditWord::V => b"v",
            EditWord::M => b"m",
            EditWord::Ctag => b"ctag",
            EditWord::Add => b"add",
            EditWord::DropTuple => b"drop",
            EditWord::Swap => b"swap",
            EditWord::Ltag => b"ltag",
            EditWord::Proof => b"proof",
            EditWord::Noproof => b"noproof",
            EditWord::Jv => b"jv",
            EditWord::Jtag => b"jtag",
            EditWord::T => b"t",
            EditWord::Value => b"value",
            EditWord::Dtag => b"dtag",
            EditWord::Unread => b"unread",
        }
    }
}
