ghost use Rattle.std.specs.Prelude.{◌≡◌};
ghost use Rattle.faust_store.specs.Words.{entry_word, word_text};

/// The word of an entry's line, behind its number.
#[derive(Clone, Copy, Debug, PartialEq, Eq)]
pub enum EntryWord {
    Begin,
    Arrive,
    Reply,
    Peer,
    Tick,
}

const ENTRY_WORDS: [EntryWord; 5] = [
    EntryWord::Begin,
    EntryWord::Arrive,
    EntryWord::Reply,
    EntryWord::Peer,
    EntryWord::Tick,
];

impl EntryWord {
    /// The word that a token is.
    #[tactic(auto, unfolding(crate::specs::Words::entry_word))]
    pub fn of(token: &[u8]) -> Option<EntryWord>
        ensures { result ≡ entry_word token.now }
    {
        ENTRY_WORDS
            .iter()
            .copied()
            .find(|word| word.text() == token)
    }

    /// The word as it stands in a line.
    pub fn text(self) -> &'static [u8]
        ensures { result.now ≡ word_text self }
    {
        match self {
            EntryWord::Begin => b"begin",
            EntryWord::Arrive => b"arrive",
            EntryWord::Reply => b"reply",
            EntryWord::Peer => b"peer",
            EntryWord::Tick => b"tick",
        }
    }
}
