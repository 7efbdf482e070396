/// How a live run ended. The numbers are the exit statuses of the program.
#[derive(Clone, Copy, Debug, PartialEq, Eq)]
pub enum LiveStatus {
    /// The whole text was written.
    Done = 0,
    /// The words are no form of a live run; the usage line was written.
    Usage = 1,
    /// A write to the sink failed; a prefix of the text was written.
    WriteFault = 4,
    /// There was no memory; nothing was written.
    OutOfMemory = 5,
    /// The run has a forged tag or a collision; the premise line was written.
    Premise = 6,
    /// A start of a thread was refused; the line of that was written.
    StartFault = 7,
    /// A link failed, or a message arrived that its client hadn't sent next; the line of that was written.
    LinkFault = 8,
    /// A journal is of another client, or a user was told otherwise than the record has it; the line of that was written.
    Mismatch = 9,
}
