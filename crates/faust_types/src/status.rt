/// How a run of the program ended. The numbers from 0 on, in this order, are the exit statuses.
#[derive(Clone, Copy, Debug, PartialEq, Eq)]
pub enum Status {
    /// The whole text was written.
    Done,
    /// The words are no form of the program; the usage line was written.
    Usage,
    /// The input was refused; the place and the cause were written.
    Refused,
    /// A read of the source failed; nothing was written.
    ReadFault,
    /// A write to the sink failed; a prefix of the text was written.
    WriteFault,
    /// There was no memory; nothing was written.
    OutOfMemory,
    /// The run has a forged tag or a collision; the premise line was written.
    Premise,
}
