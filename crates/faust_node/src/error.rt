use faust_types::{Closing, Notice};
use std::error::Error;
use std::fmt;

/// Why a user gets no receipt: the first of these that holds. The value has more than 4,096 bytes; the register isn't
/// that of one of the clients; the client has this notice; the cell is closed, with this cause; the journal has 200,000
/// entries; there was no memory left.
#[derive(Clone, Copy, Debug, PartialEq, Eq)]
pub enum NodeError {
    TooLong,
    NoRegister,
    Failed(Notice),
    Closed(Closing),
    Full,
    OutOfMemory,
}

impl fmt::Display for NodeError {
    fn fmt<W: fmt::Write>(&self, f: &mut fmt::Formatter<W>) -> fmt::Result {
        f.write_str(match self {
            NodeError::TooLong => "the value is too long",
            NodeError::NoRegister => "there is no such register",
            NodeError::Failed(_) => "the client holds a notice",
            NodeError::Closed(_) => "the node is closed",
            NodeError::Full => "the journal is full",
            NodeError::OutOfMemory => "out of memory",
        })
    }
}

impl Error for NodeError {}
