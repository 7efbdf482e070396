use faust_text::Cause;
use thiserror::Error;

/// Why bytes give no record.
#[derive(Clone, Copy, Debug, PartialEq, Eq, Error)]
pub enum StoreError {
    /// The first line that is refused, counted from 1, and why.
    #[error("line {line}: {cause}")]
    BadRecord { line: u64, cause: Cause },
    /// The allocator had no memory left.
    #[error("out of memory")]
    OutOfMemory,
}
