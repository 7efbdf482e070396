ghost use Rattle.std.specs.Prelude.{◌≡◌};
ghost use Rattle.faust_script.specs.declared.error.ScriptError.TheVariants.{OutOfMemory as NoMemory};

use faust_text::Cause;
use faust_types::OutOfMemory;
use thiserror::Error;

/// Why bytes give no script.
#[derive(Clone, Copy, Debug, PartialEq, Eq, Error)]
pub enum ScriptError {
    /// The first line that the grammar refuses, counted from 1, and why.
    #[error("line {line}: {cause}")]
    BadLine { line: u64, cause: Cause },
    /// The allocator had no memory left.
    #[error("out of memory")]
    OutOfMemory,
}
