// The line that stands in place of a report where the input is refused.
ghost use Rattle.std.specs.Prelude.{◌≡◌, IfOk};
ghost use Rattle.faust_top.specs.Texts.{refusal_text};

use faust_text::put_number;
use faust_types::{Bytes, OutOfMemory};
use std::alloc::Global;

/// The line of a refused line of the input, and why it is refused.
pub fn refusal_line(alloc: Global, line: u64, cause: &[u8]) -> Result<Bytes, OutOfMemory>
    ensures { IfOk result (λ text. text ≡ refusal_text line cause.now) }
{
    let mut text = Bytes::from_slice(alloc, b"refused: line ")?;
    put_number(&mut text, line)?;
    text.append(b": ")?;
    text.append(cause)?;
    text.push(b'\n')?;
    Ok(text)
}
