// The lines that stand in place of a report: where a run isn't clean, and where the words are no form of a program.
ghost use Rattle.std.specs.Prelude.{◌≡◌, IfOk};
ghost use Rattle.faust_verdict.specs.Texts.{collision_text, forged_text, usage_text};

use faust_text::{put_hex, put_number};
use faust_types::{Bytes, OutOfMemory};
use std::alloc::Global;

/// The line of a forged tag: the entry that showed it, and the body that it is over.
pub fn forged_line(alloc: Global, entry: u64, body: &[u8]) -> Result<Bytes, OutOfMemory>
    ensures { IfOk result (λ text. text ≡ forged_text entry body.now) }
{
    let mut text = Bytes::from_slice(alloc, b"forged: entry ")?;
    put_number(&mut text, entry)?;
    text.append(b" body ")?;
    put_hex(&mut text, body)?;
    text.push(b'\n')?;
    Ok(text)
}

/// The line of two inputs that have one digest.
pub fn collision_line(alloc: Global, first: &[u8], second: &[u8]) -> Result<Bytes, OutOfMemory>
    ensures { IfOk result (λ text. text ≡ collision_text first.now second.now) }
{
    let mut text = Bytes::from_slice(alloc, b"collision: ")?;
    put_hex(&mut text, first)?;
    text.push(b' ')?;
    put_hex(&mut text, second)?;
    text.push(b'\n')?;
    Ok(text)
}

/// The line of words that are no form of a program.
pub fn usage_line() -> &'static [u8]
    ensures { result.now ≡ usage_text }
{
    b"usage: faust script | record | audit | json | migrate | sample SEED CLIENTS OPS | live CLIENTS OPS KEY short | live CLIENTS OPS KEY full\n"
}
