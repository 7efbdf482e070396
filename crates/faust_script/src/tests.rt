use crate::error::ScriptError;
use crate::parser::parse;
use faust_text::Cause;
use faust_types::{Bytes, OutOfMemory};
use std::process::Abort;

mod accepted;
mod generated;
mod limits;
mod places;
mod refused;

const HEAD: &[u8] = b"faust 1\nclients 2\nkey 00\ndelta 1\ndummy 1\n";

/// Whether the script of these pieces is refused at that line for that cause.
fn is_refused(
    rt: &(impl Abort + AllocGlobal),
    pieces: &[&[u8]],
    line: u64,
    cause: Cause,
) -> Result<bool, OutOfMemory> {
    let mut text: Bytes = Bytes::new(rt.alloc());
    for piece in pieces {
        text.append(piece)?;
    }
    let refused = parse(rt.alloc(), text.as_slice()).err();
    Ok(refused == Some(ScriptError::BadLine { line, cause }))
}
