ghost use Rattle.std.specs.Prelude.{map, string_bytes};
ghost use Rattle.faust_top.specs.Answer.{IsAnswer};
ghost use Rattle.faust_top.specs.Output.{EndsWriting};

use crate::input::answer_to;
use crate::words::Command;
use faust_io::{ReadError, Sink, Source, write_whole};
use faust_types::Status;
use faust_verdict::usage_line;
use std::alloc::Global;

const TOO_LONG: &[u8] = b"refused: line 0: input\n";

/// Does what the words say, from the bytes of the source to a text in the sink. `Usage` comes exactly for words that are
/// no form, `Refused` exactly where the input is too long or a line of it is refused, `Premise` exactly where the run
/// isn't clean and the command looks, and `ReadFault` and `WriteFault` only where the count of faults rose.
pub fn run<S: Source, K: Sink>(
    alloc: Global,
    words: &[String],
    source: &mut S,
    sink: &mut K,
) -> Status
    ensures { IsAnswer (map string_bytes words.now) (record {
      left_before = S.left source.old;
      left_after = S.left source.new;
      reads_failed_before = S.faults source.old;
      reads_failed_after = S.faults source.new;
      held_before = K.held sink.old;
      held_after = K.held sink.new;
      writes_failed_before = K.faults sink.old;
      writes_failed_after = K.faults sink.new;
    }) result }
{
    let Some(command) = Command::of(words) else {
        return written(sink, usage_line(), Status::Usage);
    };
    match answer_to(alloc, source, command) {
        Ok(output) => written(sink, output.text.as_slice(), output.status),
        Err(ReadError::TooLong) => written(sink, TOO_LONG, Status::Refused),
        Err(ReadError::Failed) => Status::ReadFault,
        Err(ReadError::OutOfMemory) => Status::OutOfMemory,
    }
}

/// Writes the text of a status, and answers that status, or `WriteFault` where a write failed.
fn written<K: Sink>(sink: &mut K, text: &[u8], status: Status) -> Status
    ensures { EndsWriting status text.now (K.held sink.old) (K.held sink.new) (K.faults sink.old) (K.faults sink.new) result }
{
    match write_whole(sink, text) {
        Ok(()) => status,
        Err(_) => Status::WriteFault,
    }
}
