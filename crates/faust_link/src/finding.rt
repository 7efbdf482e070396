ghost use Rattle.std.specs.Prelude.{◌≡◌, ◌↔◌, ◌<◌, ◌≤◌, length, take, drop, IsTrue, IfOk, OnErr};
ghost use Rattle.std.specs.Int.{from_be_bytes, to_be_bytes, w32};
ghost use Rattle.std.specs.Io.KnownBytes.{Consumes, IsAtEnd};
ghost use Rattle.faust_io.specs.Faults.{Counts};
ghost use Rattle.faust_io.specs.Reading.{Reads};
ghost use Rattle.faust_link.specs.Finding.{Finds};
ghost use Rattle.faust_link.specs.Frames.{IsFrameLength};
ghost use Rattle.faust_link.specs.Links.{GoesOnTelling};

use faust_io::{Failed, Source};

/// The most bytes of a frame.
pub const MAX_FRAME: usize = 16_384;

/// What stands next in a stream.
#[derive(Debug, Drop)]
pub enum Next {
    /// A frame of so many bytes, which stands at the front of the buffer.
    Frame(usize),
    /// The end, between two frames.
    End,
    /// No frame: the stream ends within one, or its length is out of range.
    Broken,
}

/// Takes the next frame from the source.
pub fn next_frame<S: Source>(source: &mut S, buffer: &mut [u8]) -> Result<Next, Failed>
    requires { length buffer.old ≡ MAX_FRAME }
    ensures count { Counts result (S.faults source.old) (S.faults source.new) }
    ensures finds { Finds (S.left source.old) (S.left source.new) buffer.new result }
{
    let mut spelled = [0; 4];
    let given = read_full(source, &mut spelled)?;
    if given == 0 {
        return Ok(Next::End);
    }
    if given < spelled.len() {
        return Ok(Next::Broken);
    }
    let len = length_of(&spelled);
    if !is_frame_len(len) {
        return Ok(Next::Broken);
    }
    let given = read_full(source, &mut buffer[..len])?;
    if given < len {
        return Ok(Next::Broken);
    }
    Ok(Next::Frame(len))
}

/// The length that four bytes spell.
fn length_of(spelled: &[u8; 4]) -> usize
    ensures read { result ≡ from_be_bytes w32 spelled.now }
    ensures spelled { to_be_bytes w32 result ≡ spelled.now }
{
    u32::from_be_bytes(*spelled) as usize
}

/// Whether a frame may have so many bytes.
fn is_frame_len(len: usize) -> bool
    ensures { IsTrue result ↔ IsFrameLength len }
{
    1 <= len && len <= MAX_FRAME
}

/// Reads until the buffer is full or the source is at its end, and answers how many bytes it read.
fn read_full<S: Source>(source: &mut S, buffer: &mut [u8]) -> Result<usize, Failed>
    ensures count { Counts result (S.faults source.old) (S.faults source.new) }
    ensures within { IfOk result (λ given. given ≤ length buffer.new) }
    ensures bytes { IfOk result (λ given. Consumes (S.left source.old) (S.left source.new) (take given buffer.new)) }
    ensures at_end { IfOk result (λ given. given < length buffer.new → IsAtEnd (S.left source.new)) }
    ensures telling { OnErr result (GoesOnTelling (S.left source.old) (S.left source.new)) }
{
    let mut filled = 0;
    while filled < buffer.len() {
        let given = read_behind(source, buffer, filled)?;
        if given == 0 {
            return Ok(filled);
        }
        filled += given;
    }
    Ok(filled)
}

/// One read, into the buffer behind its filled front.
fn read_behind<S: Source>(source: &mut S, buffer: &mut [u8], filled: usize) -> Result<usize, Failed>
    requires { filled < length buffer.old }
    ensures count { Counts result (S.faults source.old) (S.faults source.new) }
    ensures bytes { Reads (S.left source.old) (S.left source.new) (drop filled buffer.new) result }
    ensures front { take filled buffer.new ≡ take filled buffer.old }
{
    source.read(&mut buffer[filled..])
}
