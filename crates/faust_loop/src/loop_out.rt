ghost use Rattle.std.specs.Prelude.{◌≡◌, None};
ghost use Rattle.faust_io.specs.Faults.{CountsFault};
ghost use Rattle.faust_link.specs.Frames.{IsFrame};
ghost use Rattle.faust_link.specs.declared.answers.LinkError.TheVariants as errors;

use faust_io::{StdSink, write_whole};
use faust_link::{FrameOut, LinkError};
use faust_types::OutOfMemory;
use std::alloc::Global;
use std::net::{Shutdown, TcpStream};

/// The end of a TCP stream into which frames are sent, each with its length by one write. It tells nothing of them.
/// After a call that failed, and once it is closed, every `send` fails.
#[derive(Debug, Drop)]
pub struct LoopOut {
    stream: TcpStream,
    spelled: Vec<u8>,
    is_open: bool,
    faults: u64,
}

impl LoopOut {
    /// The end of this stream.
    pub(crate) fn new(alloc: Global, stream: TcpStream) -> LoopOut
        ensures { ⟦<LoopOut as FrameOut>⟧.faults result ≡ 0 }
    {
        LoopOut {
            stream,
            spelled: Vec::new(alloc),
            is_open: true,
            faults: 0,
        }
    }

    /// How many calls failed.
    pub fn faults(&self) -> u64
        ensures { result ≡ ⟦<LoopOut as FrameOut>⟧.faults self.now }
    {
        self.faults
    }

    /// Counts a call that failed, and shuts the stream.
    fn fail(&mut self) -> LinkError
        ensures answer { result ≡ errors.Failed }
        ensures count { CountsFault self.old.faults self.new.faults }
    {
        self.is_open = false;
        self.faults = self.faults.saturating_add(1);
        LinkError::Failed
    }

    /// Puts the length of a frame and its bytes in place of those of the frame before.
    fn spell(&mut self, frame: &[u8]) -> Result<(), OutOfMemory>
        requires { IsFrame frame.now }
        ensures { self.new.faults ≡ self.old.faults }
    {
        self.spelled.clear();
        self.spelled
            .extend_from_slice(&(frame.len() as u32).to_be_bytes())?;
        self.spelled.extend_from_slice(frame)?;
        Ok(())
    }
}

impl FrameOut for LoopOut {
    ghost sent = { λ _. None };

    ghost faults = { λ link. link.faults };

    fn send(&mut self, frame: &[u8]) -> Result<(), LinkError> {
        if !self.is_open {
            return Err(self.fail());
        }
        self.spell(frame)?;
        let mut sink = StdSink::new(&self.stream);
        match write_whole(&mut sink, self.spelled.as_slice()) {
            Ok(()) => Ok(()),
            Err(_) => Err(self.fail()),
        }
    }

    fn close(&mut self) {
        if self.is_open {
            self.is_open = false;
            // Where the other end is gone already, there is nothing left to end.
            let _ = self.stream.shutdown(Shutdown::Write);
        }
    }
}
