ghost use Rattle.std.specs.Prelude.{◌≡◌, true, false, Err, OnOk, OnErr};
ghost use Rattle.std.specs.Io.KnownBytes.{Appends};
ghost use Rattle.faust_io.specs.Faults.{Counts, CountsFault};
ghost use Rattle.faust_io.specs.Writing.{AppendsPrefix};
ghost use Rattle.faust_link.specs.Counts.{CountsLink};
ghost use Rattle.faust_link.specs.Frames.{IsFrame, spelling_of};
ghost use Rattle.faust_link.specs.Links.{Sends};
ghost use Rattle.faust_link.specs.Views.{SendFails, new_writer};

use crate::answers::LinkError;
use crate::streams::FrameOut;
use faust_io::{Failed, Sink, write_whole};
use std::marker::Model;

/// A stream of frames whose bytes go into a sink. After a call that failed, and once it is closed, every `send`
/// fails and puts nothing into the sink. It takes no memory.
#[derive(Debug, Drop)]
pub struct FrameWriter<K> {
    sink: K,
    is_open: bool,
    faults: u64,
}

impl<K> Model for FrameWriter<K> {
    ghost use Rattle.faust_link.specs.Views.{WriterView};

    ghost Value = { WriterView K };

    ghost view = { λ writer. record { sink = writer.sink; is_open = writer.is_open; faults = writer.faults } };
}

impl<K: Sink> FrameWriter<K> {
    /// A stream into this sink.
    pub fn new(sink: K) -> FrameWriter<K>
        ensures { result ≡ new_writer sink }
    {
        FrameWriter {
            sink,
            is_open: true,
            faults: 0,
        }
    }

    /// What the stream goes into.
    pub fn sink(&self) -> &K
        ensures { result.now ≡ self.now.sink }
    {
        &self.sink
    }

    /// How many calls failed.
    pub fn faults(&self) -> u64
        ensures { result ≡ self.now.faults }
    {
        self.faults
    }

    /// Counts a call that failed, and shuts the stream.
    fn fail(&mut self) -> LinkError
        ensures answer { result ≡ LinkError.Failed }
        ensures sink { self.new.sink ≡ self.old.sink }
        ensures shut { self.new.is_open ≡ false }
        ensures count { CountsFault self.old.faults self.new.faults }
    {
        self.is_open = false;
        self.faults = self.faults.saturating_add(1);
        LinkError::Failed
    }
}

impl<K: Sink> FrameOut for FrameWriter<K> {
    ghost sent = { λ writer. K.held writer.sink };

    ghost faults = { λ writer. writer.faults };

    fn send(&mut self, frame: &[u8]) -> Result<(), LinkError>
        requires { IsFrame frame.now }
        ensures faults { CountsLink result self.old.faults self.new.faults }
        ensures bytes { Sends (K.held self.old.sink) (K.held self.new.sink) frame.now result }

        // Why it fails, and that a stream that was shut stays shut and puts nothing into its sink.
        ensures cause { OnErr result (SendFails self.old.is_open (K.faults self.old.sink) (K.faults self.new.sink)) }
        ensures shut { OnErr result (self.new.is_open ≡ false) }
        ensures open { OnOk result (self.new.is_open ≡ true) }
        ensures nothing { self.old.is_open ≡ false → (result ≡ Err LinkError.Failed) × (self.new.sink ≡ self.old.sink) }
    {
        if !self.is_open {
            return Err(self.fail());
        }
        match put_frame(&mut self.sink, frame) {
            Ok(()) => Ok(()),
            Err(_) => Err(self.fail()),
        }
    }

    fn close(&mut self)
        ensures faults { self.new.faults ≡ self.old.faults }
        ensures bytes { K.held self.new.sink ≡ K.held self.old.sink }
        ensures sink { self.new.sink ≡ self.old.sink }
        ensures shut { self.new.is_open ≡ false }
    {
        self.is_open = false;
    }
}

/// Puts the length of a frame and its bytes into the sink.
fn put_frame<K: Sink>(sink: &mut K, frame: &[u8]) -> Result<(), Failed>
    requires { IsFrame frame.now }
    ensures count { Counts result (K.faults sink.old) (K.faults sink.new) }
    ensures ok { OnOk result (Appends (K.held sink.old) (K.held sink.new) (spelling_of frame.now)) }
    ensures err { OnErr result (AppendsPrefix (K.held sink.old) (K.held sink.new) (spelling_of frame.now)) }
{
    let len = frame.len() as u32;
    write_whole(sink, &len.to_be_bytes())?;
    write_whole(sink, frame)
}
