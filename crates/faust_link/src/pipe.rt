use crate::parcel::Parcel;
use faust_types::OutOfMemory;
use std::alloc::Global;
use std::collections::VecDeque;
use std::sync::{Condvar, Mutex, Wait};

/// What a look into a pipe finds.
#[derive(Debug, Drop)]
pub enum Look {
    Frame(Parcel),
    Ended,
    Nothing,
}

/// The frames that are under way, in order, and whether the stream is closed behind them.
#[derive(Debug, Drop)]
struct Queue {
    frames: VecDeque<Parcel>,
    is_closed: bool,
}

impl Queue {
    /// Takes the next frame where frames may go out, or says that the stream ended.
    fn look(&mut self, may_go_out: bool) -> Look {
        if self.frames.is_empty() {
            return if self.is_closed {
                Look::Ended
            } else {
                Look::Nothing
            };
        }
        if !may_go_out {
            return Look::Nothing;
        }
        match self.frames.pop_front() {
            Some(parcel) => Look::Frame(parcel),
            None => Look::Nothing,
        }
    }
}

/// One direction of a stream, shared by the end that sends and the end that receives.
#[derive(Drop)]
pub struct Pipe {
    queue: Mutex<Queue>,
    changed: Condvar,
}

impl Pipe {
    pub fn new(alloc: Global) -> Pipe {
        Pipe {
            queue: Mutex::new(Queue {
                frames: VecDeque::new(alloc),
                is_closed: false,
            }),
            changed: Condvar::new(),
        }
    }

    /// Puts a frame behind those that are under way.
    pub fn put<R: Wait>(&self, rt: &R, parcel: Parcel) -> Result<(), OutOfMemory> {
        self.queue.lock(rt).frames.push_back(parcel)?;
        self.changed.notify_all();
        Ok(())
    }

    /// Closes the stream behind the frames that are under way.
    pub fn close<R: Wait>(&self, rt: &R) {
        self.queue.lock(rt).is_closed = true;
        self.changed.notify_all();
    }

    /// Takes the next frame, if one is there now and frames may go out.
    pub fn look<R: Wait>(&self, rt: &R, may_go_out: bool) -> Look {
        self.queue.lock(rt).look(may_go_out)
    }

    /// Waits for the next frame, or for the end of the stream.
    pub fn wait<R: Wait>(&self, rt: &R) -> Look {
        let mut queue = self.changed.wait_while(rt, self.queue.lock(rt), |queue| {
            queue.frames.is_empty() && !queue.is_closed
        });
        queue.look(true)
    }
}
