use faust_types::OutOfMemory;
use std::alloc::Global;
use std::sync::atomic::Ordering::SeqCst;
use std::sync::atomic::{AtomicBool, AtomicU64};
use std::sync::{Mutex, Wait};

/// The frame with this number, counted from 1, that goes to or from a client.
#[derive(Clone, Copy, Debug, PartialEq, Eq)]
pub struct Place {
    pub client: u8,
    pub to_server: bool,
    pub call: usize,
}

/// What the ends of all streams of a net share: which frames it changes, whether the clients are to meet, and
/// how many of them have sent two frames.
#[derive(Drop)]
pub struct Lines {
    flips: Mutex<Vec<Place>>,
    is_meeting: AtomicBool,
    ready: AtomicU64,
    clients: u64,
}

impl Lines {
    pub fn new(alloc: Global, clients: u8) -> Lines {
        Lines {
            flips: Mutex::new(Vec::new(alloc)),
            is_meeting: AtomicBool::new(false),
            ready: AtomicU64::new(0),
            clients: u64::from(clients),
        }
    }

    /// Has the net change the frame at this place.
    pub fn flip<R: Wait>(&self, rt: &R, place: Place) -> Result<(), OutOfMemory> {
        self.flips.lock(rt).push(place)?;
        Ok(())
    }

    pub fn is_flipped<R: Wait>(&self, rt: &R, place: Place) -> bool {
        self.flips.lock(rt).contains(&place)
    }

    /// Has the clients meet.
    pub fn meet(&self) {
        self.is_meeting.store(true, SeqCst);
    }

    pub fn is_meeting(&self) -> bool {
        self.is_meeting.load(SeqCst)
    }

    /// Counts a client that has sent two frames.
    pub fn count_ready(&self) {
        self.ready.fetch_add(1, SeqCst);
    }

    /// Whether every client has sent two frames.
    pub fn have_met(&self) -> bool {
        self.ready.load(SeqCst) >= self.clients
    }
}
