use crate::event::Event;
use faust_types::{Config, Sequence};

/// The most events of a script.
pub const MAX_EVENTS: usize = 20_000;

/// Events in their order.
pub type Events = Sequence<Event>;

/// What is played: a config, and events in their order. The format is the number of the first line: 1, which means
/// wire 1, or 2, whose head names the wire's version.
#[derive(Debug, Drop)]
pub struct Script {
    pub format: u8,
    pub config: Config,
    pub events: Events,
}
