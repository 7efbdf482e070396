/// What a host passes before it sends a reply, after it gave its lock back: other connections go on meanwhile.
pub trait Gate: Sync {
    /// Waits, or does nothing. The reply is for this client.
    fn pass(&self, client: u8);
}

/// The gate that holds nothing up.
#[derive(Clone, Copy, Debug)]
pub struct NoGate;

impl Gate for NoGate {
    fn pass(&self, _client: u8) {}
}
