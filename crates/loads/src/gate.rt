//! What the workers of a load ask and report while they run.

/// Is called by the workers of a load, each from its own thread. What a load writes doesn't depend on it.
pub trait Gate {
    /// A stream begins, once this returns.
    fn at(&self, stream: u32);

    /// Whether a stream waits after each write until it is durable, and not only after each eighth. It reads after each
    /// eighth either way.
    fn waits_for_each(&self) -> bool {
        false
    }

    /// The first so many writes of a stream are durable.
    fn acknowledged(&self, _stream: u32, _writes: u32) {}
}
