//! Sources and sinks that may have to wait.
use http_types::{Sink, Source};

/// A source that may have nothing to give just now, and that knows the time.
pub trait TimedSource: Source {
    /// Whether the last read failed only because nothing came in time.
    fn is_not_now(&self) -> bool;

    /// How many milliseconds a read waits from now on; 0 is not at all.
    fn wait_at_most(&self, milliseconds: u64);

    /// The moment in milliseconds after the start of 1970, where it is known.
    fn moment(&self) -> Option<u64>;

    /// The milliseconds since some start, where they are known.
    fn uptime(&self) -> Option<u64>;
}

/// A sink that may take nothing just now.
pub trait TimedSink: Sink {
    /// Whether the last write failed only because nothing was taken in time.
    fn is_not_now(&self) -> bool;
}
