// How a connection prints itself.
use crate::connection::Connection;
use std::fmt;

// How much is held, and how it stands: no byte of what it holds.
impl fmt::Debug for Connection {
    fn fmt<W: fmt::Write>(&self, f: &mut fmt::Formatter<W>) -> fmt::Result {
        f.debug_struct("Connection")
            .field("held", &self.held())
            .field("buffered", &self.buffered())
            .field("is_open", &self.parts.is_open())
            .field("has_ended", &self.parts.has_ended)
            .field("is_draining", &self.parts.is_draining)
            .field("closing", &self.closing())
            .field("is_over", &self.parts.is_over)
            .finish_non_exhaustive()
    }
}
