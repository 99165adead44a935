//! Where connections come from.
ghost use Rattle.http_transport.specs.Opening.{Opening, OpenSays, Accepts};

use crate::Transport;
use http_config::Failed;

/// Where connections come from.
pub trait Acceptor: Drop {
    /// A connection.
    type Conn: Transport + Send;

    /// How often it failed, how many connections it gave, and that it answered that none follows.
    ghost opening: { Self → Opening };

    /// Listens at this port from now on.
    fn open(&mut self, port: u16) -> Result<(), Failed>
        ensures says { OpenSays (opening self.old) (opening self.new) result };

    /// The next connection, or none, where none follows. Over a new one no byte was received or sent, and its input
    /// hasn't ended, nor was it shut down.
    fn accept(&mut self) -> Result<Option<Self::Conn>, Failed>
        ensures says { Accepts Self.Conn.wiring (opening self.old) (opening self.new) result };
}
