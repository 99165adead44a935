//! Why a dispatcher ends.
use thiserror::Error;
use ws_frames::ProtocolError;

/// Why a dispatcher ends.
#[derive(Debug, Drop, Error)]
pub enum DispatcherError<E> {
    /// The service failed, or an error was queued.
    #[error("the service failed")]
    Service(E),

    /// A message could not be written: the codec refuses it, the transport failed, or there was no memory.
    #[error("a message could not be written")]
    Encoder(ProtocolError),

    /// No item could be read: the codec refuses the bytes, the transport failed, or there was no memory.
    #[error("no item could be read")]
    Decoder(ProtocolError),
}
