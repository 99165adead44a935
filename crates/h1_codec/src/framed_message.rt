//! Messages, item by item.
use bytes::Bytes;

/// An item of a message.
#[derive(Debug, Drop)]
pub enum Message<T> {
    /// A head.
    Item(T),

    /// Bytes of the body, or its end.
    Chunk(Option<Bytes>),
}

/// What follows the head that was decoded last.
#[derive(Clone, Copy, Debug, PartialEq, Eq)]
pub enum MessageType {
    /// There is no body, or it has ended.
    None,

    /// A body that says where it ends.
    Payload,

    /// All that follows, and nothing else any more.
    Stream,
}
