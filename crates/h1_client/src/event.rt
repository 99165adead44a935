//! What a client's side of a connection answers.
use crate::{AnswerFault, ResponseItem};

/// Why a connection ends.
#[derive(Clone, Copy, Debug, PartialEq, Eq)]
pub enum ClientEnd {
    /// An answer's head is refused.
    BadAnswer,

    /// An answer's head has more bytes than may be held, or more lines than are read.
    LargeAnswer,

    /// An answer's body is broken, or the input has ended inside it.
    BrokenAnswer,

    /// A request's body failed, or was ended before all bytes of its stated length were handed in.
    FailedRequest,

    /// After its last answer nothing may follow: a side asked for that, or for another protocol, or other readers would
    /// frame the answer in another way.
    Asked,

    /// Bytes came that no request asked for.
    Unasked,

    /// The input has ended, and no whole head is coming.
    InputEnded,
}

/// What comes where the next answer is asked for.
#[derive(Debug, Drop)]
pub enum NextAnswer {
    /// The head of an answer. One of status 1xx but 101 is interim: its request waits on, and no body follows. Any other is
    /// the answer to the request that has waited longest, and its body is to be pulled or dropped (RFC 7231, section 6.2).
    Answer(ResponseItem),

    /// The next head is refused. The connection closes.
    Fault(AnswerFault),

    /// There is no whole head before more bytes are read.
    Pending,

    /// The connection has ended, for this reason. No event is allowed any more.
    Closed(ClientEnd),
}
