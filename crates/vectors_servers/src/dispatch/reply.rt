//! What becomes of a request.
use http_types::StatusCode;

/// What becomes of a request.
#[derive(Clone, Copy, Debug, PartialEq, Eq)]
pub enum Kind {
    /// The call answers.
    Answers,

    /// The call answers an error.
    Errs,

    /// The service isn't ready for it, and says so by an error.
    Refuses,
}

/// What the service does with one request.
#[derive(Clone, Copy, Debug)]
pub struct Reply {
    /// What becomes of it.
    pub kind: Kind,

    /// The answer's status.
    pub status: StatusCode,

    /// Whether the answer closes the connection.
    pub closes: bool,

    /// The size that the answer's body states, if it states one.
    pub size: Option<u64>,

    /// Whether that body fails after its pieces.
    pub breaks: bool,

    /// How often the service is pending when it is asked whether it is ready.
    pub unready: usize,

    /// How often the call is pending, and wakes the task.
    pub busy: usize,

    /// How often it is pending before that, and wakes nobody.
    pub asleep: usize,

    /// How many chunks of its body the call takes before that, up to its end or a fault.
    pub reads: usize,

    /// Whether the call drops the queue of its body.
    pub drops: bool,
}

impl Reply {
    /// An answer with the status 200 and without a byte, at once.
    pub fn plain() -> Reply {
        Reply {
            kind: Kind::Answers,
            status: StatusCode::OK,
            closes: false,
            size: Some(0),
            breaks: false,
            unready: 0,
            busy: 0,
            asleep: 0,
            reads: 0,
            drops: false,
        }
    }
}
