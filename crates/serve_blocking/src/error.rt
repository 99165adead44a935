//! Why a request wasn't answered, or a connection not served to its end.
ghost use Rattle.std.specs.Prelude.{◌≡◌};
ghost use Rattle.serve_blocking.specs.declared.error.HandleError.TheVariants as handle_error;

use http_types::NoMemory;
use thiserror::Error;

/// Why a request wasn't answered, or a connection not served to its end.
#[derive(Clone, Copy, Debug, PartialEq, Eq, Error)]
pub enum HandleError {
    /// A read or a write failed: there is no connection any more.
    #[error("the connection is lost")]
    Lost,

    /// No byte moved for too long.
    #[error("the peer neither sends nor takes anything")]
    Stalled,

    /// The request's body breaks the grammar of chunks; or the input, or the connection, ends before the body does. An
    /// answer that is complete ends the connection too, where the body wasn't read to its end.
    #[error("the request's body is broken")]
    BrokenBody,

    /// A part of an answer came where none may come, as a second answer to one request.
    #[error("a part of the answer is misplaced")]
    Misplaced,

    /// Memory ran out.
    #[error("out of memory")]
    NoMemory,

    /// The handler can't answer, for a reason of its own.
    #[error("the handler has failed")]
    Failed,
}

impl From<NoMemory> for HandleError {
    ghost from_gives = { λ _ error. error ≡ handle_error.NoMemory };

    fn from(_error: NoMemory) -> HandleError {
        HandleError::NoMemory
    }
}
