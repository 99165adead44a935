//! Why a URL wasn't fetched.
ghost use Rattle.std.specs.Prelude.{◌≡◌, ◌<◌};
ghost use Rattle.app_get.specs.Fetching.{error_status};
ghost use Rattle.app_get.specs.declared.error.GetError.TheVariants as get_error;

use http_types::NoMemory;
use thiserror::Error;

/// Why a URL wasn't fetched.
#[derive(Clone, Copy, Debug, PartialEq, Eq, Error)]
pub enum GetError {
    /// The output can't be written.
    #[error("the output can't be written")]
    Output,

    /// The text is no URL.
    #[error("this is no URL")]
    Url,

    /// A URL that names a user.
    #[error("a URL that names a user isn't taken")]
    User,

    /// A URL of another scheme.
    #[error("only http:// can be asked for")]
    Scheme,

    /// There is no file of this name.
    #[error("there is no such file")]
    NoFile,

    /// The file is a folder.
    #[error("this is a folder, and no file")]
    Folder,

    /// The file can't be opened or read.
    #[error("the file can't be read")]
    File,

    /// The file has fewer bytes than it had at first.
    #[error("the file became shorter while it was sent")]
    ShortFile,

    /// The host's name isn't known.
    #[error("there is no such host")]
    Host,

    /// Nobody listens there.
    #[error("the server refuses the connection")]
    Refused,

    /// No connection can be made, for another reason.
    #[error("the server can't be reached")]
    Unreachable,

    /// Memory ran out.
    #[error("no memory is left")]
    NoMemory,

    /// The connection ended before a byte of an answer came.
    #[error("the server closed the connection and didn't answer")]
    Unanswered,

    /// The connection ended after an answer began, and not where it may end.
    #[error("the connection broke off before the answer was whole")]
    Lost,

    /// The head of the answer is refused.
    #[error("what the server sent is no answer of HTTP/1")]
    BadHead,

    /// The head of the answer is too long.
    #[error("the answer's head is too long")]
    LongHead,

    /// The body of the answer breaks the grammar of chunks.
    #[error("the chunks of the answer's body are malformed")]
    BadChunks,

    /// The server goes on to a protocol that wasn't asked for.
    #[error("the server goes on to another protocol, for which nobody asked")]
    Protocol,

    /// An answer of this status isn't wanted.
    #[error("an answer of this status isn't wanted")]
    Unwanted,

    /// A redirect that names no URL.
    #[error("the server redirects to what is no URL")]
    Location,

    /// A redirect to a URL that isn't taken.
    #[error("the server redirects to a URL that can't be asked for, such as https://")]
    Elsewhere,

    /// More redirects than are followed.
    #[error("the server redirects more than ten times")]
    Redirects,

    /// The request can't be sent.
    #[error("such a request can't be sent")]
    Request,

    /// Nothing moved for too long.
    #[error("the server takes too long")]
    Late,
}

impl GetError {
    /// The status that the program ends with: never 0.
    pub fn status(&self) -> u8
        ensures value { result ≡ error_status self.now }
        ensures fails { 0 < result }
    {
        match self {
            GetError::Output => 1,
            GetError::Url | GetError::User | GetError::Scheme => 2,
            GetError::NoFile | GetError::Folder | GetError::File | GetError::ShortFile => 3,
            GetError::Host | GetError::Refused | GetError::Unreachable => 4,
            GetError::NoMemory => 5,
            GetError::Unanswered | GetError::Lost | GetError::BadHead | GetError::LongHead => 6,
            GetError::BadChunks | GetError::Protocol => 6,
            GetError::Location | GetError::Elsewhere | GetError::Redirects => 6,
            GetError::Late => 7,
            GetError::Unwanted => 22,
            GetError::Request => 64,
        }
    }

    /// Whether it tells of the file that is sent.
    pub fn is_of_file(&self) -> bool {
        matches!(
            self,
            GetError::NoFile | GetError::Folder | GetError::File | GetError::ShortFile
        )
    }
}

impl From<NoMemory> for GetError {
    ghost from_gives = { λ _ error. error ≡ get_error.NoMemory };

    fn from(_error: NoMemory) -> GetError {
        GetError::NoMemory
    }
}
