//! What is kept of a head's lines while they are read: what they say of the body, and what they
//! ask of the connection (RFC 7230, sections 3.3.3 and 6.1).
ghost use Rattle.std.specs.Prelude.{◌≡◌, ◌++◌, ℕ, List, [], ◌∷◌, option_map};
ghost use Rattle.httparse.specs.Grammar.{trim_ows};
ghost use Rattle.http_types.specs.Flags.{no_flags};
ghost use Rattle.http_types.specs.RequestHead.{request_flags, HasRequestFlags};
ghost use Rattle.model_h1.specs.Request.{Header};
ghost use Rattle.h1_decoder.specs.Framing.{TellsLines, subject_of, stated, coded, kind_of_lines, kind_of_length, flags_by, answer_kind_of, kind_of_answer, answer_flags_by};
ghost use Rattle.model_client.specs.AnswerTable.{has_no_content, stated_body};
ghost use Rattle.http_framing.specs.Kinds.{kind_of};

use crate::value::{connection_type, content_length, is_word};
use http_framing::BodyKind;
use http_types::{ConnectionType, RequestHead, ResponseHead};

/// What the Content-Length lines state.
#[derive(Clone, Copy, Debug, PartialEq, Eq)]
pub(crate) enum Lengths {
    /// There is none.
    Absent,

    /// There is one, with this number of bytes.
    Length(u64),

    /// There are more, or there is one that spells no number.
    Refused,
}

/// What the Transfer-Encoding lines say.
#[derive(Clone, Copy, Debug, PartialEq, Eq)]
pub(crate) enum Codings {
    /// There is none.
    Absent,

    /// There is one, and it says `chunked`.
    Chunked,

    /// There is one, and it says `identity`, which an answer alone may.
    Identity,

    /// There are more, or there is one that says something else.
    Refused,
}

/// What a header line may be on, apart from all else.
#[derive(Clone, Copy, Debug, PartialEq, Eq)]
pub(crate) enum Subject {
    Length,
    Coding,
    Connection,
    Upgrade,
    Expect,
}

/// What the lines so far say.
#[derive(Clone, Copy, Debug, PartialEq, Eq)]
pub(crate) struct Framing {
    pub(crate) lengths: Lengths,
    pub(crate) codings: Codings,
    /// What the last Connection line names.
    pub(crate) connection: Option<ConnectionType>,
    /// Whether some Upgrade line asks for a WebSocket.
    pub(crate) websocket: bool,
    /// Whether some Expect line asks to be told to go on.
    pub(crate) expects: bool,
}

impl Lengths {
    /// What they state with one more line behind them.
    fn with(self, value: &[u8]) -> Lengths
        requires { trim_ows value.now ≡ value.now }
        ensures { (values : List (List ℕ)) → self ≡ stated values → result ≡ stated (values ++ value.now ∷ []) }
    {
        match (self, content_length(value)) {
            (Lengths::Absent, Some(length)) => Lengths::Length(length),
            _ => Lengths::Refused,
        }
    }
}

impl Codings {
    /// What they say with one more line behind them.
    fn with(self, value: &[u8]) -> Codings
        requires { trim_ows value.now ≡ value.now }
        ensures { (values : List (List ℕ)) → self ≡ coded values → result ≡ coded (values ++ value.now ∷ []) }
    {
        match self {
            Codings::Absent if is_word(value, b"chunked") => Codings::Chunked,
            Codings::Absent if is_word(value, b"identity") => Codings::Identity,
            _ => Codings::Refused,
        }
    }
}

impl Framing {
    /// What no line says.
    pub(crate) fn new() -> Self
        ensures { TellsLines result [] }
    {
        Framing {
            lengths: Lengths::Absent,
            codings: Codings::Absent,
            connection: None,
            websocket: false,
            expects: false,
        }
    }

    /// Takes in one more line, whose name is in lower case.
    pub(crate) fn note(&mut self, name: &str, value: &[u8])
        requires { trim_ows value.now ≡ value.now }
        ensures { (headers : List Header) → TellsLines self.old headers
            → TellsLines self.new (headers ++ (record { name = name.now; value = value.now }) ∷ []) }
    {
        match subject_of(name) {
            Some(Subject::Length) => self.lengths = self.lengths.with(value),
            Some(Subject::Coding) => self.codings = self.codings.with(value),
            Some(Subject::Connection) => self.connection = connection_type(value),
            Some(Subject::Upgrade) => self.websocket |= is_word(value, b"websocket"),
            Some(Subject::Expect) => self.expects |= value.starts_with(b"100-"),
            None => {}
        }
    }

    /// Where the body of a request of this version and method ends whose lines say this, if they
    /// frame one (RFC 7230, section 3.3.3).
    pub(crate) fn body_kind(&self, version: u8, method: &str) -> Option<BodyKind>
        ensures { option_map kind_of result ≡ kind_of_lines self.now version method.now }
    {
        let length = match self.lengths {
            Lengths::Absent => None,
            Lengths::Length(length) => Some(length),
            Lengths::Refused => return None,
        };
        match self.codings {
            Codings::Refused | Codings::Identity => None,
            Codings::Chunked if version == 1 && length.is_none() => Some(BodyKind::Chunked),
            Codings::Chunked => None,
            Codings::Absent if self.websocket => Some(BodyKind::Raw),
            Codings::Absent => kind_of_length(length, version, method),
        }
    }

    /// Where the body of an answer of this version and status ends whose lines say this, if they
    /// frame one (RFC 7230, section 3.3.3).
    pub(crate) fn answer_kind(&self, version: u8, status: u16) -> Option<BodyKind>
        ensures { option_map kind_of result ≡ answer_kind_of self.now version status }
    {
        let length = match self.lengths {
            Lengths::Absent => None,
            Lengths::Length(length) => Some(length),
            Lengths::Refused => return None,
        };
        let in_chunks = match self.codings {
            _ if version != 1 => false,
            Codings::Absent | Codings::Identity => false,
            Codings::Chunked => true,
            Codings::Refused => return None,
        };
        Some(kind_of_answer(status, in_chunks, length))
    }

    /// Marks the head of an answer without marks with what its lines ask for, and with Close where
    /// only the end of the input ends its body.
    pub(crate) fn mark_answer(&self, head: &mut ResponseHead, closes: bool)
        requires { head.old.flags ≡ no_flags }
        ensures { head.new ≡ record head.old { flags = answer_flags_by self.now.connection closes } }
    {
        if let Some(ctype) = self.connection {
            head.set_connection_type(ctype);
        }
        if closes {
            head.set_connection_type(ConnectionType::Close);
        }
    }

    /// Marks a head without marks with what its lines ask for.
    pub(crate) fn mark(&self, head: &mut RequestHead)
        requires { request_flags head.old ≡ no_flags }
        ensures { HasRequestFlags head.old head.new (flags_by self.now.connection self.now.expects) }
    {
        if let Some(ctype) = self.connection {
            head.set_connection_type(ctype);
        }
        if self.expects {
            head.set_expect();
        }
    }
}

/// What a line with this name, in lower case, is on. Most names have the length of none of these, and are compared
/// with none.
#[tactic(auto, unfolding(crate::specs::Framing::subject_of))]
fn subject_of(name: &str) -> Option<Subject>
    ensures { result ≡ subject_of name.now }
{
    match name.len() {
        6 if name == "expect" => Some(Subject::Expect),
        7 if name == "upgrade" => Some(Subject::Upgrade),
        10 if name == "connection" => Some(Subject::Connection),
        14 if name == "content-length" => Some(Subject::Length),
        17 if name == "transfer-encoding" => Some(Subject::Coding),
        _ => None,
    }
}

/// Where a body ends that neither comes in chunks nor is a WebSocket's.
fn kind_of_length(length: Option<u64>, version: u8, method: &str) -> Option<BodyKind>
    ensures { option_map kind_of result ≡ kind_of_length length version method.now }
{
    match length {
        Some(length) if length > 0 => Some(BodyKind::Length(length)),
        None if version == 0 && method == "POST" => None,
        _ if method.len() == 7 && method == "CONNECT" => Some(BodyKind::Raw),
        _ => Some(BodyKind::None),
    }
}

/// Where the body of an answer ends whose lines aren't refused: chunks come before a length.
fn kind_of_answer(status: u16, in_chunks: bool, length: Option<u64>) -> BodyKind
    ensures { kind_of result ≡ kind_of_answer status in_chunks length }
{
    if has_no_content(status) {
        BodyKind::None
    } else if status == 101 {
        BodyKind::Raw
    } else if in_chunks {
        BodyKind::Chunked
    } else {
        stated_kind(length)
    }
}

/// Whether a status is one after whose head no body follows: 1xx, 204 and 304, but for a 101
/// (RFC 7230, section 3.3.3).
fn has_no_content(status: u16) -> bool
    ensures { result ≡ has_no_content status }
{
    (status < 200 && status != 101) || status == 204 || status == 304
}

/// The body of a stated length, and without one the body that goes on to the end of the input.
fn stated_kind(length: Option<u64>) -> BodyKind
    ensures { kind_of result ≡ stated_body length }
{
    match length {
        Some(length) if length > 0 => BodyKind::Length(length),
        Some(_) => BodyKind::None,
        None => BodyKind::Raw,
    }
}
