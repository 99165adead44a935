//! How a body goes out.
ghost use Rattle.std.specs.Prelude.{◌≡◌, ◌==◌, ◌||◌};
ghost use Rattle.model_h1.specs.Answer as answers;
ghost use Rattle.h1_encoder.specs.Meaning.{answer_of, size_of, model_shape};

use crate::Asked;
use http_framing::BodySize;
use http_types::{ResponseHead, StatusCode};

/// How an answer's body goes out (RFC 7230, section 3.3.3).
#[derive(Clone, Copy, Debug, PartialEq, Eq)]
pub enum Shape {
    /// There is no body.
    None,
    /// So many bytes, which the head states.
    Length(u64),
    /// In chunks.
    Chunked,
    /// As it is, up to the end of the connection.
    Raw,
}

/// How the body of an answer to this request goes out. For HEAD it is what the head says; no byte follows.
pub fn shape_of(asked: Asked, head: &ResponseHead, size: BodySize) -> Shape
    ensures { model_shape result ≡ answers.shape_of asked (answer_of head.now) (size_of size) }
{
    if head.status == StatusCode::SWITCHING_PROTOCOLS {
        return switching_shape(size);
    }
    if is_bodiless(head.status) {
        return Shape::None;
    }
    match size {
        BodySize::None | BodySize::Sized(0) => Shape::None,
        BodySize::Sized(length) => Shape::Length(length),
        BodySize::Stream => stream_shape(asked, head),
    }
}

// A 101 passes on what follows it.
fn switching_shape(size: BodySize) -> Shape
    ensures { model_shape result ≡ answers.switching_shape (size_of size) }
{
    match size {
        BodySize::Stream => Shape::Raw,
        BodySize::None | BodySize::Sized(_) => Shape::None,
    }
}

fn stream_shape(asked: Asked, head: &ResponseHead) -> Shape
    ensures { model_shape result ≡ answers.stream_shape asked (answer_of head.now) }
{
    if asked.is_raw() || asked.minor() == 0 || no_chunking(head) {
        Shape::Raw
    } else {
        Shape::Chunked
    }
}

/// The statuses of RFC 7230, section 3.3.3, point 1.
pub(crate) fn is_bodiless(status: StatusCode) -> bool
    ensures { result ≡ answers.is_bodiless status }
{
    let code = status.as_u16();
    code < 200 || code == 204 || code == 304
}

// Whether a stream isn't to be sent in chunks.
fn no_chunking(head: &ResponseHead) -> bool
    ensures { result ≡ (answer_of head.now).no_chunking }
{
    !head.chunked()
}
