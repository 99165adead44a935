//! The answer to an error.
ghost use Rattle.std.specs.Prelude.{◌≡◌, ℕ, List, IfOk};
ghost use Rattle.http_types.specs.ResponseHead.{fresh_response};
ghost use Rattle.http_bodies.specs.declared.body.boxed.AnyBody.TheVariants as any;
ghost use Rattle.http_services.specs.ErrorResponse.{status_of};

use bytes::Bytes;
use http_bodies::AnyBody;
use http_types::{Error, Kind, NoMemory, Response, StatusCode};
use std::alloc::Global;

/// The answer to an error: with the status 400 if a message could not be parsed, else with 500. Its body is the error's
/// text, in a body of the type that the caller asks for: a `BoxBody`, for example.
pub fn response_of_error<E: Drop>(
    alloc: Global,
    err: &Error,
) -> Result<Response<AnyBody<E>>, NoMemory>
    ensures { IfOk result (λ response. (text : List ℕ) × (response ≡ record { head = fresh_response (status_of err.now.kind); body = any.Bytes text })) }
{
    let status = match err.kind {
        Kind::Parse => StatusCode::BAD_REQUEST,
        _ => StatusCode::INTERNAL_SERVER_ERROR,
    };
    let text = text_of(alloc, err)?;
    Ok(Response::with_body(alloc, status, AnyBody::Bytes(text)))
}

fn text_of(alloc: Global, err: &Error) -> Result<Bytes, NoMemory> {
    Bytes::from_string(format!(in alloc; "{err}")?)
}
