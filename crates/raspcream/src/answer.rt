//! An answer's head as C hands it in.
ghost use Rattle.std.specs.Prelude.{◌≡◌, ◌⊎◌, ◌<◌, IfOk, IfErr};
ghost use Rattle.h1_encoder.specs.Meaning.{answer_of};
ghost use Rattle.http_types.specs.Flags.{no_flags};
ghost use Rattle.raspcream.specs.Named.{NamesAnswer, IsNoAnswer, flags_with};
ghost use Rattle.raspcream.specs.Refused.{FailsBy};

use crate::fields::read_fields;
use crate::reply::Failure;
use h1_connection::{ConnectionType, ResponseHead, StatusCode};
use http_types::HeaderMap;
use std::alloc::Global;

/// The status of this number.
fn status_of(number: u32) -> Result<StatusCode, Failure>
    ensures ok { IfOk result (λ status. status ≡ number) }
    ensures why { IfErr result (FailsBy ((number < 100) ⊎ (999 < number))) }
{
    let Ok(code) = u16::try_from(number) else {
        return Err(Failure::Invalid);
    };
    match StatusCode::from_u16(code) {
        Ok(status) => Ok(status),
        Err(_) => Err(Failure::Invalid),
    }
}

// What becomes of the connection.
fn mark(head: &mut ResponseHead, keep: u32)
    ensures { head.new ≡ record head.old { flags = flags_with keep head.old.flags } }
{
    if keep == 1 {
        head.set_connection_type(ConnectionType::Close);
    } else if keep == 2 {
        head.set_connection_type(ConnectionType::KeepAlive);
    } else if keep == 3 {
        head.set_connection_type(ConnectionType::Upgrade);
    }
}

// The head with these parts.
fn head_with(alloc: Global, status: StatusCode, keep: u32, headers: HeaderMap) -> ResponseHead
    ensures status { result.status ≡ status }
    ensures headers { result.headers ≡ headers }
    ensures reason { result.reason ≡ None }
    ensures flags { result.flags ≡ flags_with keep no_flags }
{
    let mut head = ResponseHead::new(alloc, status);
    head.headers = headers;
    mark(&mut head, keep);
    head
}

/// The head that C names: its status in the lowest ten bits of `arg`, in two bits above them what becomes of the connection,
/// and in `text` its lines.
pub fn answer_head_of(alloc: Global, arg: u32, text: &[u8]) -> Result<ResponseHead, Failure>
    ensures ok { IfOk result (λ head. NamesAnswer arg text.now (answer_of head)) }
    ensures why { IfErr result (FailsBy (IsNoAnswer arg text.now)) }
{
    let status = status_of(arg % 1024)?;
    let headers = read_fields(alloc, text)?;
    Ok(head_with(alloc, status, (arg / 1024) % 4, headers))
}
