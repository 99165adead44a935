//! The payload of a Close (RFC 6455, sections 5.5.1 and 7.4).
ghost use Rattle.std.specs.Prelude.{◌≡◌, ◌<◌, length, Err, IfOk, OnErr, option_map, string_bytes};
ghost use Rattle.std.specs.Str.Lossy.{utf8_lossy};
ghost use Rattle.model_h1.specs.FrameText.{is_close_code, description_of, close_frame};
ghost use Rattle.ws_frames.specs.Close.{reason_says, CloseSays, HasName, reason_frame, lossy_reason};
ghost use Rattle.ws_frames.specs.Protocol.{close_number, close_code};

use crate::NoMemory;
use crate::error::ProtocolError;
use crate::proto::{CloseCode, CloseReason};
use std::alloc::Global;

/// The reason that a payload gives, if it isn't empty.
pub(crate) fn read_close(
    alloc: Global,
    payload: &[u8],
) -> Result<Option<CloseReason>, ProtocolError>
    ensures says { CloseSays result (close_frame payload.now) }
    ensures named { IfOk result HasName }
    ensures memory { result ≡ Err ProtocolError.NoMemory → 2 < length payload.now }
{
    match payload {
        [] => Ok(None),
        [_] => Err(ProtocolError::InvalidLength(1)),
        [high, low, text @ ..] => read_reason(alloc, *high as u16 * 256 + *low as u16, text),
    }
}

/// The reason of this code and this text.
fn read_reason(
    alloc: Global,
    number: u16,
    text: &[u8],
) -> Result<Option<CloseReason>, ProtocolError>
    ensures says { CloseSays result (reason_frame number text.now) }
    ensures named { IfOk result HasName }
    ensures memory { result ≡ Err ProtocolError.NoMemory → 0 < length text.now }
{
    if !is_close_code(number) {
        return Err(ProtocolError::BadOpCode);
    }
    let Ok(text) = str::from_utf8(text) else {
        return Err(ProtocolError::BadOpCode);
    };
    match describe(alloc, text) {
        Ok(description) => Ok(Some(CloseReason {
            code: code_of(number),
            description,
        })),
        Err(_) => Err(ProtocolError::NoMemory),
    }
}

/// The code of a number, by its name where it has one.
fn code_of(number: u16) -> CloseCode
    ensures number { close_number result ≡ number }
    ensures named { result ≡ close_code (close_number result) }
{
    CloseCode::from(number)
}

/// A Close may carry this code.
fn is_close_code(number: u16) -> bool
    ensures { result ≡ is_close_code number }
{
    matches!(number, 1000..=1003 | 1007..=1014 | 3000..=4999)
}

/// The text, if there is one.
fn describe(alloc: Global, text: &str) -> Result<Option<String>, NoMemory>
    ensures text { IfOk result (λ description. option_map string_bytes description ≡ description_of text.now) }
    ensures memory { OnErr result (0 < length text.now) }
{
    if text.is_empty() {
        return Ok(None);
    }
    Ok(Some(String::from_str(alloc, text)?))
}

/// The reason that a payload gives, whatever its code; U+FFFD stands for what is no UTF-8. There is none below two bytes.
pub(crate) fn read_any_close(alloc: Global, payload: &[u8]) -> Result<Option<CloseReason>, NoMemory>
    ensures reason { IfOk result (λ reason. option_map reason_says reason ≡ lossy_reason payload.now) }
    ensures named { IfOk result HasName }
    ensures memory { OnErr result (2 < length payload.now) }
{
    match payload {
        [] => Ok(None),
        [_] => Ok(None),
        [high, low, text @ ..] => {
            let code = CloseCode::from(*high as u16 * 256 + *low as u16);
            let description = describe_lossy(alloc, text)?;
            Ok(Some(CloseReason { code, description }))
        }
    }
}

/// The text, if there is one, with U+FFFD for what is no UTF-8.
fn describe_lossy(alloc: Global, text: &[u8]) -> Result<Option<String>, NoMemory>
    ensures text { IfOk result (λ description. option_map string_bytes description ≡ option_map utf8_lossy (description_of text.now)) }
    ensures memory { OnErr result (0 < length text.now) }
{
    match text {
        [] => Ok(None),
        _ => Ok(Some(String::from_utf8_lossy(alloc, text)?)),
    }
}
