//! The head of an answer, within the bytes that are held.
ghost use Rattle.std.specs.Prelude.{◌≡◌, ◌≢◌, ◌≤◌, Some, length, slice_range, IfOk, IfErr};
ghost use Rattle.h1_client.specs.HeadMeaning.{fault_of};
ghost use Rattle.model_client.specs.AnswerReading.{Answer, answer_is, refused, IsAnswerReading, IsAnswerReadingWithin};
ghost use Rattle.h1_decoder.specs.Refusal as decode;
ghost use Rattle.h1_decoder.specs.Refusal.{UnlessNoMemory};
ghost use Rattle.h1_decoder.specs.ResponseItem.{SaysAnswer};

use bytes::Bytes;
use h1_decoder::{ResponseItem, response_head};
use http_types::{NoMemory, ParseError};
use std::alloc::{AllocError, Global};

/// What is wrong with an answer's head.
#[derive(Clone, Copy, Debug, PartialEq, Eq)]
pub enum AnswerFault {
    /// It breaks a rule of RFC 7230, section 3, or of its body's length (section 3.3.3).
    Malformed,

    /// It has more bytes than are held, or more lines than are read.
    TooLarge,
}

/// Reads the head that stands at these places of the bytes. One of more than `hold_size` bytes is refused by
/// `ParseError::TooLarge`, whatever it says; another is read and refused as `h1_decoder::response_head` does. The head
/// is copied once, and its parts share that copy's memory.
pub fn read_answer(
    alloc: Global,
    bytes: &[u8],
    start: usize,
    end: usize,
    hold_size: usize,
) -> Result<ResponseItem, ParseError>
    requires ordered { start ≤ end }
    requires within { end ≤ length bytes.now }
    ensures head { IfOk result (λ item. (a : Answer) × IsAnswerReadingWithin (Some hold_size) (slice_range bytes.now start end) (answer_is a) × SaysAnswer item a) }
    ensures fault { IfErr result (λ e. UnlessNoMemory e (IsAnswerReadingWithin (Some hold_size) (slice_range bytes.now start end) (refused (decode.fault_of e)))) }
{
    if end - start > hold_size {
        return Err(ParseError::TooLarge);
    }
    read_piece(alloc, &bytes[start..end])
}

// The head that is the whole piece.
fn read_piece(alloc: Global, piece: &[u8]) -> Result<ResponseItem, ParseError>
    ensures head { IfOk result (λ item. (a : Answer) × IsAnswerReading piece.now (answer_is a) × SaysAnswer item a) }
    ensures fault { IfErr result (λ e. UnlessNoMemory e (IsAnswerReading piece.now (refused (decode.fault_of e)))) }
{
    match Bytes::copy_from_slice(alloc, piece) {
        Ok(copy) => response_head(alloc, copy),
        Err(_) => Err(ParseError::NoMemory),
    }
}

/// What an error of `read_answer` says of the head. `NoMemory` comes exactly for that of memory.
pub fn fault_by(error: ParseError) -> Result<AnswerFault, NoMemory>
    ensures fault { IfOk result (λ fault. (error ≢ ParseError.NoMemory) × (fault_of fault ≡ decode.fault_of error)) }
    ensures memory { IfErr result (λ _. error ≡ ParseError.NoMemory) }
{
    match error {
        ParseError::NoMemory => Err(AllocError),
        ParseError::TooLarge => Ok(AnswerFault::TooLarge),
        _ => Ok(AnswerFault::Malformed),
    }
}
