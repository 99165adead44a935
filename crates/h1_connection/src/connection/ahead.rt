// How many heads stand ahead of the one that was handed out last.
ghost use Rattle.std.specs.Prelude.{◌≡◌, ◌≢◌, ◌≤◌, false, if◌then◌else◌, IfOk, IsOk};
ghost use Rattle.model_h1.specs.Request.{Reading};
ghost use Rattle.model_h1.specs.RequestHead.{IsReading};
ghost use Rattle.model_state.specs.Ahead.{is_bodiless};
ghost use Rattle.h1_connection.specs.Ahead.{heads_in, nothing_counted, IsCountBehind};

use bytes::Bytes;
use h1_decoder::{HeadScan, request_head, scan_head};
use http_types::{NoMemory, ParseError};
use std::alloc::{AllocError, Global};

// The most heads that are counted.
const MAX_AHEAD: usize = 16;

/// Among which bytes heads are counted. Each that is handed out is passed, so that no number is kept of those that are left:
/// they are the heads that stand in front.
#[derive(Clone, Copy, Debug, PartialEq, Eq)]
pub struct Count {
    /// How many of the bytes that are held were there when the count began.
    pub mark: usize,

    /// How many heads may be counted: 16 when it began, and one fewer for each that was handed out since.
    pub left: usize,
}

impl Count {
    /// None is counted.
    pub fn new() -> Count
        ensures { result ≡ nothing_counted }
    {
        Count { mark: 0, left: 0 }
    }

    /// The count where nothing is left of a body, and none where something is.
    pub fn beside_body(self, is_nothing: bool) -> Count
        ensures { result ≡ (if is_nothing then self else nothing_counted) }
    {
        if is_nothing { self } else { Count::new() }
    }

    /// The count behind a head of `size` bytes that was handed out, where `len` bytes are held behind it.
    pub fn behind(self, size: usize, len: usize, has_body: bool) -> Count
        ensures { IsCountBehind self size len has_body result }
    {
        if has_body {
            return Count::new();
        }
        if self.left > 0 && size <= self.mark {
            return Count {
                mark: self.mark - size,
                left: self.left - 1,
            };
        }
        Count {
            mark: len,
            left: MAX_AHEAD,
        }
    }
}

/// How many heads stand one after another in front of the bytes, at most so many. All but the last have no body.
pub fn heads_in(alloc: Global, bytes: &[u8], limit: usize) -> Result<usize, NoMemory>
    ensures value { IfOk result (λ count. count ≡ heads_in limit bytes.now) }
    ensures most { IfOk result (λ count. count ≤ limit) }
    ensures no_memory_needed { heads_in limit bytes.now ≡ 0 → IsOk result }
{
    if limit == 0 {
        return Ok(0);
    }
    let HeadScan::Piece(start, end) = scan_head(bytes) else {
        return Ok(0);
    };
    if !has_no_body(alloc, &bytes[start..end])? {
        return Ok(1);
    }
    let behind = heads_in(alloc, &bytes[end..], limit - 1)?;
    Ok(behind + 1)
}

// Whether the piece is a head without a body, so that the next one begins straight behind it.
fn has_no_body(alloc: Global, piece: &[u8]) -> Result<bool, NoMemory>
    ensures { IfOk result (λ is. (what : Reading) × IsReading piece.now what × (is ≡ is_bodiless what)) }
{
    let copy = Bytes::copy_from_slice(alloc, piece)?;
    match request_head(alloc, copy) {
        Ok(item) => Ok(!item.has_body()),
        Err(error) => no_head(error),
    }
}

// A piece that is refused is no head, of which none is said that it has no body.
fn no_head(error: ParseError) -> Result<bool, NoMemory>
    ensures { IfOk result (λ is. (error ≢ ParseError.NoMemory) × (is ≡ false)) }
{
    match error {
        ParseError::NoMemory => Err(AllocError),
        _ => Ok(false),
    }
}
