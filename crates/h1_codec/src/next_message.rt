//! What comes next in the bytes.
ghost use Rattle.h1_decoder.specs.HeadPosition.{IsSeenIn};
ghost use Rattle.h1_codec.specs.Next.{IsFound, IsFoundWithin};

use h1_decoder::{HeadScan, HeadScanner};

/// What comes next in the bytes.
#[derive(Clone, Copy, Debug)]
pub(crate) enum Next {
    /// A head, from the first place up to the second.
    Head(usize, usize),

    /// No head is whole yet; and how far the search has come.
    Waits(HeadScanner),

    /// No head that ends within the limit.
    TooLong,
}

/// What comes next. Of the bytes no more are looked at than the limit.
pub(crate) fn find_next(limit: usize, scanner: HeadScanner, bytes: &[u8]) -> Next
    ensures found { IsSeenIn scanner bytes.now → IsFound limit bytes.now result }
    ensures within { IsFoundWithin bytes.now result }
{
    let mut scanner = scanner;
    let len = bytes.len().min(limit);
    match scanner.scan_any(&bytes[..len]) {
        HeadScan::Piece(start, end) => Next::Head(start, end),
        HeadScan::Open if len < limit => Next::Waits(scanner),
        HeadScan::Open => Next::TooLong,
    }
}
