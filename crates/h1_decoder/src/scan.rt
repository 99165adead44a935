//! Where the head of a message begins and ends (RFC 7230, sections 3 and 3.5).
ghost use Rattle.std.specs.Prelude.{◌≡◌, ℕ, List, ◌≤◌, length, take, drop, IfSome, IfNone};
ghost use Rattle.model_h1.specs.HeadPiece.{AreBlankLines, BeginsBlank, IsHeadPiece};
ghost use Rattle.h1_decoder.specs.HeadPosition.{HasScanned, IsSeenIn};
ghost use Rattle.h1_decoder.specs.HeadScan.{AnswersScan, LiesWithin};
ghost use Rattle.h1_decoder.specs.LineEnds.{IsLineEndAt, IsFirstEnd, HasNoEnd};

use memchr::memchr;
use std::marker::Model;

/// Whether a buffer holds a whole head.
#[derive(Clone, Copy, Debug, PartialEq, Eq)]
pub enum HeadScan {
    /// No head is whole yet.
    Open,

    /// The head begins and ends at these places of the buffer, behind the empty lines before it
    /// and with the empty line that ends it.
    Piece(usize, usize),
}

/// Where the first head in `bytes` is.
pub fn scan_head(bytes: &[u8]) -> HeadScan
    ensures answer { AnswersScan bytes.now result }
    ensures found { (start end : ℕ) → IsHeadPiece bytes.now start end → result ≡ HeadScan.Piece start end }
{
    HeadScanner::new().scan(bytes)
}

/// How far the search for a head has come. It is given a buffer that grows. Of what it saw before it
/// looks again at two bytes where the head begins and at the last two, so that a head that comes byte
/// by byte costs what it costs in one piece.
#[derive(Clone, Copy, Debug)]
pub struct HeadScanner {
    /// Where the head begins, as far as the bytes tell.
    start: usize,

    /// How many bytes have been seen, and hold no whole head.
    scanned: usize,
}

impl Model for HeadScanner {
    ghost use Rattle.h1_decoder.specs.HeadPosition.{HeadPosition};

    ghost Value = { HeadPosition };

    ghost view = { λ s. record { start = s.start; scanned = s.scanned } };

    ghost inverse = { λ p. record { start = p.start; scanned = p.scanned } };
}

impl HeadScanner {
    /// A scanner that has seen nothing.
    pub fn new() -> Self
        ensures { (bytes : List ℕ) → HasScanned result bytes }
    {
        HeadScanner {
            start: 0,
            scanned: 0,
        }
    }

    /// Where the first head in `bytes` is. These are the bytes that were given before, unchanged,
    /// and any number behind them.
    pub fn scan(&mut self, bytes: &[u8]) -> HeadScan
        requires { HasScanned self.old bytes.now }
        ensures answer { AnswersScan bytes.now result }
        ensures found { (start end : ℕ) → IsHeadPiece bytes.now start end → result ≡ HeadScan.Piece start end }
        ensures goes_on { HasScanned self.new bytes.now }
        ensures all_seen { result ≡ HeadScan.Open → self.new.scanned ≡ length bytes.now }
    {
        if self.scanned == bytes.len() {
            return HeadScan::Open;
        }
        self.scan_on(bytes)
    }

    /// The same for a caller who is handed the buffer. Fewer bytes than before are searched anew. Where
    /// other bytes stand in place of those that were given before, the answer lies within these bytes,
    /// and says nothing of them.
    pub fn scan_any(&mut self, bytes: &[u8]) -> HeadScan
        ensures within { LiesWithin (length bytes.now) result }
        ensures answer { IsSeenIn self.old bytes.now → AnswersScan bytes.now result }
        ensures goes_on { IsSeenIn self.old bytes.now → HasScanned self.new bytes.now }
        ensures all_seen { result ≡ HeadScan.Open → self.new.scanned ≡ length bytes.now }
    {
        if self.scanned > bytes.len() {
            *self = HeadScanner::new();
        }
        self.scan_on(bytes)
    }

    /// The same, where there are as many bytes as before, or more.
    fn scan_on(&mut self, bytes: &[u8]) -> HeadScan
        requires { self.old.scanned ≤ length bytes.now }
        ensures within { LiesWithin (length bytes.now) result }
        ensures answer { HasScanned self.old bytes.now → AnswersScan bytes.now result }
        ensures goes_on { HasScanned self.old bytes.now → HasScanned self.new bytes.now }
        ensures all_seen { result ≡ HeadScan.Open → self.new.scanned ≡ length bytes.now }
    {
        let start = skip_blank_lines(bytes, self.start.min(bytes.len()));

        // An empty line that ends among the new bytes stands behind one of the last two old ones.
        let from = start.max(self.scanned.saturating_sub(2));
        match find_end(bytes, from) {
            Some(end) => HeadScan::Piece(start, end),
            None => {
                self.start = start;
                self.scanned = bytes.len();
                HeadScan::Open
            }
        }
    }
}

/// The place behind the empty lines that stand at `at`.
fn skip_blank_lines(bytes: &[u8], at: usize) -> usize
    requires { at ≤ length bytes.now }
    ensures in_range { result ≤ length bytes.now }
    ensures blank { AreBlankLines (take at bytes.now) → AreBlankLines (take result bytes.now) }
    ensures begins { ¬ (BeginsBlank (drop result bytes.now)) }
{
    let mut start = at;
    while let Some(len) = line_end_len(&bytes[start..]) {
        start += len;
    }
    start
}

/// The place behind the first empty line that follows a line feed of `bytes[from..]`.
fn find_end(bytes: &[u8], from: usize) -> Option<usize>
    requires { from ≤ length bytes.now }
    ensures found { IfSome result (λ end. IsFirstEnd bytes.now from end) }
    ensures none { IfNone result (HasNoEnd bytes.now from) }
{
    let mut at = from;
    while let Some(len) = memchr(b'\n', &bytes[at..]) {
        at += len + 1;
        if let Some(len) = line_end_len(&bytes[at..]) {
            return Some(at + len);
        }
    }
    None
}

/// How many bytes the line end has with which `bytes` begins.
pub(crate) fn line_end_len(bytes: &[u8]) -> Option<usize>
    ensures found { IfSome result (λ len. IsLineEndAt bytes.now 0 len) }
    ensures none { IfNone result (¬ (BeginsBlank bytes.now)) }
{
    match bytes {
        [b'\n', ..] => Some(1),
        [b'\r', b'\n', ..] => Some(2),
        _ => None,
    }
}
