// The search for the next head among the bytes that are held.
ghost use Rattle.std.specs.Prelude.{◌≡◌, Some};
ghost use Rattle.h1_decoder.specs.HeadPosition.{HasScanned};
ghost use Rattle.h1_connection.specs.Scan.{scan_of};
ghost use Rattle.h1_connection.specs.Incoming.{is_coming_in, CanGoOn, GoesOnIn, HasSearched, IsCaughtUp};

use h1_decoder::{HeadScan, HeadScanner, scan_head};

/// How far the search for the next head is.
#[derive(Clone, Copy)]
pub enum Search {
    /// None is searched for: the bytes are a body's.
    Off,

    /// A head may come next, and nothing is known of the bytes. One that is whole when it is asked for is read at once.
    Due,

    /// All bytes were searched.
    Done(Scan),
}

/// How far a search has come, and what it has found.
#[derive(Clone, Copy)]
pub struct Scan {
    pub scanner: HeadScanner,
    pub piece: HeadScan,
}

/// Whether the bytes have a whole head, where the search is due. It is asked of no bytes alone, since a search is due only
/// where no other call depends on the answer.
#[cold]
pub fn has_head(bytes: &[u8]) -> bool
    ensures { result ≡ is_coming_in (Some (scan_of bytes.now)) }
{
    scan_head(bytes) != HeadScan::Open
}

/// The search behind more bytes. A head that was found stays the next, and a search that is due stays so.
pub fn continued(search: Search, bytes: &[u8]) -> Search
    requires { CanGoOn search bytes.now }
    ensures { GoesOnIn search bytes.now result }
{
    match search {
        Search::Done(scan) if scan.piece == HeadScan::Open => searched(scan.scanner, bytes),
        _ => search,
    }
}

/// The search, done where it was due.
pub fn caught_up(search: Search, bytes: &[u8]) -> Search
    ensures { IsCaughtUp search bytes.now result }
{
    match search {
        Search::Due => searched(HeadScanner::new(), bytes),
        _ => search,
    }
}

/// The search that has seen all the bytes.
pub fn searched(scanner: HeadScanner, bytes: &[u8]) -> Search
    requires { HasScanned scanner bytes.now }
    ensures { HasSearched bytes.now result }
{
    let mut scanner = scanner;
    let piece = scanner.scan(bytes);
    Search::Done(Scan { scanner, piece })
}
