//! Passing over a body in chunks, without its bytes.
ghost use Rattle.std.specs.Prelude.{◌≡◌, ◌≢◌, ◌<◌, ◌⊎◌, length, drop, IfSome, IfNone};
ghost use Rattle.model_h1.specs.Place.{in_bytes, done, broken};
ghost use Rattle.h1_payload.specs.Places.{place_of};
ghost use Rattle.h1_payload.specs.Passing.{LeadsTo, IsAllPassed};

use crate::place::Place;
use crate::size_line::pass_usual;

/// Passes a body, and says where: at its end, where that is there, and else at the end of the bytes, or where it is
/// broken. No byte of a chunk is looked at.
pub(crate) fn pass_body(start: Place, bytes: &[u8]) -> (usize, Place)
    ensures { IsAllPassed (place_of start) bytes.now result.0 (place_of result.1) }
{
    let mut at = 0;
    let mut place = start;
    while at < bytes.len() {
        match pass_next(place, bytes, at) {
            Some((next_at, next)) => {
                at = next_at;
                place = next;
            }
            None => return (at, place),
        }
    }
    (at, place)
}

/// Passes as many bytes of a chunk as are there, or the usual ones between two chunks, or one byte. After a body, and
/// where it is broken, it passes none.
#[inline(always)]
fn pass_next(place: Place, bytes: &[u8], at: usize) -> Option<(usize, Place)>
    requires { at < length bytes.now }
    ensures on { IfSome result (λ next. LeadsTo (place_of place) bytes.now at next.0 (place_of next.1)) }
    ensures stops { IfNone result ((place_of place ≡ done) ⊎ (place_of place ≡ broken)) }
{
    match place {
        Place::Bytes(more) => Some(pass_chunk(more, bytes, at)),
        Place::Done => None,
        Place::Broken => None,
        place => Some(pass_between(place, bytes, at)),
    }
}

/// Passes the usual bytes between two chunks, and of others one.
#[inline(always)]
fn pass_between(place: Place, bytes: &[u8], at: usize) -> (usize, Place)
    requires there { at < length bytes.now }
    requires on { place_of place ≢ done }
    ensures { LeadsTo (place_of place) bytes.now at result.0 (place_of result.1) }
{
    let (end, next) = pass_usual(place, bytes, at);
    if end > at {
        return (end, next);
    }
    (at + 1, place.step(bytes[at]))
}

/// Passes the bytes of a chunk that are there, where `more` follow the first.
fn pass_chunk(more: u64, bytes: &[u8], at: usize) -> (usize, Place)
    requires { at < length bytes.now }
    ensures { LeadsTo (in_bytes more) bytes.now at result.0 (place_of result.1) }
{
    let count = (bytes.len() - at) as u64;
    if more < count {
        (at + more as usize + 1, Place::BytesEnd)
    } else {
        (bytes.len(), Place::Bytes(more - count))
    }
}
