// Copies of the first bytes of a queue.
ghost use Rattle.std.specs.Prelude.{◌≡◌, ◌≤◌, ◌+◌, ◌-◌, ◌++◌, ◌∷◌, ◌⊎◌, ℕ, List, [], length, take, drop, min, option_to_list};
ghost use Rattle.h1_output.specs.OutputPieces.{in_row, used, laid, own_len, body_len, IsCopied, CopiesTo};

use crate::piece::{Body, Piece};
use std::collections::VecDeque;

/// How far bytes were copied: where the next one goes, and how many of the buffer's were.
#[derive(Clone, Copy)]
pub struct Place {
    /// How many bytes of the room are taken.
    pub at: usize,
    /// How many bytes of the buffer came by.
    pub from: usize,
}

/// Copies the first piece, where there is one.
pub fn copy_first(buf: &mut [u8], own: &[u8], first: &Option<Piece>) -> Place
    requires { used (option_to_list first.now) ≤ length own.now }
    ensures room { result.at ≤ length buf.new }
    ensures from { result.from ≡ used (option_to_list first.now) }
    ensures copied { (rest : List Piece) → CopiesTo buf.old 0 (in_row first.now rest) own.now buf.new result.at rest (drop result.from own.now) }
{
    let place = Place { at: 0, from: 0 };
    match first {
        Some(piece) => copy_piece(buf, own, place, piece),
        None => place,
    }
}

/// Copies the pieces, each with the framing in front of it, until all came by or the room is full.
pub fn copy_rest(buf: &mut [u8], own: &[u8], place: Place, rest: &VecDeque<Piece>) -> Place
    requires room { place.at ≤ length buf.old }
    requires there { place.from + used rest.now.items ≤ length own.now }
    ensures room { result.at ≤ length buf.new }
    ensures from { result.from ≤ length own.now }
    ensures copied { (all was : List ℕ) (n : ℕ) → IsCopied all was buf.old place.at n → drop n all ≡ laid rest.now.items (drop place.from own.now)
        → (k : ℕ) × IsCopied all was buf.new result.at k × ((drop k all ≡ drop result.from own.now) ⊎ (result.at ≡ length buf.new)) }
{
    let mut place = place;
    let mut next = 0;
    while place.at < buf.len() {
        let Some(piece) = rest.get(next) else {
            return place;
        };
        place = copy_piece(buf, own, place, piece);
        next += 1;
    }
    place
}

/// Copies a piece with the framing in front of it, as far as there is room.
fn copy_piece(buf: &mut [u8], own: &[u8], place: Place, piece: &Piece) -> Place
    requires room { place.at ≤ length buf.old }
    requires there { place.from + piece.now.before + own_len piece.now.body ≤ length own.now }
    ensures room { result.at ≤ length buf.new }
    ensures from { result.from ≡ place.from + piece.now.before + own_len piece.now.body }
    ensures copied { (all was : List ℕ) (n : ℕ) (rest : List Piece) → IsCopied all was buf.old place.at n
        → drop n all ≡ laid (piece.now ∷ rest) (drop place.from own.now)
        → IsCopied all was buf.new result.at (n + piece.now.before + body_len piece.now.body)
        × (drop (n + piece.now.before + body_len piece.now.body) all ≡ laid rest (drop result.from own.now)) }
{
    let framed = place.from + piece.before;
    let at = place.at + copy_into(buf, place.at, &own[place.from..framed]);
    match &piece.body {
        Body::Own(len) => Place {
            at: at + copy_into(buf, at, &own[framed..framed + *len]),
            from: framed + *len,
        },
        Body::Shared(bytes) => Place {
            at: at + copy_into(buf, at, bytes.as_slice()),
            from: framed,
        },
    }
}

/// Copies as many of the bytes as there is room for from the place on, and says how many.
pub fn copy_into(buf: &mut [u8], at: usize, bytes: &[u8]) -> usize
    requires { at ≤ length buf.old }
    ensures count { result ≡ min (length buf.old - at) (length bytes.now) }
    ensures bytes { buf.new ≡ take at buf.old ++ (take result bytes.now ++ drop (at + result) buf.old) }
{
    let count = (buf.len() - at).min(bytes.len());
    buf[at..at + count].copy_from_slice(&bytes[..count]);
    count
}
