// The pieces of a queue.
ghost use Rattle.std.specs.Prelude.{◌≡◌, ◌≤◌, ◌+◌, ◌++◌, ◌∷◌, [], length, option_to_list};
ghost use Rattle.std.specs.VecDeque.{deque_len, deque_capacity};
ghost use Rattle.h1_output.specs.OutputPieces.{in_row, with_rest, IsInRow};

use bytes::Bytes;
use std::collections::VecDeque;

/// A piece of a body.
#[derive(Drop)]
pub struct Piece {
    /// So many bytes of the buffer stand in front, behind the piece before.
    pub before: usize,
    /// Its bytes.
    pub body: Body,
}

/// The bytes of a piece.
#[derive(Drop)]
pub enum Body {
    /// The next bytes of the buffer.
    Own(usize),
    /// Bytes of another owner.
    Shared(Bytes),
}

/// What is left of a piece, where something is, and else the next one.
pub fn left_of(rest: &mut VecDeque<Piece>, body: Body) -> Option<Piece>
    ensures row { in_row result rest.new.items ≡ with_rest body rest.old.items }
    ensures kept { IsInRow result rest.new.items }
{
    let is_done = match &body {
        Body::Own(len) => *len == 0,
        Body::Shared(bytes) => bytes.is_empty(),
    };
    if is_done {
        rest.pop_front()
    } else {
        Some(Piece { before: 0, body })
    }
}

/// How much room a further piece needs behind the first.
pub fn room_for(first: &Option<Piece>) -> usize
    ensures { result ≡ length (option_to_list first.now) }
{
    match first {
        Some(_) => 1,
        None => 0,
    }
}

/// Puts a piece behind the others.
pub fn put_last(first: &mut Option<Piece>, rest: &mut VecDeque<Piece>, piece: Piece)
    requires row { IsInRow first.old rest.old.items }
    requires room { deque_len rest.old + length (option_to_list first.old) ≤ deque_capacity rest.old }
    ensures row { in_row first.new rest.new.items ≡ in_row first.old rest.old.items ++ piece ∷ [] }
    ensures kept { IsInRow first.new rest.new.items }
{
    if first.is_some() {
        rest.push_back_reserved(piece);
    } else {
        *first = Some(piece);
    }
}
