//! The pieces that a transport in memory has left.
ghost use Rattle.std.specs.Prelude.{◌≡◌, ◌≤◌, ◌++◌, length, take, drop, min};
ghost use Rattle.http_transport.specs.Left.{Gives};

use bytes::Bytes;
use std::collections::VecDeque;
use std::marker::Model;

/// What stood at the front of the pieces.
#[derive(Clone, Copy, Debug)]
pub(crate) enum Front {
    /// Nothing.
    None,

    /// An empty piece, which is passed.
    Empty,

    /// A piece, of which so many bytes were moved.
    Moved(usize),
}

/// Pieces of bytes. A clause sees them as the list of those that are left, the first one without what was moved of it.
#[derive(Drop)]
pub(crate) struct Pieces {
    part: Bytes,
    more: VecDeque<Bytes>,
}

impl Model for Pieces {
    ghost use Rattle.std.specs.Prelude.{ℕ, List};
    ghost use Rattle.http_transport.specs.LeftAfter.{left_after};

    ghost Value = { List (List ℕ) };

    ghost view = { λ p. left_after p.part p.more.items };
}

impl Pieces {
    /// These pieces, all of them.
    pub(crate) fn new(pieces: Vec<Bytes>) -> Pieces
        ensures { result ≡ pieces.items }
    {
        Pieces {
            part: Bytes::new(),
            more: VecDeque::from_vec(pieces),
        }
    }

    /// Moves bytes of the first piece to the front of `buf`.
    pub(crate) fn give(&mut self, buf: &mut [u8]) -> Front
        ensures gives { Gives self.old self.new buf.new result }
    {
        if !self.part.is_empty() {
            return Front::Moved(move_front(&mut self.part, buf));
        }
        match self.more.pop_front() {
            None => Front::None,
            Some(mut piece) => {
                if piece.is_empty() {
                    return Front::Empty;
                }
                let count = move_front(&mut piece, buf);
                self.part = piece;
                Front::Moved(count)
            }
        }
    }
}

/// Moves as many bytes as fit to the front of `buf`.
fn move_front(left: &mut Bytes, buf: &mut [u8]) -> usize
    ensures count { result ≡ min (length buf.new) (length left.old) }
    ensures moved { take result buf.new ≡ take result left.old }
    ensures rest { left.new ≡ drop result left.old }
{
    let count = buf.len().min(left.len());
    buf[..count].copy_from_slice(&left.as_slice()[..count]);
    left.advance(count);
    count
}
