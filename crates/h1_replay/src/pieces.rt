//! A text cut at each occurrence of a byte: a script at its line feeds, a line at its blanks.
ghost use Rattle.std.specs.Iterator.{YieldsFirstRef, item_count};

use memchr::memchr;
use std::marker::Model;

/// The pieces of a text between its marks. A clause sees the list of those that are left.
#[derive(Drop)]
pub struct Pieces<'a> {
    // What stands after the last mark, until the last piece was given.
    rest: Option<&'a [u8]>,
    mark: u8,
}

impl<'a> Model for Pieces<'a> {
    ghost use Rattle.std.specs.Prelude.{List, ℕ};
    ghost use Rattle.std.specs.Option.{option_copied};
    ghost use Rattle.h1_replay.specs.InputPieces.{pieces_left};

    ghost Value = { List (List ℕ) };

    ghost view = { λ p. pieces_left p.mark (option_copied p.rest) };
}

impl<'a> Pieces<'a> {
    ghost use Rattle.std.specs.Prelude.{◌≡◌, ◌==◌, MatchOption, IsNone, length};
    ghost use Rattle.std.specs.Option.{option_copied};
    ghost use Rattle.std.specs.List.{slice_split};
    ghost use Rattle.h1_replay.specs.InputPieces.{only_of};

    /// All pieces of `text`: one more than it has marks.
    pub fn new(text: &'a [u8], mark: u8) -> Pieces<'a>
        ensures { result ≡ slice_split (λ b. b == mark) text.now }
    {
        Pieces {
            rest: Some(text),
            mark,
        }
    }

    /// The one piece that is left, where it is one.
    pub fn only(mut self) -> Option<&'a [u8]>
        ensures { option_copied result ≡ only_of self.entry }
    {
        let piece = self.next()?;
        if self.next().is_some() {
            return None;
        }
        Some(piece)
    }
}

impl<'a> Iterator for Pieces<'a> {
    type Item = &'a [u8];

    ghost next_gives = { YieldsFirstRef (λ p. p) };

    ghost remaining = { item_count (λ p. p) };

    fn next(&mut self) -> Option<&'a [u8]> {
        let text = self.rest?;
        let (piece, rest) = first_piece(text, self.mark);
        self.rest = rest;
        Some(piece)
    }
}

ghost use Rattle.std.specs.Prelude.{◌≡◌, ◌==◌, ◌+◌, ◌<◌, ◌∷◌, length, IfSome};
ghost use Rattle.std.specs.List.{slice_split};
ghost use Rattle.std.specs.Option.{option_copied};
ghost use Rattle.h1_replay.specs.InputPieces.{pieces_left};

/// The piece in front of the first `mark`, and what stands after that mark, where there is one.
pub fn first_piece(text: &[u8], mark: u8) -> (&[u8], Option<&[u8]>)
    ensures { slice_split (λ b. b == mark) text.now ≡ result.0.now ∷ pieces_left mark (option_copied result.1) }
{
    match memchr(mark, text) {
        Some(at) => (&text[..at], Some(&text[at + 1..])),
        None => (text, None),
    }
}
