//! The laws of what the head of an answer is read as.

ghost use Rattle.std.specs.Prelude.{◌≡◌, ℕ, false, List, [], ◌∷◌, ◌++◌, flat_map, codes, Option};
ghost use Rattle.std.specs.List.{AllByRecursion};
ghost use Rattle.httparse.specs.Ascii.{line_feed};
ghost use Rattle.httparse.specs.Grammar.{ResponseHead, ReadsResponse};
ghost use Rattle.model_client.specs.LaxText.{unpadded};
ghost use Rattle.model_client.specs.AnswerReading.{Answer, AnswerReading, IsTextOf, IsAnswerOf, IsAnswerReadingWithin};
ghost use Rattle.model_client.specs.Laws.PaddedLines.{PaddedLine, HasNoFeed, HasNoColon, IsPaddedLine, padded_text, plain_text};

/// A piece has a reading as an answer, with a limit and without.
pub fn every_piece_is_read()
    ensures { (limit : Option ℕ) (piece : List ℕ) → (r : AnswerReading) × IsAnswerReadingWithin limit piece r }
{}

/// And it has no other.
pub fn reading_is_unique()
    ensures { (limit : Option ℕ) (piece : List ℕ) (a b : AnswerReading) → IsAnswerReadingWithin limit piece a → IsAnswerReadingWithin limit piece b → a ≡ b }
{}

/// What the grammar takes is read as it stands, and never from the copy without blanks.
pub fn the_first_reading_counts()
    ensures read { (piece : List ℕ) (a : Answer) → IsTextOf piece a → a.is_lax ≡ false → IsAnswerOf piece a }
    ensures alone { (piece : List ℕ) (a : Answer) (text : ResponseHead) → IsAnswerOf piece a → ReadsResponse piece text [] → a.is_lax ≡ false }
{}

/// The copy for the second reading leaves out the blanks and tabs before the colon of each header line, and nothing else.
pub fn blanks_are_left_out()
    ensures { (first last : List ℕ) (lines : List PaddedLine) → HasNoFeed first → AllByRecursion IsPaddedLine lines → HasNoFeed last → HasNoColon last
        → unpadded (first ++ line_feed ∷ (flat_map padded_text lines ++ (last ++ line_feed ∷ [])))
        ≡ first ++ line_feed ∷ (flat_map plain_text lines ++ (last ++ line_feed ∷ [])) }
{}

/// As in these three lines, of which the last has a colon in its value.
pub fn three_lines()
    ensures { unpadded (codes "HTTP/1.1 200 O : K\r\na\t: b\r\nc: d\r\ne \t : f : g\r\n\r\n")
        ≡ codes "HTTP/1.1 200 O : K\r\na: b\r\nc: d\r\ne: f : g\r\n\r\n" }
{}
