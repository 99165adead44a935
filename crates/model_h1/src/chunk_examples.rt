//! Worked examples of bodies in chunks, all bytes written out.

ghost use Rattle.std.specs.Prelude.{◌≡◌, ℕ, ◌<◌, [], ◌∷◌, ◌++◌, take, replicate, codes};
ghost use Rattle.std.specs.List.{repeat};
ghost use Rattle.model_h1.specs.Runs.{cut_runs};
ghost use Rattle.model_h1.specs.Chunked.{whole, unfinished, not_chunked, IsChunked};
ghost use Rattle.model_h1.specs.Place.{start, in_bytes, bytes_end, in_section, in_name};
ghost use Rattle.model_h1.specs.Reading.{ends_before, read};
ghost use Rattle.model_h1.specs.TakeNext.{chunk, waits, take_next};

/// A chunk of four bytes and the last one: the body's bytes lie from 3 to 7, it has 14 in all, and what follows is no part of it.
pub fn one_chunk_is_whole()
    ensures { IsChunked (codes "4\r\ndata\r\n0\r\n\r\nGET") (whole 14 []) (record { start = 3; end = 7 } ∷ []) }
{}

/// Cut anywhere before its end, that body is unfinished, and its run goes as far as the bytes.
pub fn one_chunk_cut_is_unfinished()
    ensures { (k : ℕ) → k < 14 → IsChunked (take k (codes "4\r\ndata\r\n0\r\n\r\n")) unfinished (cut_runs k (record { start = 3; end = 7 } ∷ [])) }
{}

/// A size line without digits says 0, so that two empty lines are a whole body.
pub fn line_without_digits_says_none()
    ensures { IsChunked (codes "\r\n\r\n") (whole 4 []) [] }
{}

/// A letter that is no digit begins no size line.
pub fn letter_past_f_is_refused()
    ensures { IsChunked (codes "g") not_chunked [] }
{}

/// Sixteen digits `f` may begin a size line; seventeen say a size past 64 bits.
pub fn seventeen_digits_are_refused()
    ensures sixteen { IsChunked (codes "ffffffffffffffff") unfinished [] }
    ensures seventeen { IsChunked (codes "fffffffffffffffff") not_chunked [] }
{}

/// Zeros in front of a size do not count towards its bound.
pub fn zeros_in_front_are_free()
    ensures { IsChunked (codes "0000000000000000000001\r\nz\r\n0\r\n\r\n") (whole 32 []) (record { start = 24; end = 25 } ∷ []) }
{}

/// A size line may have blanks and an extension, which are no part of the body.
pub fn extension_is_passed_over()
    ensures { IsChunked (codes "4 ;name=value\r\ndata\r\n0\r\n\r\n") (whole 26 []) (record { start = 15; end = 19 } ∷ []) }
{}

/// One trailer line, and two: each has its name and its value, with the white space around that.
pub fn trailers_are_told()
    ensures one { IsChunked (codes "4\r\ndata\r\n0\r\nx-sum: 9\r\n\r\n") (whole 24 (record { name = codes "x-sum"; value = codes " 9" } ∷ []))
        (record { start = 3; end = 7 } ∷ []) }
    ensures two { IsChunked (codes "4\r\ndata\r\n0\r\nx-sum: 9\r\nx-size: 4\r\n\r\n")
        (whole 35 (record { name = codes "x-sum"; value = codes " 9" } ∷ record { name = codes "x-size"; value = codes " 4" } ∷ []))
        (record { start = 3; end = 7 } ∷ []) }
{}

/// A trailer line that begins with a blank is refused, also where it could be meant to go on from the line before.
pub fn blank_in_front_is_refused()
    ensures first_line { IsChunked (codes "0\r\n x-sum: 9\r\n\r\n") not_chunked [] }
    ensures folded_line { IsChunked (codes "0\r\nx-sum: 9\r\n 10\r\n\r\n") not_chunked [] }
{}

/// So is one with a blank in its name, or behind it.
pub fn blank_in_a_name_is_refused()
    ensures within { IsChunked (codes "0\r\nx sum: 9\r\n\r\n") not_chunked [] }
    ensures behind { IsChunked (codes "0\r\nx-sum : 9\r\n\r\n") not_chunked [] }
{}

/// What is read of a body with a trailer line, and of three bytes that follow it.
pub fn body_is_read()
    ensures { read start (codes "4\r\ndata\r\n0\r\nx-sum: 9\r\n\r\nGET")
        ≡ record { body = codes "data"; trailers = codes "x-sum: 9\r\n"; ending = ends_before (codes "GET") } }
{}

/// What comes next is as much of a chunk as is there: two of its four bytes, and then, behind them, the other two.
pub fn chunk_is_taken()
    ensures middle { take_next start (codes "4\r\nda") ≡ record { trailers = []; next = chunk (codes "da") (in_bytes 1) [] } }
    ensures end { take_next (in_bytes 1) (codes "ta\r\n0\r\n") ≡ record { trailers = []; next = chunk (codes "ta") bytes_end (codes "\r\n0\r\n") } }
{}

/// In a trailer section that is cut in a name, nothing comes next yet; its three bytes are noted, and leave room for 8189.
pub fn cut_name_waits()
    ensures { take_next start (codes "0\r\nx-s") ≡ record { trailers = codes "x-s"; next = waits (in_section in_name 64 8189) } }
{}

/// A body may have 64 trailer lines `a:b`, and no byte of one more.
pub fn sixty_four_lines_are_allowed()
    ensures sixty_four { IsChunked (codes "0\r\n" ++ (repeat 64 (codes "a:b\r\n") ++ codes "\r\n"))
        (whole 325 (replicate 64 (record { name = codes "a"; value = codes "b" }))) [] }
    ensures sixty_five { IsChunked (codes "0\r\n" ++ (repeat 65 (codes "a:b\r\n") ++ codes "\r\n")) not_chunked [] }
    ensures one_byte_more { IsChunked (codes "0\r\n" ++ (repeat 64 (codes "a:b\r\n") ++ codes "a")) not_chunked [] }
{}

/// A trailer line may have 8192 bytes, with its line end: here a name of one byte, the colon, and 8188 bytes `v`. Where
/// its line end could no longer follow, which is at the 8189th `v`, it is broken.
pub fn long_line_is_bounded()
    ensures whole_line { IsChunked (codes "0\r\na:" ++ (replicate 8188 118 ++ codes "\r\n\r\n"))
        (whole 8197 (record { name = codes "a"; value = replicate 8188 118 } ∷ [])) [] }
    ensures goes_on { IsChunked (codes "0\r\na:" ++ replicate 8188 118) unfinished [] }
    ensures breaks { IsChunked (codes "0\r\na:" ++ replicate 8189 118) not_chunked [] }
    ensures longer_line { IsChunked (codes "0\r\na:" ++ (replicate 8189 118 ++ codes "\r\n\r\n")) not_chunked [] }
{}
