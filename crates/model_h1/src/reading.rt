//! Laws of reading: going byte by byte from place to place finds just what the grammar says.

ghost use Rattle.std.specs.Prelude.{◌≡◌, ℕ, ◌≤◌, List, ◌++◌, length, drop};
ghost use Rattle.model_h1.specs.ChunkedText.{MAX_TRAILER_BYTES, Trailer, ChunkedText, section_text, chunked_text, IsChunkedText, content};
ghost use Rattle.model_h1.specs.Runs.{Run, run_bytes};
ghost use Rattle.model_h1.specs.Chunked.{Chunked, whole, unfinished, not_chunked, IsBeginning, IsChunked};
ghost use Rattle.model_h1.specs.Place.{start};
ghost use Rattle.model_h1.specs.Reading.{goes_on, is_broken, ends_before, read};

/// The text of a body is read as its bytes, its trailers and its end, whatever follows.
pub fn text_is_read()
    ensures { (t : ChunkedText) (rest : List ℕ) → IsChunkedText t
        → read start (chunked_text t ++ rest) ≡ record { body = content t; trailers = section_text t.trailers; ending = ends_before rest } }
{}

/// What is read up to an end is the text of a body.
pub fn what_ends_is_a_text()
    ensures { (bytes rest : List ℕ) → (read start bytes).ending ≡ ends_before rest
        → (t : ChunkedText) × IsChunkedText t × (bytes ≡ chunked_text t ++ rest) }
{}

/// What is read and goes on is the beginning of a body.
pub fn what_goes_on_is_a_beginning()
    ensures { (bytes : List ℕ) → (read start bytes).ending ≡ goes_on → (t : ChunkedText) × IsBeginning bytes t }
{}

/// No body begins with what is broken.
pub fn what_is_broken_begins_nothing()
    ensures { (bytes more rest : List ℕ) (t : ChunkedText) → (read start bytes).ending ≡ is_broken → IsChunkedText t
        → ¬ (bytes ++ more ≡ chunked_text t ++ rest) }
{}

/// The grammar and the reading agree on how the bytes stand to a body, and on its bytes and trailers.
pub fn grammar_is_read()
    ensures whole_body { (bytes : List ℕ) (k : ℕ) (trailers : List Trailer) (runs : List Run) → IsChunked bytes (whole k trailers) runs
        → ((read start bytes).ending ≡ ends_before (drop k bytes)) × ((read start bytes).trailers ≡ section_text trailers) }
    ensures beginning { (bytes : List ℕ) (runs : List Run) → IsChunked bytes unfinished runs → (read start bytes).ending ≡ goes_on }
    ensures no_body { (bytes : List ℕ) (runs : List Run) → IsChunked bytes not_chunked runs → (read start bytes).ending ≡ is_broken }
    ensures body_bytes { (bytes : List ℕ) (a : Chunked) (runs : List Run) → IsChunked bytes a runs → (read start bytes).body ≡ run_bytes bytes runs }
{}

/// The text of the trailer lines stays within its limit, whether the bytes are a body or not.
pub fn trailers_are_bounded()
    ensures { (bytes : List ℕ) → length (read start bytes).trailers ≤ MAX_TRAILER_BYTES }
{}
