//! Laws of the grammar: bytes stand in one way to the bodies in chunks, and bytes that follow only add to it.

ghost use Rattle.std.specs.Prelude.{◌≡◌, ℕ, List, ◌++◌, length};
ghost use Rattle.model_h1.specs.ChunkedText.{Trailer, ChunkedText, content};
ghost use Rattle.model_h1.specs.Runs.{Run, segment_runs, cut_runs, run_bytes};
ghost use Rattle.model_h1.specs.Chunked.{Chunked, whole, unfinished, not_chunked, Spells, IsChunked};

/// Bytes stand in one way to the bodies in chunks, with one list of runs and of trailers.
pub fn chunked_is_unique()
    ensures verdict { (bytes : List ℕ) (a b : Chunked) (runs runs' : List Run) → IsChunked bytes a runs → IsChunked bytes b runs' → a ≡ b }
    ensures places { (bytes : List ℕ) (a b : Chunked) (runs runs' : List Run) → IsChunked bytes a runs → IsChunked bytes b runs' → runs ≡ runs' }
{}

/// All bytes are a whole body with what follows it, the beginning of one, or neither.
pub fn every_text_is_read()
    ensures { (bytes : List ℕ) → (a : Chunked) × (runs : List Run) × IsChunked bytes a runs }
{}

/// Bytes that follow a whole body do not change it.
pub fn whole_body_stays()
    ensures { (bytes more : List ℕ) (k : ℕ) (trailers : List Trailer) (runs : List Run) → IsChunked bytes (whole k trailers) runs
        → IsChunked (bytes ++ more) (whole k trailers) runs }
{}

/// Bytes that begin no body stay so, whatever follows.
pub fn broken_body_stays()
    ensures { (bytes more : List ℕ) (runs : List Run) → IsChunked bytes not_chunked runs → IsChunked (bytes ++ more) not_chunked runs }
{}

/// The runs of a beginning are those of any longer text, as far as the beginning reaches.
pub fn runs_only_grow()
    ensures { (bytes more : List ℕ) (a : Chunked) (runs runs' : List Run) → IsChunked bytes unfinished runs → IsChunked (bytes ++ more) a runs'
        → runs ≡ cut_runs (length bytes) runs' }
{}

/// The places of a whole body's runs hold the bytes of its segments.
pub fn runs_hold_the_bytes()
    ensures { (bytes : List ℕ) (t : ChunkedText) → Spells bytes t → run_bytes bytes (segment_runs 0 t.segments) ≡ content t }
{}
