//! What is written of a body can be read again.
ghost use Rattle.std.specs.Prelude.{◌≡◌, ℕ, List, [], ◌∷◌, ◌++◌, take, false};
ghost use Rattle.model_h1.specs.ChunkedText.{ChunkedText, chunked_text, IsChunkedText, content};
ghost use Rattle.model_h1.specs.Place.{start};
ghost use Rattle.model_h1.specs.Reading.{ends_before, read};
ghost use Rattle.h1_encoder.specs.Encoding.{as_it_is, in_chunks, of_length, encoded_all};
ghost use Rattle.h1_encoder.specs.Pieces.{AreShort, AreFilled, written, joined};

/// The pieces of a body, each put as a chunk, and the last chunk behind them are the text of a body in chunks
/// without trailers, whose bytes are the pieces' bytes; a piece without bytes adds nothing.
pub fn what_is_written_is_a_body()
    ensures { (pieces : List (List ℕ)) → AreShort pieces
        → (t : ChunkedText) × IsChunkedText t × (chunked_text t ≡ written pieces) × (content t ≡ joined pieces) × (t.trailers ≡ []) }
{}

/// They are read as the pieces' bytes and their end, whatever follows, however what is written is cut.
pub fn what_is_written_is_read()
    ensures { (pieces : List (List ℕ)) (rest : List ℕ) → AreShort pieces
        → read start (written pieces ++ rest) ≡ record { body = joined pieces; trailers = []; ending = ends_before rest } }
{}

/// What is written of a body that is encoded piece by piece and then ended. In chunks it is a chunk for each piece
/// and one last chunk, also where an empty piece ended it, behind which nothing is written. Of a stated length it
/// is the first bytes of the pieces, and of a raw body all.
pub fn a_body_is_ended_once()
    ensures chunks { (pieces : List (List ℕ)) → AreFilled pieces → encoded_all (in_chunks false) pieces ≡ written pieces }
    ensures by_an_empty_piece { (pieces later : List (List ℕ)) → AreFilled pieces → encoded_all (in_chunks false) (pieces ++ [] ∷ later) ≡ written pieces }
    ensures stated { (n : ℕ) (pieces : List (List ℕ)) → encoded_all (of_length n) pieces ≡ take n (joined pieces) }
    ensures raw { (pieces : List (List ℕ)) → encoded_all as_it_is pieces ≡ joined pieces }
{}
