//! Worked examples of the table: where the body of an answer ends, and what becomes of the connection.

ghost use Rattle.std.specs.Prelude.{◌≡◌, ◌∷◌, [], None, Some, codes, true, false};
ghost use Rattle.model_h1.specs.Request.{Header, no_body, fixed_body, chunked_body, raw_body, close, keep_alive, upgrade};
ghost use Rattle.model_client.specs.AnswerTable.{answer_kind, answer_connection, body_to};
ghost use Rattle.model_client.specs.AnswerParse.{is_interim};
ghost use Rattle.model_client.specs.WrittenHead.{line_of};

/// After the answer to HEAD no body follows, though the head states a length.
pub fn head_has_no_body()
    ensures head { body_to (codes "HEAD") (fixed_body 3) ≡ no_body }
    ensures get { body_to (codes "GET") (fixed_body 3) ≡ fixed_body 3 }
{}

/// After 204 and 304 no body follows, though the head states a length.
pub fn some_statuses_have_no_body()
    ensures no_content { answer_kind 1 204 (line_of (codes "content-length") (codes "3") ∷ []) ≡ Some no_body }
    ensures not_modified { answer_kind 1 304 (line_of (codes "content-length") (codes "3") ∷ []) ≡ Some no_body }
    ensures ok { answer_kind 1 200 (line_of (codes "content-length") (codes "3") ∷ []) ≡ Some (fixed_body 3) }
{}

/// An interim answer has no body, and its request waits on; a 101 is none.
pub fn interim_answers()
    ensures body { answer_kind 1 100 [] ≡ Some no_body }
    ensures waits { is_interim 103 ≡ true }
    ensures switching { is_interim 101 ≡ false }
    ensures ok { is_interim 200 ≡ false }
{}

/// A 101 passes on what follows it, and doesn't close the connection.
pub fn switching_is_raw()
    ensures body { answer_kind 1 101 (line_of (codes "connection") (codes "upgrade") ∷ []) ≡ Some raw_body }
    ensures connection { answer_connection 1 101 (line_of (codes "connection") (codes "upgrade") ∷ []) raw_body ≡ upgrade }
{}

/// Chunks beside a length are chunks: a client takes what a server refuses.
pub fn chunks_beside_a_length()
    ensures { answer_kind 1 200 (line_of (codes "content-length") (codes "3") ∷ line_of (codes "transfer-encoding") (codes "chunked") ∷ [])
        ≡ Some chunked_body }
{}

/// A length that stands twice is refused, even where both are the same; so is one that is no number.
pub fn bad_lengths()
    ensures twice { answer_kind 1 200 (line_of (codes "content-length") (codes "3") ∷ line_of (codes "content-length") (codes "3") ∷ []) ≡ None }
    ensures no_number { answer_kind 1 200 (line_of (codes "content-length") (codes "+3") ∷ []) ≡ None }
    ensures before_no_body { answer_kind 1 204 (line_of (codes "content-length") (codes "x") ∷ []) ≡ None }
{}

/// HTTP/1.0 passes over codings, whichever and however many: the length holds.
pub fn older_version_knows_no_coding()
    ensures one { answer_kind 0 200 (line_of (codes "transfer-encoding") (codes "chunked") ∷ line_of (codes "content-length") (codes "3") ∷ [])
        ≡ Some (fixed_body 3) }
    ensures two { answer_kind 0 200 (line_of (codes "transfer-encoding") (codes "gzip") ∷ line_of (codes "transfer-encoding") (codes "chunked") ∷ [])
        ≡ Some raw_body }
{}

/// HTTP/1.1 takes one coding, which is chunked or identity.
pub fn codings()
    ensures identity { answer_kind 1 200 (line_of (codes "transfer-encoding") (codes "Identity") ∷ []) ≡ Some raw_body }
    ensures gzip { answer_kind 1 200 (line_of (codes "transfer-encoding") (codes "gzip") ∷ []) ≡ None }
    ensures twice { answer_kind 1 200 (line_of (codes "transfer-encoding") (codes "chunked") ∷ line_of (codes "transfer-encoding") (codes "chunked") ∷ [])
        ≡ None }
{}

/// A length of 0 is no body. Without a length the body goes on to the end of the input, and the connection closes then,
/// whatever its line says.
pub fn without_a_length()
    ensures zero { answer_kind 1 200 (line_of (codes "content-length") (codes "0") ∷ []) ≡ Some no_body }
    ensures none { answer_kind 1 200 [] ≡ Some raw_body }
    ensures closes { answer_connection 1 200 (line_of (codes "connection") (codes "keep-alive") ∷ []) raw_body ≡ close }
    ensures keeps { answer_connection 1 200 [] no_body ≡ keep_alive }
{}
