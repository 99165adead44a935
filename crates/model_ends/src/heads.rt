//! Heads that are written are read back as they were.

ghost use Rattle.std.specs.Prelude.{◌≡◌, ◌⊎◌, ℕ, ◌+◌, ◌<◌, ◌≤◌, ◌^◌, ◌/◌, true, false, List, [], ◌∷◌, ◌++◌, length, codes, bytes_eq, decimal, Some};
ghost use Rattle.std.specs.List.{AllByRecursion};
ghost use Rattle.http.specs.StatusCode.{IsStatusCode};
ghost use Rattle.httparse.specs.Grammar.{ResponseHead, print_response, IsResponseHead, RequestHead, print_request, IsRequestHead, AllPass, is_value_byte, trim_ows};
ghost use Rattle.model_h1.specs.Request.{Header, ConnectionType};
ghost use Rattle.model_h1.specs.HeadPiece.{IsHeadPiece};
ghost use Rattle.model_h1.specs.RequestHead.{IsHeadOf};
ghost use Rattle.model_h1.specs.Limits.{MAX_MOMENT};
ghost use Rattle.model_h1.specs.LengthTable.{values_of, length_value};
ghost use Rattle.model_h1.specs.Answer.{AnswerHead, Shape, BodySize, has_header};
ghost use Rattle.model_h1.specs.AnswerText.{by_name, head_text, date_of};
ghost use Rattle.model_client.specs.WrittenHead.{written_lines, written_reason, IsCleanLine, IsCleanHeader, IsCleanReason, IsReadBack};
ghost use Rattle.model_client.specs.RequestText.{AskedHead, request_lines, request_text, head_said, asked_shape, fits, IsPlainRequest};

/// A head of the grammar without empty lines in front is the head on the stream, whatever follows.
pub fn written_heads_are_pieces()
    ensures answer { (h : ResponseHead) (rest : List ℕ) → IsResponseHead h → h.blank ≡ []
        → IsHeadPiece (print_response h ++ rest) 0 (length (print_response h)) }
    ensures request { (h : RequestHead) (rest : List ℕ) → IsRequestHead h → h.blank ≡ []
        → IsHeadPiece (print_request h ++ rest) 0 (length (print_request h)) }
{}

/// The head of an answer, written with a reason and lines that are clean, is read back: its version, status, reason and lines.
pub fn written_heads_are_read_back()
    ensures { (minor : ℕ) (answer : AnswerHead) (shape : Shape) (size : BodySize) (kind : ConnectionType) (now : ℕ)
        → minor ≤ 1 → IsStatusCode answer.status → AllPass is_value_byte (written_reason answer)
        → AllByRecursion (IsCleanLine answer.in_camel_case) (written_lines minor answer shape size kind now)
        → IsReadBack (head_text minor answer shape size kind now) minor answer.status (written_reason answer)
        (written_lines minor answer shape size kind now) }
{}

/// A head whose own headers and reason are clean is read back, whatever lines a writer adds; so a request's lines are clean.
pub fn clean_heads_are_read_back()
    ensures answer { (minor : ℕ) (answer : AnswerHead) (shape : Shape) (size : BodySize) (kind : ConnectionType) (now : ℕ)
        → minor ≤ 1 → IsStatusCode answer.status → IsCleanReason answer.reason → AllByRecursion IsCleanHeader answer.headers
        → fits size → now < MAX_MOMENT
        → IsReadBack (head_text minor answer shape size kind now) minor answer.status (written_reason answer)
        (written_lines minor answer shape size kind now) }
    ensures request { (r : AskedHead) (shape : Shape) (size : BodySize) (kind : ConnectionType) (now : ℕ)
        → AllByRecursion IsCleanHeader r.headers → fits size → now < MAX_MOMENT
        → AllByRecursion (IsCleanLine r.in_camel_case) (request_lines r shape size kind now) }
{}

/// The head of a plain request is read back as it is written, with the kind of its body.
pub fn plain_requests_are_read_back()
    ensures { (r : AskedHead) (size : BodySize) (kind : ConnectionType) (now : ℕ) → IsPlainRequest r (asked_shape size) size kind now
        → fits size → IsHeadOf (request_text r (asked_shape size) size kind now) (head_said r (asked_shape size) size kind now) }
{}

/// A length that is written is read.
pub fn lengths_are_read_back()
    ensures { (n : ℕ) → n < 2 ^ 64 → length_value (trim_ows (decimal n)) ≡ Some n }
{}

/// The values that are read of a name are those that were given, in their order: of each name but those of the connection and
/// of framing, which are the writer's. So the lines of a head are not the writer's choice.
pub fn values_are_read_back()
    ensures by_name { (name : List ℕ) (hs : List Header) → values_of name (by_name hs) ≡ values_of name hs }
    ensures answer { (name : List ℕ) → bytes_eq name (codes "connection") ≡ false → bytes_eq name (codes "content-length") ≡ false
        → bytes_eq name (codes "transfer-encoding") ≡ false → (minor : ℕ) (answer : AnswerHead) (shape : Shape) (size : BodySize)
        (kind : ConnectionType) (now : ℕ) → (bytes_eq name (codes "date") ≡ false) ⊎ (has_header (codes "date") answer.headers ≡ true)
        → values_of name (written_lines minor answer shape size kind now) ≡ values_of name answer.headers }
    ensures request { (name : List ℕ) → bytes_eq name (codes "connection") ≡ false → bytes_eq name (codes "content-length") ≡ false
        → bytes_eq name (codes "transfer-encoding") ≡ false → (r : AskedHead) (shape : Shape) (size : BodySize) (kind : ConnectionType)
        (now : ℕ) → (bytes_eq name (codes "date") ≡ false) ⊎ (has_header (codes "date") r.headers ≡ true)
        → values_of name (request_lines r shape size kind now) ≡ values_of name r.headers }
    ensures date { (minor : ℕ) (answer : AnswerHead) (shape : Shape) (size : BodySize) (kind : ConnectionType) (now : ℕ)
        → has_header (codes "date") answer.headers ≡ false
        → values_of (codes "date") (written_lines minor answer shape size kind now) ≡ date_of (now / 1000) ∷ [] }
{}
