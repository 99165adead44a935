//! The laws of what a client gets for an answer.

ghost use Rattle.std.specs.Prelude.{◌≡◌, ℕ, true, false, ◌==◌, List, [], ◌∷◌, ◌++◌, codes, bytes_eq, if◌then◌else◌};
ghost use Rattle.model_h1.specs.Request.{Header, ConnectionType};
ghost use Rattle.model_h1.specs.LengthTable.{values_of};
ghost use Rattle.model_h1.specs.Answer.{Shape, BodySize};
ghost use Rattle.model_client.specs.AnswerReading.{Answer};
ghost use Rattle.model_client.specs.WrittenHead.{framing_lines, written_lines};
ghost use Rattle.model_proxy.specs.Edge.{via};
ghost use Rattle.model_proxy.specs.HopNames.{hop_names, is_among, without};
ghost use Rattle.model_proxy.specs.Answers.{reply_lines, reply_head};

/// Lines for one connection alone stay behind, and those that a Connection line names, but for the forwarder's own `Via`.
pub fn hop_lines_of_an_answer_stay_behind()
    ensures { (minor status : ℕ) (headers : List Header) (name : List ℕ) → bytes_eq (codes "via") name ≡ false → is_among name (hop_names headers) ≡ true
        → values_of name (reply_lines minor status headers) ≡ [] }
{}

/// Who passes an answer on stands behind all who did before, with the version in which it came (RFC 9110, section 7.6.3).
pub fn via_is_added_to_answers()
    ensures { (minor status : ℕ) (headers : List Header) → values_of (codes "via") (reply_lines minor status headers)
        ≡ values_of (codes "via") (without (hop_names headers ++ (if status == 304 then [] else codes "content-length" ∷ [])) headers) ++ via minor ∷ [] }
{}

/// No line of the server frames a reply: its length and its coding are those that the client's connection writes, whatever the server
/// sent. A 304 alone, which has no body, may tell a length.
pub fn no_line_of_a_server_frames_a_reply()
    ensures lengths { (minor : ℕ) (a : Answer) (shape : Shape) (size : BodySize) (kind : ConnectionType) (now : ℕ) → (a.status == 304) ≡ false
        → values_of (codes "content-length") (written_lines minor (reply_head a) shape size kind now)
        ≡ values_of (codes "content-length") (framing_lines (reply_head a) shape size) }
    ensures codings { (minor : ℕ) (a : Answer) (shape : Shape) (size : BodySize) (kind : ConnectionType) (now : ℕ)
        → values_of (codes "transfer-encoding") (written_lines minor (reply_head a) shape size kind now)
        ≡ values_of (codes "transfer-encoding") (framing_lines (reply_head a) shape size) }
{}
