//! Worked examples of the definitions, all values written out.

ghost use Rattle.std.specs.Prelude.{◌≡◌, ◌∷◌, [], None, Some, codes, true, false, length};
ghost use Rattle.model_h1.specs.Answer.{AnswerHead, size_of, shape_none};
ghost use Rattle.model_h1.specs.AnswerText.{head_text, chunk_text, camel_case};
ghost use Rattle.model_h1.specs.HeadPiece.{IsHeadPiece};
ghost use Rattle.model_h1.specs.LengthTable.{body_kind, connection_of};
ghost use Rattle.model_h1.specs.Request.{Header, no_body, fixed_body, keep_alive, head_is};
ghost use Rattle.model_h1.specs.Parse.{IsParse, content, ended_at};

/// An empty line in front of the head is passed over, and the head ends with its first empty line.
pub fn head_behind_an_empty_line()
    ensures { IsHeadPiece (codes "\r\nA\n\n") 2 5 }
{}

/// Two lengths are refused, though they agree.
pub fn two_lengths()
    ensures { body_kind 1 (codes "POST")
        (record { name = codes "content-length"; value = codes "3" }
        ∷ record { name = codes "content-length"; value = codes "3" } ∷ []) ≡ None }
{}

/// A length is digits alone: a sign is refused.
pub fn signed_length()
    ensures { body_kind 1 (codes "POST") (record { name = codes "content-length"; value = codes "+3" } ∷ []) ≡ None }
{}

/// A length may begin with zeros.
pub fn length_with_zeros()
    ensures { body_kind 1 (codes "POST") (record { name = codes "content-length"; value = codes "007" } ∷ [])
        ≡ Some (fixed_body 7) }
{}

/// HTTP/1.1 knows no transfer coding but chunked.
pub fn identity_coding()
    ensures { body_kind 1 (codes "POST") (record { name = codes "transfer-encoding"; value = codes "identity" } ∷ [])
        ≡ None }
{}

/// A length beside chunks is refused.
pub fn length_beside_chunked()
    ensures { body_kind 1 (codes "POST")
        (record { name = codes "content-length"; value = codes "3" }
        ∷ record { name = codes "transfer-encoding"; value = codes "chunked" } ∷ []) ≡ None }
{}

/// The last `Connection` line decides, and one with no known word leaves the version's own rule.
pub fn last_connection_line()
    ensures { connection_of 1
        (record { name = codes "connection"; value = codes "close" }
        ∷ record { name = codes "connection"; value = codes "x" } ∷ []) ≡ keep_alive }
{}

/// The head of an empty answer at the first moment: 75 bytes.
pub fn first_answer()
    ensures text { head_text 1
        (record { status = 200; reason = None; closes = false; keeps_alive = false; upgrades = false; no_chunking = false; in_camel_case = false; headers = [] })
        shape_none (size_of 0) keep_alive 0
        ≡ codes "HTTP/1.1 200 OK\r\ncontent-length: 0\r\ndate: Thu, 01 Jan 1970 00:00:00 GMT\r\n\r\n" }
    ensures size { length (head_text 1
        (record { status = 200; reason = None; closes = false; keeps_alive = false; upgrades = false; no_chunking = false; in_camel_case = false; headers = [] })
        shape_none (size_of 0) keep_alive 0) ≡ 75 }
{}

/// A chunk says its length in hexadecimal digits.
pub fn one_chunk()
    ensures { chunk_text (codes "test") ≡ codes "4\r\ntest\r\n" }
{}

/// In camel case the letter behind a hyphen is raised, and what stands behind two hyphens isn't.
pub fn camel_names()
    ensures usual { camel_case (codes "content-length") ≡ codes "Content-Length" }
    ensures hyphens { camel_case (codes "a--b") ≡ codes "A--b" }
{}

/// The bytes of one request are one message: its head is read, it has no body, and it asks to keep the connection.
pub fn first_request()
    ensures { IsParse
        (record { bytes = codes "GET / HTTP/1.1\r\nhost: a\r\n\r\n"; upgraded = None; ended = false; hold_size = 131072 })
        (record {
          reading = head_is (record {
            method = codes "GET";
            target = codes "/";
            minor = 1;
            headers = record { name = codes "host"; value = codes "a" } ∷ [];
            body = no_body;
            connection = keep_alive;
            expects = false;
          });
          body_start = 27;
          body = content [] (ended_at 27 []);
        } ∷ []) }
{}
