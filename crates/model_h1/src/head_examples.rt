//! Worked examples of heads: what is refused, and where a body ends.

ghost use Rattle.std.specs.Prelude.{◌≡◌, ◌∷◌, ◌++◌, [], None, Some, codes};
ghost use Rattle.std.specs.List.{repeat};
ghost use Rattle.model_h1.specs.HeadPiece.{header_lines};
ghost use Rattle.model_h1.specs.LengthTable.{body_kind, connection_of, expects_continue};
ghost use Rattle.model_h1.specs.Request.{Header, no_body, chunked_body, raw_body, close, keep_alive, malformed, too_large, faulty};
ghost use Rattle.model_h1.specs.RequestHead.{IsReading, IsReadingWithin};

/// 97 header lines are too many, and 96 aren't.
pub fn too_many_lines()
    ensures many { IsReading (codes "GET / HTTP/1.1\r\n" ++ (repeat 97 (codes "a:\r\n") ++ codes "\r\n")) (faulty too_large) }
    ensures enough { header_lines (codes "GET / HTTP/1.1\r\n" ++ (repeat 96 (codes "a:\r\n") ++ codes "\r\n")) ≡ 96 }
{}

/// A head of 18 bytes is too large where 17 may be held.
pub fn longer_than_is_held()
    ensures { IsReadingWithin 17 (codes "GET / HTTP/1.1\r\n\r\n") (faulty too_large) }
{}

/// A request line without a target is no head.
pub fn method_alone()
    ensures { IsReading (codes "GET\r\n\r\n") (faulty malformed) }
{}

/// The bytes behind the head of a CONNECT go on to the end of the input, unless it states a length.
pub fn connect_is_raw()
    ensures raw { body_kind 1 (codes "CONNECT") [] ≡ Some raw_body }
    ensures no_length { body_kind 1 (codes "CONNECT") (record { name = codes "content-length"; value = codes "0" } ∷ []) ≡ Some raw_body }
{}

/// A POST of HTTP/1.0 needs a length, and one of HTTP/1.1 has no body without one.
pub fn post_without_a_length()
    ensures refused { body_kind 0 (codes "POST") [] ≡ None }
    ensures taken { body_kind 1 (codes "POST") [] ≡ Some no_body }
{}

/// A request that asks for a WebSocket has a raw body, whatever the case of the word.
pub fn upgrade_is_raw()
    ensures { body_kind 1 (codes "GET") (record { name = codes "upgrade"; value = codes "WebSocket" } ∷ []) ≡ Some raw_body }
{}

/// Chunks come before a WebSocket.
pub fn chunks_before_an_upgrade()
    ensures { body_kind 1 (codes "POST")
        (record { name = codes "upgrade"; value = codes "websocket" }
        ∷ record { name = codes "transfer-encoding"; value = codes "chunked" } ∷ []) ≡ Some chunked_body }
{}

/// HTTP/1.0 knows no chunks.
pub fn chunks_of_the_older_version()
    ensures { body_kind 0 (codes "POST")
        (record { name = codes "transfer-encoding"; value = codes "chunked" } ∷ []) ≡ None }
{}
