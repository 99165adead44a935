//! Worked examples: what may be asked, why a connection closes, and which body an answer has.
ghost use Rattle.std.specs.Prelude.{◌≡◌, [], ◌∷◌, true, false, Some, None, codes};
ghost use Rattle.model_h1.specs.Answer.{size_none, size_of, size_stream, shape_chunked};
ghost use Rattle.model_h1.specs.Request.{no_body, fixed_body, chunked_body, raw_body};
ghost use Rattle.model_state.specs.Kept.{no_rest, fixed_rest};
ghost use Rattle.model_client.specs.ClientEvent as on;
ghost use Rattle.model_client.specs.WrittenHead.{line_of};
ghost use Rattle.model_client.specs.ClientKept.{fresh_client, waiting_of, client_allows, client_closing, is_free, is_reusable};
ghost use Rattle.model_client.specs.ClientStep.{new_body};
ghost use Rattle.model_client.specs.Examples.{narrow, request, upgrading, waits_for, waits_for_get, ok, answer, switched, closes_after, read_in_chunks, dropped_in_chunks};

/// A further request may be asked while one waits, but not while a body is sent, while too much is to be written, or after a
/// request that asks that the connection closes or for another protocol. HTTP/1.0 has no chunks, its POST states a length,
/// and CONNECT isn't asked.
pub fn what_may_be_asked()
    ensures first { client_allows narrow fresh_client (on.ask (request (codes "GET") 1) size_none) ≡ true }
    ensures further { client_allows narrow (waits_for_get false) (on.ask (request (codes "GET") 1) size_none) ≡ true }
    ensures in_chunks { client_allows narrow fresh_client (on.ask (request (codes "POST") 1) size_stream) ≡ true }
    ensures older { client_allows narrow fresh_client (on.ask (request (codes "POST") 0) size_stream) ≡ false }
    ensures older_with_length { client_allows narrow fresh_client (on.ask (request (codes "POST") 0) (size_of 3)) ≡ true }
    ensures older_without_length { client_allows narrow fresh_client (on.ask (request (codes "POST") 0) size_none) ≡ false }
    ensures older_with_length_of_0 { client_allows narrow fresh_client (on.ask (request (codes "POST") 0) (size_of 0)) ≡ true }
    ensures older_get { client_allows narrow fresh_client (on.ask (request (codes "GET") 0) size_none) ≡ true }
    ensures without_length { client_allows narrow fresh_client (on.ask (request (codes "POST") 1) size_none) ≡ true }
    ensures newer { client_allows narrow fresh_client (on.ask (request (codes "GET") 2) size_none) ≡ false }
    ensures connect { client_allows narrow fresh_client (on.ask (request (codes "CONNECT") 1) size_none) ≡ false }
    ensures after_the_last { client_allows narrow (waits_for_get true) (on.ask (request (codes "GET") 1) size_none) ≡ false }
    ensures upgrade { client_allows narrow fresh_client (on.ask upgrading size_none) ≡ true }
    ensures after_an_upgrade { client_allows narrow (waits_for (waiting_of upgrading)) (on.ask (request (codes "GET") 1) size_none) ≡ false }
    ensures after_a_plain_one { waiting_of (request (codes "GET") 1) ≡ record { method = codes "GET"; closes = false } }
    ensures while_a_body_is_sent { client_allows narrow (record fresh_client { sending = Some (record { shape = shape_chunked; missing = 0 }) })
        (on.ask (request (codes "GET") 1) size_none) ≡ false }
    ensures without_room { client_allows narrow (record fresh_client { buffered = codes "a" }) (on.ask (request (codes "GET") 1) size_none) ≡ false }
{}

/// Bytes that nobody asked for close the connection, as the end of the input does, once nothing is left to hand out; and a
/// connection with either isn't used again.
pub fn why_it_closes()
    ensures fresh { client_closing fresh_client ≡ None }
    ensures unasked { client_closing (record fresh_client { unread = codes "H" }) ≡ Some on.unasked }
    ensures awaited { client_closing (record (waits_for_get false) { unread = codes "H" }) ≡ None }
    ensures ended { client_closing (record (waits_for_get false) { has_ended = true }) ≡ Some on.input_ended }
    ensures still_coming { client_closing (record (waits_for_get false) { has_ended = true; is_coming = true }) ≡ None }
    ensures reusable { is_reusable fresh_client ≡ true }
    ensures not_while_waiting { is_reusable (waits_for_get false) ≡ false }
    ensures not_after_bytes { is_reusable (record fresh_client { unread = codes "H" }) ≡ false }
    ensures not_after_the_end { is_reusable (record fresh_client { has_ended = true }) ≡ false }
{}

/// After HEAD no body follows, though the head states a length; after GET all its bytes are left.
pub fn bodies_of_answers()
    ensures head { new_body false [] (codes "HEAD") (ok (fixed_body 3)) ≡ record { rest = no_rest; is_done = true; was_dropped = false } }
    ensures get { new_body false [] (codes "GET") (ok (fixed_body 3)) ≡ record { rest = fixed_rest 3; is_done = false; was_dropped = false } }
{}

/// A body without a length goes on to the end of the input, so the connection closes after it. After HEAD there is none, and
/// the lines decide.
pub fn answers_without_a_length()
    ensures get { closes_after (codes "GET") (answer 1 [] raw_body) ≡ true }
    ensures head { closes_after (codes "HEAD") (answer 1 [] raw_body) ≡ false }
    ensures head_that_closes { closes_after (codes "HEAD") (answer 1 (line_of (codes "connection") (codes "close") ∷ []) raw_body) ≡ true }
    ensures older_head { closes_after (codes "HEAD") (answer 0 [] raw_body) ≡ true }
{}

/// After a 101 no answer is read, though no line names another protocol, and after HEAD too.
pub fn other_protocols()
    ensures get { closes_after (codes "GET") switched ≡ true }
    ensures head { closes_after (codes "HEAD") switched ≡ true }
{}

/// An answer that others would frame in another way is the last one: one of HTTP/1.0 with a coding, and one with a coding
/// and a length (RFC 9112, sections 6.1 and 6.3).
pub fn ambiguous_answers()
    ensures older_with_coding { closes_after (codes "GET") (answer 0 (line_of (codes "connection") (codes "keep-alive")
        ∷ line_of (codes "transfer-encoding") (codes "chunked") ∷ line_of (codes "content-length") (codes "5") ∷ []) (fixed_body 5)) ≡ true }
    ensures older { closes_after (codes "GET") (answer 0 (line_of (codes "connection") (codes "keep-alive")
        ∷ line_of (codes "content-length") (codes "5") ∷ []) (fixed_body 5)) ≡ false }
    ensures both { closes_after (codes "GET") (answer 1 (line_of (codes "content-length") (codes "5")
        ∷ line_of (codes "transfer-encoding") (codes "chunked") ∷ []) chunked_body) ≡ true }
    ensures chunks { closes_after (codes "GET") (answer 1 (line_of (codes "transfer-encoding") (codes "chunked") ∷ []) chunked_body) ≡ false }
    ensures nothing { closes_after (codes "GET") (answer 1 (line_of (codes "content-length") (codes "0") ∷ []) no_body) ≡ false }
{}

/// A dropped body that breaks the grammar of chunks closes the connection at once, though the input goes on. Nothing is
/// pulled of a dropped body.
pub fn dropped_bodies()
    ensures broken { client_closing (dropped_in_chunks (codes "zz")) ≡ Some on.broken_answer }
    ensures broken_is_done { is_free (dropped_in_chunks (codes "zz")) ≡ true }
    ensures broken_is_passed { (dropped_in_chunks (codes "zz")).unread ≡ [] }
    ensures open { is_free (dropped_in_chunks (codes "1")) ≡ false }
    ensures not_pulled { client_allows narrow (dropped_in_chunks (codes "1")) on.pull ≡ false }
    ensures pulled_else { client_allows narrow (read_in_chunks (codes "1")) on.pull ≡ true }
    ensures whole { is_free (dropped_in_chunks (codes "0\r\n\r\nH")) ≡ true }
    ensures behind_whole { (dropped_in_chunks (codes "0\r\n\r\nH")).unread ≡ codes "H" }
{}
