//! Worked examples: small requests, answers and histories with all their values.

ghost use Rattle.std.specs.Prelude.{◌≡◌, ℕ, List, [], ◌∷◌, ◌++◌, length, codes, true, false, Option, Some, None};
ghost use Rattle.model_h1.specs.Request.{Head, close, no_body, fixed_body, chunked_body, raw_body, malformed};
ghost use Rattle.model_h1.specs.LengthTable.{values_of};
ghost use Rattle.model_h1.specs.Answer.{size_none, size_of, size_stream};
ghost use Rattle.model_h1.specs.Parse.{no_content, content, still_open, broken, cut};
ghost use Rattle.model_h1.specs.Sums.{Step};
ghost use Rattle.model_h1.specs.Past.{steps};
ghost use Rattle.model_h1.specs.Laws.ExampleTraces.{usual};
ghost use Rattle.model_client.specs.AnswerReading.{answer_is, refused};
ghost use Rattle.model_client.specs.WrittenHead.{line_of};
ghost use Rattle.model_proxy.specs.HopNames.{connection_words};
ghost use Rattle.model_proxy.specs.Edge.{element_of};
ghost use Rattle.model_proxy.specs.Targets.{target_sent};
ghost use Rattle.model_proxy.specs.Judged.{is_refused};
ghost use Rattle.model_proxy.specs.Forward.{is_forwardable, named_host, forwarded_lines, forward};
ghost use Rattle.model_proxy.specs.Answers.{unfinished, bad, whole_at, Found, found_bad, found_by, found_body, found_nothing, IsAnswer, says_close, reply_lines, reply_reason, reply_head, reply_size};
ghost use Rattle.model_proxy.specs.Past.{ProxyStep, client, server, client_eof, server_eof, connected, refused as no_server, to_client, to_server, tick};
ghost use Rattle.model_proxy.specs.Exchange.{Exchange, answer_input};
ghost use Rattle.model_proxy.specs.Forwarding.{IsAlone, IsForwarding};
ghost use Rattle.model_proxy.specs.Rests.{is_event_allowed, RestsWhereItMay};
ghost use Rattle.model_proxy.specs.Laws.Samples.{step, usual_edge, trusting_edge, lax_edge, plain_head, head_for, get_x, told_head, added, sent_now, answer_with, came, hi_text, hi, timeout_text, asked_again, exchange_at};
ghost use Rattle.model_proxy.specs.Laws.Histories.{idle_history, ticked, get_exchange, asked_past, hung_up_history, refused_history, refused_past, refused_exchanges, whole_history, whole_past, whole_exchanges, hostless_history, hostless_past, hostless_exchanges, unforwardable_history, unforwardable_past, unforwardable_exchanges, broken_history, broken_past, broken_exchanges, ticked_past, unasked_history, swallowed_history, swallowed_past, ended_history, drained_past, stuck_history, stuck_past, cut_history, cut_past, dropped_history, dropped_past, dropped_exchanges, closing_text, dead_history};

/// The words of Connection lines are read without case and blanks, and the lines that they name stay behind. Host is written anew, whatever names it.
pub fn a_named_line_stays_behind()
    ensures words { connection_words get_x.headers ≡ codes "x-a" ∷ codes "host" ∷ [] }
    ensures text { forward (sent_now get_x [] true) ≡ codes "GET /x HTTP/1.1\r\n" ++ added }
{}

/// A fragment isn't sent on, where a head with one is taken.
pub fn a_fragment_stays_behind()
    ensures { forward (sent_now (head_for (codes "GET") (codes "/x?y#z") [] no_body) [] true) ≡ codes "GET /x?y HTTP/1.1\r\n" ++ added }
{}

/// Chunks are written anew, each piece as one, and trailers stay behind; the last chunk comes once the body's end was read.
pub fn chunks_are_written_anew()
    ensures { let post : Head = head_for (codes "POST") (codes "/c")
        (line_of (codes "transfer-encoding") (codes "Chunked") ∷ line_of (codes "trailer") (codes "x") ∷ []) chunked_body in
        (forward (sent_now post (codes "abc" ∷ codes "de" ∷ []) false)
        ≡ codes "POST /c HTTP/1.1\r\ntransfer-encoding: chunked\r\n" ++ added ++ codes "3\r\nabc\r\n2\r\nde\r\n")
        × (forward (sent_now post (codes "abc" ∷ codes "de" ∷ []) true)
        ≡ codes "POST /c HTTP/1.1\r\ntransfer-encoding: chunked\r\n" ++ added ++ codes "3\r\nabc\r\n2\r\nde\r\n0\r\n\r\n") }
{}

/// The length is written anew, whatever lines came in beside it; Expect stays behind.
pub fn a_length_is_written_anew()
    ensures { forward (sent_now (head_for (codes "POST") (codes "/p")
        (line_of (codes "content-length") (codes "5") ∷ line_of (codes "content-length") (codes "7")
        ∷ line_of (codes "transfer-encoding") (codes "gzip") ∷ line_of (codes "expect") (codes "100-continue") ∷ []) (fixed_body 3)) (codes "abc" ∷ []) true)
        ≡ codes "POST /p HTTP/1.1\r\ncontent-length: 3\r\n" ++ added ++ codes "abc" }
{}

/// A request that states a length of 0 goes on as one; one that states none goes on without.
pub fn a_length_of_zero_goes_on()
    ensures stated { forward (sent_now (head_for (codes "POST") (codes "/p") (line_of (codes "content-length") (codes "0") ∷ []) no_body) [] true)
        ≡ codes "POST /p HTTP/1.1\r\ncontent-length: 0\r\n" ++ added }
    ensures unstated { forward (sent_now (head_for (codes "POST") (codes "/p") [] no_body) [] true) ≡ codes "POST /p HTTP/1.1\r\n" ++ added }
{}

/// CONNECT, `*` but by OPTIONS, a target of another scheme, or one with a user, and a request for another protocol can't be sent on; an ordinary one
/// can, and one whose target is a whole URI of `http`.
pub fn which_requests_can_be_sent_on()
    ensures ordinary { is_forwardable usual_edge get_x ≡ true }
    ensures connect { is_forwardable usual_edge (head_for (codes "CONNECT") (codes "/x") [] (fixed_body 1)) ≡ false }
    ensures asterisk { is_forwardable usual_edge (head_for (codes "GET") (codes "*") [] no_body) ≡ false }
    ensures options { is_forwardable usual_edge (head_for (codes "OPTIONS") (codes "*") [] no_body) ≡ true }
    ensures absolute { is_forwardable usual_edge (head_for (codes "GET") (codes "HTTP://a/x") [] no_body) ≡ true }
    ensures scheme { is_forwardable usual_edge (head_for (codes "GET") (codes "ftp://a/x") [] no_body) ≡ false }
    ensures protocol { is_forwardable usual_edge (head_for (codes "GET") (codes "/x") [] raw_body) ≡ false }
    ensures no_host { is_forwardable usual_edge (plain_head (codes "GET") (codes "/x") [] no_body) ≡ false }
    ensures user { is_forwardable lax_edge (head_for (codes "GET") (codes "http://u@a/x") [] no_body) ≡ false }
{}

/// A head is refused that has no Host in HTTP/1.1, or two, or none that is one; so are a target with a user, one with a byte from 128 on, one with a
/// fragment, and one that is no path. Where heads are taken that RFC 9112 refuses, none of these is.
pub fn which_heads_are_refused()
    ensures ordinary { is_refused usual_edge get_x ≡ false }
    ensures no_host { is_refused usual_edge (plain_head (codes "GET") (codes "/x") [] no_body) ≡ true }
    ensures no_host_of_old { is_refused usual_edge (record (plain_head (codes "GET") (codes "/x") [] no_body) { minor = 0 }) ≡ false }
    ensures two_hosts { is_refused usual_edge (head_for (codes "GET") (codes "/x") (line_of (codes "host") (codes "a") ∷ []) no_body) ≡ true }
    ensures blank { is_refused usual_edge (plain_head (codes "GET") (codes "/x") (line_of (codes "host") (codes "a b") ∷ []) no_body) ≡ true }
    ensures user { is_refused usual_edge (plain_head (codes "GET") (codes "/x") (line_of (codes "host") (codes "u@a") ∷ []) no_body) ≡ true }
    ensures path { is_refused usual_edge (plain_head (codes "GET") (codes "/x") (line_of (codes "host") (codes "a/b") ∷ []) no_body) ≡ true }
    ensures user_in_target { is_refused usual_edge (head_for (codes "GET") (codes "http://u@a/x") [] no_body) ≡ true }
    ensures high_byte { is_refused usual_edge (head_for (codes "GET") (codes "/" ++ (195 ∷ 164 ∷ [])) [] no_body) ≡ true }
    ensures fragment { is_refused usual_edge (head_for (codes "GET") (codes "/x#y") [] no_body) ≡ true }
    ensures no_path { is_refused usual_edge (head_for (codes "GET") (codes "a:80") [] no_body) ≡ true }
    ensures taken { is_refused lax_edge (plain_head (codes "GET") (codes "/x#y") (line_of (codes "host") (codes "a b") ∷ []) no_body) ≡ false }
{}

/// A server gets the path and the query of a whole URI, and the host that it names, whatever Host says, but `*` for OPTIONS of one that has neither; of
/// a client of HTTP/1.0 that names none it gets its own.
pub fn whole_targets_are_sent_as_paths()
    ensures path { target_sent (codes "GET") (codes "http://c:8/x?y#z") ≡ codes "/x?y" }
    ensures no_path { target_sent (codes "GET") (codes "http://c") ≡ codes "/" }
    ensures query { target_sent (codes "GET") (codes "Http://c?y") ≡ codes "/?y" }
    ensures asterisk { target_sent (codes "OPTIONS") (codes "*") ≡ codes "*" }
    ensures all { target_sent (codes "OPTIONS") (codes "http://c:8") ≡ codes "*" }
    ensures not_all { target_sent (codes "OPTIONS") (codes "http://c:8/") ≡ codes "/" }
    ensures host { named_host (head_for (codes "GET") (codes "http://c:8/x") [] no_body) ≡ Some (codes "c:8") }
    ensures none { forward (sent_now (record (plain_head (codes "GET") (codes "/x") [] no_body) { minor = 0 }) [] true)
        ≡ codes "GET /x HTTP/1.1\r\nhost: b:81\r\nvia: 1.0 raspcream\r\nx-forwarded-for: 192.0.2.1\r\nforwarded: for=_client;proto=http\r\nx-forwarded-proto: http\r\ndate: Thu, 01 Jan 1970 00:00:00 GMT\r\n\r\n" }
{}

/// What a client says of earlier clients stays behind, unless it is trusted: then lists grow by one, and a protocol that was told is kept. Who passed
/// a request on before is kept in either case.
pub fn what_is_told_of_a_client()
    ensures from_stranger { values_of (codes "x-forwarded-for") (forwarded_lines usual_edge told_head) ≡ codes "192.0.2.1" ∷ [] }
    ensures from_friend { values_of (codes "x-forwarded-for") (forwarded_lines trusting_edge told_head) ≡ codes "10.0.0.1" ∷ codes "192.0.2.1" ∷ [] }
    ensures protocol_of_stranger { values_of (codes "x-forwarded-proto") (forwarded_lines usual_edge told_head) ≡ codes "http" ∷ [] }
    ensures protocol_of_friend { values_of (codes "x-forwarded-proto") (forwarded_lines trusting_edge told_head) ≡ codes "https" ∷ [] }
    ensures passed_by { values_of (codes "via") (forwarded_lines usual_edge told_head) ≡ codes "1.1 cache" ∷ codes "1.1 raspcream" ∷ [] }
    ensures element { element_of (codes "192.0.2.1:4711") ≡ codes "for=" ++ (34 ∷ codes "192.0.2.1:4711" ++ 34 ∷ codes ";proto=http") }
{}

/// An answer of two bytes is whole, and is replied with its size; its length line is written anew.
pub fn an_answer_is_found()
    ensures found { IsAnswer (came hi_text false) (codes "GET") (record { response = Some hi; bytes = codes "hi"; fate = whole_at 40 }) }
    ensures size { reply_size false hi ≡ size_of 2 }
    ensures lines { (reply_head hi).headers ≡ line_of (codes "via") (codes "1.1 raspcream") ∷ [] }
{}

/// An interim answer is passed over.
pub fn an_interim_answer_is_passed_over()
    ensures { IsAnswer (came (codes "HTTP/1.1 103 Early Hints\r\n\r\nHTTP/1.1 204 No Content\r\n\r\n") false) (codes "GET")
        (record { response = Some (answer_with 204 (codes "No Content") [] no_body); bytes = []; fate = whole_at 55 }) }
{}

/// Bytes without a whole head are no answer yet, and a bad one once the input has ended, or as many came as may be held.
pub fn a_head_that_never_comes()
    ensures open { (found_nothing (came (codes "HTTP/1.1") false) 0).fate ≡ unfinished }
    ensures ended { (found_nothing (came (codes "HTTP/1.1") true) 0).fate ≡ bad }
    ensures full { (found_nothing (record { bytes = codes "HTTP/1.1"; ended = false; hold_size = Some 8 }) 0).fate ≡ bad }
{}

/// A 101, a head that is read in a second reading alone, and one that is refused are bad; a body that is cut, or breaks, is bad
/// behind its head; one that goes on to the end of the input is whole there.
pub fn bad_answers()
    ensures switching { (later : Found) → found_by (came [] false) (answer_is (answer_with 101 [] [] raw_body)) (content [] still_open) later ≡ found_bad }
    ensures lax { (later : Found) → found_by (came [] false) (answer_is (record hi { is_lax = true })) (content [] still_open) later ≡ found_bad }
    ensures refusal { (later : Found) → found_by (came [] false) (refused malformed) no_content later ≡ found_bad }
    ensures cut { found_body (came [] true) hi (content [] cut) ≡ record { response = Some hi; bytes = []; fate = bad } }
    ensures broken { found_body (came [] false) hi (content [] broken) ≡ record { response = Some hi; bytes = []; fate = bad } }
    ensures to_the_end { IsAnswer (came (codes "HTTP/1.1 200 OK\r\n\r\nabc") true) (codes "GET")
        (record { response = Some (record (answer_with 200 (codes "OK") [] raw_body) { connection = close }); bytes = codes "abc"; fate = whole_at 22 }) }
{}

/// How large a reply is: to HEAD its stated length counts, even beside chunks; a stream stays one; 204 and 304 need no size.
pub fn sizes_of_replies()
    ensures head { reply_size true hi ≡ size_of 2 }
    ensures head_beside_chunks { reply_size true (answer_with 200 [] (line_of (codes "content-length") (codes "9") ∷ line_of (codes "transfer-encoding") (codes "chunked") ∷ []) chunked_body) ≡ size_of 9 }
    ensures head_of_a_stream { reply_size true (answer_with 200 [] [] raw_body) ≡ size_stream }
    ensures chunks { reply_size false (answer_with 200 [] (line_of (codes "content-length") (codes "9") ∷ []) chunked_body) ≡ size_stream }
    ensures no_content { reply_size false (answer_with 204 [] [] no_body) ≡ size_none }
    ensures not_modified { reply_size false (answer_with 304 [] (line_of (codes "content-length") (codes "9") ∷ []) no_body) ≡ size_none }
    ensures empty { reply_size false (answer_with 200 [] (line_of (codes "content-length") (codes "0") ∷ []) no_body) ≡ size_of 0 }
{}

/// A 304 keeps the length that it tells, unless a word of Connection names that; any other answer's is written anew. Behind the lines stands who passes
/// the answer on, and in which version it came.
pub fn lengths_of_replies()
    ensures kept { reply_lines 1 304 (line_of (codes "content-length") (codes "9") ∷ [])
        ≡ line_of (codes "content-length") (codes "9") ∷ line_of (codes "via") (codes "1.1 raspcream") ∷ [] }
    ensures named { reply_lines 1 304 (line_of (codes "content-length") (codes "9") ∷ line_of (codes "connection") (codes "Content-Length") ∷ [])
        ≡ line_of (codes "via") (codes "1.1 raspcream") ∷ [] }
    ensures written_anew { reply_lines 0 200 (line_of (codes "content-length") (codes "9") ∷ line_of (codes "keep-alive") (codes "5") ∷ [])
        ≡ line_of (codes "via") (codes "1.0 raspcream") ∷ [] }
{}

/// The reason is the answer's own, also where it is empty; one that isn't UTF-8 is left out.
pub fn reasons_of_replies()
    ensures own { reply_reason (codes "Fine") ≡ codes "Fine" }
    ensures empty { (reply_head (answer_with 200 [] [] no_body)).reason ≡ Some [] }
    ensures not_text { reply_reason (255 ∷ []) ≡ [] }
{}

/// An answer closes by its type, or by a word of any Connection line.
pub fn which_answers_close()
    ensures by_type { says_close (record hi { connection = close }) ≡ true }
    ensures by_word { says_close (record hi { headers = line_of (codes "connection") (codes "keep-alive, Close") ∷ line_of (codes "connection") (codes "keep-alive") ∷ [] }) ≡ true }
    ensures neither { says_close hi ≡ false }
{}

/// Bytes that came before a request was sent aren't read as its answer.
pub fn earlier_bytes_are_no_answer()
    ensures first { (answer_input usual (asked_again hi_text) 0 2 4).bytes ≡ hi_text }
    ensures second { (answer_input usual (asked_again hi_text) 0 4 4).bytes ≡ [] }
{}

/// A second request may follow on a server connection where its first answer came whole, and not where more bytes came, as a server's
/// word that it closes: a client would read them as its next answer; nor where the answer says that its server closes the connection.
pub fn leftover_bytes_end_a_server_connection()
    ensures whole { IsAlone usual (asked_again hi_text) (exchange_at 2) 0 4 }
    ensures closing { IsAlone usual (asked_again closing_text) (exchange_at 2) 0 4 → ⊥ }
    ensures leftover { IsAlone usual (asked_again (hi_text ++ timeout_text)) (exchange_at 2) 0 4 → ⊥ }
{}

/// At first a client's bytes and its end are taken, a moment, and what is asked to be written towards it; nothing of a server.
pub fn what_is_allowed_at_first()
    ensures bytes { is_event_allowed usual_edge usual [] [] None [] (client (codes "GET")) ≡ true }
    ensures end { is_event_allowed usual_edge usual [] [] None [] client_eof ≡ true }
    ensures moment { is_event_allowed usual_edge usual [] [] None [] (tick 0) ≡ true }
    ensures writing { is_event_allowed usual_edge usual [] [] None [] (to_client 5) ≡ true }
    ensures connection { is_event_allowed usual_edge usual [] [] None [] connected ≡ false }
    ensures refusal { is_event_allowed usual_edge usual [] [] None [] no_server ≡ false }
    ensures server_bytes { is_event_allowed usual_edge usual [] [] None [] (server (codes "HTTP")) ≡ false }
    ensures server_end { is_event_allowed usual_edge usual [] [] None [] server_eof ≡ false }
    ensures server_writing { is_event_allowed usual_edge usual [] [] None [] (to_server 5) ≡ false }
{}

/// Where no server connection is to be had, the request gets 502: this history is one of a forwarder, and then it rests.
pub fn a_refused_connection_gives_502()
    ensures forwards { IsForwarding usual_edge usual refused_history None (steps refused_past) refused_exchanges }
    ensures rests { RestsWhereItMay usual_edge usual refused_past refused_history None refused_exchanges }
{}

/// A request is sent on, and its answer of two bytes passed on: this history is one of a forwarder. Its server connection stays open,
/// and then it rests.
pub fn a_request_and_its_answer_are_passed_on()
    ensures forwards { IsForwarding usual_edge usual whole_history (Some []) (steps whole_past) whole_exchanges }
    ensures rests { RestsWhereItMay usual_edge usual whole_past whole_history (Some []) whole_exchanges }
{}

/// A head of HTTP/1.1 without a host gets 400, and its connection closes: this history is one of a forwarder, and no turn is left.
pub fn a_head_without_a_host_gives_400()
    ensures forwards { IsForwarding usual_edge usual hostless_history None (steps hostless_past) hostless_exchanges }
    ensures rests { RestsWhereItMay usual_edge usual hostless_past hostless_history None hostless_exchanges }
{}

/// A request for another protocol gets 501, and its connection closes: this history is one of a forwarder, and no turn is left.
pub fn a_request_that_cannot_be_sent_on_gives_501()
    ensures forwards { IsForwarding lax_edge usual unforwardable_history None (steps unforwardable_past) unforwardable_exchanges }
    ensures rests { RestsWhereItMay lax_edge usual unforwardable_past unforwardable_history None unforwardable_exchanges }
{}

/// A body that breaks before its answer came gives 400, and both connections close: this history is one of a forwarder, and no turn is
/// left.
pub fn a_broken_body_gives_400()
    ensures forwards { IsForwarding lax_edge usual broken_history None (steps broken_past) broken_exchanges }
    ensures rests { RestsWhereItMay lax_edge usual broken_past broken_history None broken_exchanges }
{}

/// A forwarder that answers 502 without asking for a server connection: whatever is claimed of the request, this isn't one of a forwarder.
pub fn an_unasked_502_is_refused()
    ensures { (waiting : Option (List ℕ)) (xs : List Exchange) → IsForwarding usual_edge usual unasked_history waiting (steps refused_past) xs → ⊥ }
{}

/// A forwarder that takes a whole answer and passes on the one behind it: however late the request is claimed to be sent on, this isn't one
/// of a forwarder.
pub fn a_swallowed_answer_is_refused()
    ensures { (waiting : Option (List ℕ)) (xs : List Exchange) → IsForwarding usual_edge usual swallowed_history waiting (steps swallowed_past) xs → ⊥ }
{}

/// A forwarder that doesn't tell its client's connection that the client has ended.
pub fn an_untold_end_is_refused()
    ensures { (waiting : Option (List ℕ)) (xs : List Exchange) → IsForwarding usual_edge usual ended_history waiting (steps ticked_past) xs → ⊥ }
{}

/// A forwarder that lets its client go after one request, whatever happened.
pub fn an_unasked_end_is_refused()
    ensures { (history : List ProxyStep) (waiting : Option (List ℕ)) (xs : List Exchange) → IsForwarding usual_edge usual history waiting (steps drained_past) xs → ⊥ }
{}

/// A forwarder that keeps a server connection whose input has ended, and reads no next request while much waits towards it.
pub fn a_dead_connection_that_is_kept_is_refused()
    ensures { (waiting : Option (List ℕ)) → RestsWhereItMay usual_edge usual stuck_past stuck_history waiting whole_exchanges → ⊥ }
{}

/// A forwarder that closes its server connection in the midst of an answer, and leaves its client waiting.
pub fn a_cut_answer_that_never_ends_is_refused()
    ensures { RestsWhereItMay usual_edge usual cut_past cut_history None whole_exchanges → ⊥ }
{}

/// A forwarder that sends on the head of a request and leaves its body.
pub fn a_body_that_is_left_is_refused()
    ensures { (waiting : List ℕ) → RestsWhereItMay lax_edge usual dropped_past dropped_history (Some waiting) dropped_exchanges → ⊥ }
{}

/// A forwarder that closes each server connection as soon as it is there, and goes on to want one.
pub fn an_unused_connection_that_is_closed_is_refused()
    ensures { IsForwarding usual_edge usual hung_up_history None (steps asked_past) (get_exchange None 0 false ∷ []) → ⊥ }
{}

/// A forwarder that sends a request on where the server's input has ended already.
pub fn a_request_on_a_dead_connection_is_refused()
    ensures { (waiting : Option (List ℕ)) (trace : List Step)
        → IsForwarding usual_edge usual dead_history waiting trace (get_exchange (Some 0) 5 false ∷ []) → ⊥ }
{}

/// A forwarder that keeps a server connection whose input has ended, while nothing is asked.
pub fn an_idle_dead_connection_is_refused()
    ensures { (waiting : List ℕ) → RestsWhereItMay usual_edge usual whole_past idle_history (Some waiting) whole_exchanges → ⊥ }
{}
