//! Worked examples of answers, all bytes and all answers written out.

ghost use Rattle.std.specs.Prelude.{◌≡◌, ◌∷◌, ◌++◌, [], None, Some, codes, true, false};
ghost use Rattle.model_h1.specs.Request.{Header, no_body, fixed_body, chunked_body, raw_body, close, keep_alive, malformed, too_large};
ghost use Rattle.model_h1.specs.Parse.{no_content, content, ended_at, still_open, cut};
ghost use Rattle.model_client.specs.AnswerReading.{Answer, answer_is, refused};
ghost use Rattle.model_client.specs.AnswerParse.{so_far, is_interim, counts_each, AnswerMessage, AreAnswersIn, AreTheAnswers};
ghost use Rattle.model_client.specs.WrittenHead.{line_of};

/// The answer to HEAD ends with its head, though it states a length: the next answer starts there.
pub fn head_and_then_get()
    ensures { AreTheAnswers (codes "HTTP/1.1 200 OK\r\ncontent-length: 3\r\n\r\nHTTP/1.1 204 No Content\r\n\r\n") (codes "HEAD" ∷ codes "GET" ∷ [])
        (record {
          reading = answer_is (record {
            minor = 1;
            status = 200;
            reason = codes "OK";
            headers = line_of (codes "content-length") (codes "3") ∷ [];
            body = fixed_body 3;
            connection = keep_alive;
            is_lax = false;
          });
          body_start = 38;
          body = content [] (ended_at 38 []);
        } ∷ record {
          reading = answer_is (record {
            minor = 1;
            status = 204;
            reason = codes "No Content";
            headers = [];
            body = no_body;
            connection = keep_alive;
            is_lax = false;
          });
          body_start = 65;
          body = content [] (ended_at 65 []);
        } ∷ []) }
{}

/// The bytes of a body of a length, and the same cut by the end of the input, which is no end of the body.
pub fn body_of_a_length()
    ensures { let answer : Answer = record {
      minor = 1;
      status = 200;
      reason = codes "OK";
      headers = line_of (codes "content-length") (codes "3") ∷ [];
      body = fixed_body 3;
      connection = keep_alive;
      is_lax = false;
    } in
        AreTheAnswers (codes "HTTP/1.1 200 OK\r\ncontent-length: 3\r\n\r\nabc") (codes "GET" ∷ [])
        (record { reading = answer_is answer; body_start = 38; body = content (record { start = 38; end = 41 } ∷ []) (ended_at 41 []) } ∷ [])
        × AreAnswersIn counts_each (record { bytes = codes "HTTP/1.1 200 OK\r\ncontent-length: 3\r\n\r\nab"; ended = true; hold_size = None }) (codes "GET" ∷ codes "GET" ∷ [])
        (record { reading = answer_is answer; body_start = 38; body = content (record { start = 38; end = 40 } ∷ []) cut } ∷ []) }
{}

/// The bytes of a body in chunks with a trailer line, and its first bytes, where it is open.
pub fn body_in_chunks()
    ensures { let answer : Answer = record {
      minor = 1;
      status = 200;
      reason = codes "OK";
      headers = line_of (codes "transfer-encoding") (codes "chunked") ∷ [];
      body = chunked_body;
      connection = keep_alive;
      is_lax = false;
    } in
        AreTheAnswers (codes "HTTP/1.1 200 OK\r\ntransfer-encoding: chunked\r\n\r\n1\r\na\r\n0\r\nX: y \r\n\r\n") (codes "GET" ∷ [])
        (record {
          reading = answer_is answer;
          body_start = 47;
          body = content (record { start = 50; end = 51 } ∷ []) (ended_at 65 (line_of (codes "x") (codes "y") ∷ []));
        } ∷ [])
        × AreTheAnswers (codes "HTTP/1.1 200 OK\r\ntransfer-encoding: chunked\r\n\r\n1\r\na\r\n0") (codes "GET" ∷ codes "GET" ∷ [])
        (record { reading = answer_is answer; body_start = 47; body = content (record { start = 50; end = 51 } ∷ []) still_open } ∷ []) }
{}

/// Without a length the body goes on to the end of the input, and until then it is open.
pub fn up_to_the_end()
    ensures { let answer : Answer = record {
      minor = 1;
      status = 200;
      reason = codes "OK";
      headers = [];
      body = raw_body;
      connection = close;
      is_lax = false;
    } in
        AreAnswersIn counts_each (record { bytes = codes "HTTP/1.1 200 OK\r\n\r\nabc"; ended = true; hold_size = None }) (codes "GET" ∷ [])
        (record { reading = answer_is answer; body_start = 19; body = content (record { start = 19; end = 22 } ∷ []) (ended_at 22 []) } ∷ [])
        × AreTheAnswers (codes "HTTP/1.1 200 OK\r\n\r\nabc") (codes "GET" ∷ [])
        (record { reading = answer_is answer; body_start = 19; body = content (record { start = 19; end = 22 } ∷ []) still_open } ∷ []) }
{}

/// After an interim answer the request waits on, where interim answers aren't counted; else that was its answer.
pub fn continue_and_then_the_answer()
    ensures { let interim : AnswerMessage = record {
      reading = answer_is (record {
        minor = 1;
        status = 100;
        reason = codes "Continue";
        headers = [];
        body = no_body;
        connection = keep_alive;
        is_lax = false;
      });
      body_start = 25;
      body = content [] (ended_at 25 []);
    } in let final : AnswerMessage = record {
      reading = answer_is (record {
        minor = 1;
        status = 204;
        reason = codes "No Content";
        headers = [];
        body = no_body;
        connection = keep_alive;
        is_lax = false;
      });
      body_start = 52;
      body = content [] (ended_at 52 []);
    } in
        AreAnswersIn is_interim (so_far (codes "HTTP/1.1 100 Continue\r\n\r\nHTTP/1.1 204 No Content\r\n\r\n")) (codes "POST" ∷ []) (interim ∷ final ∷ [])
        × AreTheAnswers (codes "HTTP/1.1 100 Continue\r\n\r\nHTTP/1.1 204 No Content\r\n\r\n") (codes "POST" ∷ []) (interim ∷ []) }
{}

/// A blank between a name and its colon is no head of the grammar, and is read by the second reading.
pub fn blank_before_a_colon()
    ensures { AreTheAnswers (codes "HTTP/1.1 200\r\ncontent-length : 0\r\n\r\n") (codes "GET" ∷ [])
        (record {
          reading = answer_is (record {
            minor = 1;
            status = 200;
            reason = [];
            headers = line_of (codes "content-length") (codes "0") ∷ [];
            body = no_body;
            connection = keep_alive;
            is_lax = true;
          });
          body_start = 36;
          body = content [] (ended_at 36 []);
        } ∷ []) }
{}

/// A status below 100 is refused, and a refusal is the last answer.
pub fn status_below_100()
    ensures { AreTheAnswers (codes "HTTP/1.1 099\r\n\r\nHTTP/1.1 204 No Content\r\n\r\n") (codes "GET" ∷ codes "GET" ∷ [])
        (record { reading = refused malformed; body_start = 16; body = no_content } ∷ []) }
{}

/// A head of 19 bytes is too large where 18 may be held.
pub fn longer_than_is_held()
    ensures { AreAnswersIn counts_each (record { bytes = codes "HTTP/1.1 200 OK\r\n\r\n"; ended = false; hold_size = Some 18 }) (codes "GET" ∷ [])
        (record { reading = refused too_large; body_start = 19; body = no_content } ∷ []) }
{}

/// Without a request that waits there is no answer, whatever the bytes are.
pub fn nobody_asked()
    ensures { AreTheAnswers (codes "HTTP/1.1 200 OK\r\n\r\n") [] [] }
{}
