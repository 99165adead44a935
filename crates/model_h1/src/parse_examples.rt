//! Worked examples of parses, all bytes and all messages written out.

ghost use Rattle.std.specs.Prelude.{◌∷◌, ◌++◌, [], None, Some, codes, true, false};
ghost use Rattle.model_h1.specs.Frame.{text, unmasked_frame};
ghost use Rattle.model_h1.specs.Request.{Header, Head, no_body, fixed_body, chunked_body, raw_body, close, keep_alive, malformed, too_large, head_is, faulty};
ghost use Rattle.model_h1.specs.Parse.{IsParse, no_content, content, frames, ended_at, still_open, broken, cut};

/// A head that is refused is the last message: nothing behind it is parsed.
pub fn refused_head()
    ensures malformed { IsParse
        (record { bytes = codes "GET\r\n\r\nGET / HTTP/1.1\r\n\r\n"; upgraded = None; ended = false; hold_size = 131072 })
        (record { reading = faulty malformed; body_start = 7; body = no_content } ∷ []) }
    ensures too_large { IsParse
        (record { bytes = codes "GET / HTTP/1.1\r\n\r\n"; upgraded = None; ended = false; hold_size = 17 })
        (record { reading = faulty too_large; body_start = 18; body = no_content } ∷ []) }
{}

/// A request without a body ends where the next one starts. HTTP/1.0 closes the connection, where it says nothing.
pub fn two_requests()
    ensures { IsParse
        (record { bytes = codes "GET / HTTP/1.1\r\n\r\nHEAD / HTTP/1.0\r\n\r\n"; upgraded = None; ended = false; hold_size = 131072 })
        (record {
          reading = head_is (record {
            method = codes "GET";
            target = codes "/";
            minor = 1;
            headers = [];
            body = no_body;
            connection = keep_alive;
            expects = false;
          });
          body_start = 18;
          body = content [] (ended_at 18 []);
        } ∷ record {
          reading = head_is (record {
            method = codes "HEAD";
            target = codes "/";
            minor = 0;
            headers = [];
            body = no_body;
            connection = close;
            expects = false;
          });
          body_start = 37;
          body = content [] (ended_at 37 []);
        } ∷ []) }
{}

/// A body of three bytes is whole with them, and open with two; where the input ends there, it is cut.
pub fn body_of_a_length()
    ensures { let head : Head = record {
      method = codes "POST";
      target = codes "/";
      minor = 1;
      headers = record { name = codes "content-length"; value = codes "3" } ∷ [];
      body = fixed_body 3;
      connection = keep_alive;
      expects = false;
    } in
        IsParse
        (record { bytes = codes "POST / HTTP/1.1\r\ncontent-length: 3\r\n\r\nabc"; upgraded = None; ended = false; hold_size = 131072 })
        (record { reading = head_is head; body_start = 38; body = content (record { start = 38; end = 41 } ∷ []) (ended_at 41 []) } ∷ [])
        × IsParse
        (record { bytes = codes "POST / HTTP/1.1\r\ncontent-length: 3\r\n\r\nab"; upgraded = None; ended = false; hold_size = 131072 })
        (record { reading = head_is head; body_start = 38; body = content (record { start = 38; end = 40 } ∷ []) still_open } ∷ [])
        × IsParse
        (record { bytes = codes "POST / HTTP/1.1\r\ncontent-length: 3\r\n\r\nab"; upgraded = None; ended = true; hold_size = 131072 })
        (record { reading = head_is head; body_start = 38; body = content (record { start = 38; end = 40 } ∷ []) cut } ∷ []) }
{}

/// A body in chunks ends behind its trailers, which are headers as those of the head are. A byte that no body begins
/// with breaks it, and without its last bytes it is open.
pub fn body_in_chunks()
    ensures { let head : Head = record {
      method = codes "POST";
      target = codes "/";
      minor = 1;
      headers = record { name = codes "transfer-encoding"; value = codes "chunked" } ∷ [];
      body = chunked_body;
      connection = keep_alive;
      expects = false;
    } in
        IsParse
        (record {
          bytes = codes "POST / HTTP/1.1\r\ntransfer-encoding: chunked\r\n\r\n1\r\na\r\n0\r\nX: y \r\n\r\n";
          upgraded = None;
          ended = false;
          hold_size = 131072;
        })
        (record {
          reading = head_is head;
          body_start = 47;
          body = content (record { start = 50; end = 51 } ∷ []) (ended_at 65 (record { name = codes "x"; value = codes "y" } ∷ []));
        } ∷ [])
        × IsParse
        (record { bytes = codes "POST / HTTP/1.1\r\ntransfer-encoding: chunked\r\n\r\ng"; upgraded = None; ended = false; hold_size = 131072 })
        (record { reading = head_is head; body_start = 47; body = content [] broken } ∷ [])
        × IsParse
        (record { bytes = codes "POST / HTTP/1.1\r\ntransfer-encoding: chunked\r\n\r\n1\r\na\r\n0"; upgraded = None; ended = false; hold_size = 131072 })
        (record { reading = head_is head; body_start = 47; body = content (record { start = 50; end = 51 } ∷ []) still_open } ∷ []) }
{}

/// A raw body goes on to the end of the input. Once a WebSocket is accepted, it is frames: here a text, and the first
/// byte of another one; or none, and a frame that breaks a rule.
pub fn raw_bodies()
    ensures { let head : Head = record {
      method = codes "GET";
      target = codes "/";
      minor = 1;
      headers = record { name = codes "upgrade"; value = codes "websocket" } ∷ [];
      body = raw_body;
      connection = keep_alive;
      expects = false;
    } in
        IsParse
        (record { bytes = codes "GET / HTTP/1.1\r\nupgrade: websocket\r\n\r\nab"; upgraded = None; ended = false; hold_size = 131072 })
        (record { reading = head_is head; body_start = 38; body = content (record { start = 38; end = 40 } ∷ []) still_open } ∷ [])
        × IsParse
        (record { bytes = codes "GET / HTTP/1.1\r\nupgrade: websocket\r\n\r\nab"; upgraded = None; ended = true; hold_size = 131072 })
        (record { reading = head_is head; body_start = 38; body = content (record { start = 38; end = 40 } ∷ []) (ended_at 40 []) } ∷ [])
        × IsParse
        (record {
          bytes = codes "GET / HTTP/1.1\r\nupgrade: websocket\r\n\r\n"
              ++ (0x81 ∷ 0x85 ∷ 0x37 ∷ 0xfa ∷ 0x21 ∷ 0x3d ∷ 0x7f ∷ 0x9f ∷ 0x4d ∷ 0x51 ∷ 0x58 ∷ 0x81 ∷ []);
          upgraded = Some 100;
          ended = false;
          hold_size = 131072;
        })
        (record { reading = head_is head; body_start = 38; body = frames (record { frame = text (codes "Hello"); end = 49 } ∷ []) None } ∷ [])
        × IsParse
        (record { bytes = codes "GET / HTTP/1.1\r\nupgrade: websocket\r\n\r\n" ++ (0x81 ∷ 0x00 ∷ []); upgraded = Some 100; ended = false; hold_size = 131072 })
        (record { reading = head_is head; body_start = 38; body = frames [] (Some unmasked_frame) } ∷ []) }
{}
