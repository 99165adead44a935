//! The laws of what is sent on for a request.

ghost use Rattle.std.specs.Prelude.{◌≡◌, ℕ, true, false, List, [], ◌++◌, map, flat_map, codes, bytes_eq, nat_eq};
ghost use Rattle.std.specs.List.{AllByRecursion, starts_with};
ghost use Rattle.http_uri.specs.Grammar.{without_fragment};
ghost use Rattle.model_h1.specs.Request.{has_body};
ghost use Rattle.model_h1.specs.LengthTable.{values_of};
ghost use Rattle.model_h1.specs.Parse.{Input, Message, IsParse};
ghost use Rattle.model_client.specs.RequestText.{given_request_lines, joined};
ghost use Rattle.model_ends.specs.SentRequest.{sent_request, AreServedAs, AreBegunServed};
ghost use Rattle.model_proxy.specs.HopNames.{is_among};
ghost use Rattle.model_proxy.specs.Targets.{target_sent};
ghost use Rattle.model_proxy.specs.Forward.{Sent, forwarded, left_out, states_length, forward};
ghost use Rattle.model_proxy.specs.SentWhole.{IsSentWhole};
ghost use Rattle.model_proxy.specs.Laws.{lengths_written, codings_written, own_names};

/// A server that parses all that was sent on reads exactly the requests that were forwarded: each once, in order, with its own body,
/// and not a byte is left. Whatever the client wrote in lines and bodies, it makes no further request of it.
pub fn forwarded_requests_are_read()
    ensures there_are { (i : Input) (ss : List Sent) → AllByRecursion (IsSentWhole i.hold_size) ss → i.bytes ≡ flat_map forward ss
        → (ms : List Message) × IsParse i ms × AreServedAs i 0 ms (map (λ s. sent_request (forwarded s)) ss) }
    ensures no_others { (i : Input) (ss : List Sent) (ms : List Message) → AllByRecursion (IsSentWhole i.hold_size) ss
        → i.bytes ≡ flat_map forward ss → IsParse i ms → AreServedAs i 0 ms (map (λ s. sent_request (forwarded s)) ss) }
{}

/// What is read of such a request is what the client asked: its method, where its body ends, and the bytes of that. Its target is what a server
/// gets for that of the client: a path as it stands, without a fragment.
pub fn what_is_read_is_what_was_asked()
    ensures method { (s : Sent) → (sent_request (forwarded s)).says.method ≡ s.head.method }
    ensures target { (s : Sent) → (sent_request (forwarded s)).says.target ≡ target_sent s.head.method s.head.target }
    ensures path { (s : Sent) → starts_with nat_eq s.head.target (codes "/") ≡ true
        → (sent_request (forwarded s)).says.target ≡ without_fragment s.head.target }
    ensures body { (hold_size : ℕ) (s : Sent) → IsSentWhole hold_size s → (sent_request (forwarded s)).says.body ≡ s.head.body }
    ensures bytes { (hold_size : ℕ) (s : Sent) → IsSentWhole hold_size s → has_body s.head.body ≡ true
        → (sent_request (forwarded s)).bytes ≡ joined s.pieces }
{}

/// A server that got only the first bytes yet reads the beginning of these requests, and none as whole that isn't.
pub fn forwarded_requests_are_read_so_far()
    ensures { (i : Input) (more : List ℕ) (ss : List Sent) (ms : List Message) → AllByRecursion (IsSentWhole i.hold_size) ss
        → i.bytes ++ more ≡ flat_map forward ss → IsParse i ms → AreBegunServed i 0 ms (map (λ s. sent_request (forwarded s)) ss) }
{}

/// A forwarded head has one length where the body has one, or a length of 0 was stated; one coding where the body comes in chunks; and no other
/// line that frames a body: whatever lines came in.
pub fn one_line_frames_the_body()
    ensures lengths { (s : Sent) → values_of (codes "content-length") (given_request_lines (forwarded s))
        ≡ lengths_written (states_length s.head) s.head.body }
    ensures codings { (s : Sent) → values_of (codes "transfer-encoding") (given_request_lines (forwarded s)) ≡ codings_written s.head.body }
{}

/// Lines for one connection alone stay behind, and those that a Connection line names, and Expect. A forwarder's own framing, date, host and
/// words of its client may have such a name.
pub fn hop_lines_stay_behind()
    ensures { (s : Sent) (name : List ℕ) → is_among name (left_out s.edge s.head.headers) ≡ true → is_among name own_names ≡ false
        → bytes_eq name (codes "content-length") ≡ false → bytes_eq name (codes "transfer-encoding") ≡ false → bytes_eq name (codes "date") ≡ false
        → values_of name (given_request_lines (forwarded s)) ≡ [] }
{}

/// All other lines are passed on: the values of each name are those that came, in their order.
pub fn other_lines_are_passed_on()
    ensures { (s : Sent) (name : List ℕ) → is_among name (left_out s.edge s.head.headers) ≡ false → is_among name own_names ≡ false
        → bytes_eq name (codes "date") ≡ false → values_of name (given_request_lines (forwarded s)) ≡ values_of name s.head.headers }
{}
