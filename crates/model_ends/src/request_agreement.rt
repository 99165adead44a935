//! Requests that a client sends are read by its server.

ghost use Rattle.std.specs.Prelude.{◌≡◌, ℕ, List, ◌++◌, map};
ghost use Rattle.std.specs.List.{AllByRecursion};
ghost use Rattle.model_h1.specs.Parse.{Input, Message, IsParse};
ghost use Rattle.model_client.specs.RequestText.{RequestGiven, IsPlainGiven};
ghost use Rattle.model_ends.specs.SentRequest.{SentRequest, IsAsked, sent_request, asked_text, AreServedAs, AreBegunServed};

/// A plain request is sent so that its head is read back and frames the body that was written.
pub fn plain_requests_are_sent()
    ensures { (hold_size : ℕ) (g : RequestGiven) → IsPlainGiven hold_size g → IsAsked hold_size (sent_request g) }
{}

/// What was asked is read as it was asked, request by request, and nothing else is: whether the input has ended or not, and
/// with any limit that holds each head.
pub fn what_is_asked_is_read()
    ensures there_are { (i : Input) (ss : List SentRequest) → i.bytes ≡ asked_text ss → AllByRecursion (IsAsked i.hold_size) ss
        → (ms : List Message) × IsParse i ms × AreServedAs i 0 ms ss }
    ensures no_others { (i : Input) (ss : List SentRequest) (ms : List Message) → i.bytes ≡ asked_text ss → AllByRecursion (IsAsked i.hold_size) ss
        → IsParse i ms → AreServedAs i 0 ms ss }
{}

/// Two ends agree: a server that reads all that a client sent reads its requests, in order, each whole.
pub fn two_ends_of_requests()
    ensures there_are { (i : Input) (gs : List RequestGiven) → AllByRecursion (IsPlainGiven i.hold_size) gs → i.bytes ≡ asked_text (map sent_request gs)
        → (ms : List Message) × IsParse i ms × AreServedAs i 0 ms (map sent_request gs) }
    ensures no_others { (i : Input) (gs : List RequestGiven) (ms : List Message) → AllByRecursion (IsPlainGiven i.hold_size) gs
        → i.bytes ≡ asked_text (map sent_request gs) → IsParse i ms → AreServedAs i 0 ms (map sent_request gs) }
{}

/// A server that got only the first bytes yet reads the beginning of the requests: each has its head and its place, and its end
/// if all of it came. Any other is never read as whole, even where the input has ended: its body is open, or cut, with a
/// beginning of its bytes.
pub fn two_ends_of_requests_so_far()
    ensures { (i : Input) (more : List ℕ) (gs : List RequestGiven) (ms : List Message) → AllByRecursion (IsPlainGiven i.hold_size) gs
        → i.bytes ++ more ≡ asked_text (map sent_request gs) → IsParse i ms → AreBegunServed i 0 ms (map sent_request gs) }
{}
