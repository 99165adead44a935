//! What the theorem of a forwarder gives.

ghost use Rattle.std.specs.Prelude.{◌≡◌, ℕ, ◌<◌, ◌≤◌, false, true, List, ◌++◌, length, map, flat_map, Option, Some};
ghost use Rattle.std.specs.List.{list_any, AllByRecursion};
ghost use Rattle.model_h1.specs.Setting.{Setting};
ghost use Rattle.model_h1.specs.Sums.{Step};
ghost use Rattle.model_h1.specs.Parse.{Input, Message, IsParse};
ghost use Rattle.model_ends.specs.SentRequest.{sent_request, AreBegunServed};
ghost use Rattle.model_proxy.specs.Edge.{Edge};
ghost use Rattle.model_proxy.specs.Forward.{Sent, forwarded, forward};
ghost use Rattle.model_proxy.specs.SentWhole.{IsSentWhole};
ghost use Rattle.model_proxy.specs.Past.{ProxyStep, is_refusal, is_connection, servers, server_at};
ghost use Rattle.model_proxy.specs.Exchange.{Exchange, sent_on};
ghost use Rattle.model_proxy.specs.Forwarding.{IsForwarding};

/// A request is refused only where a step says that no server connection can be had; else none gets 502 for that.
pub fn a_refusal_stands_in_the_history()
    ensures { (e : Edge) (setting : Setting) (history : List ProxyStep) (waiting : Option (List ℕ)) (trace : List Step) (xs : List Exchange)
        → IsForwarding e setting history waiting trace xs → list_any (λ s. is_refusal s.event) history ≡ false
        → AllByRecursion (λ x. x.was_refused ≡ false) xs }
{}

/// A request is sent on by a step of the history, and not later than its first byte is given to the server.
pub fn a_request_is_sent_by_a_step()
    ensures { (e : Edge) (setting : Setting) (history : List ProxyStep) (waiting : Option (List ℕ)) (trace : List Step) (xs : List Exchange)
        → IsForwarding e setting history waiting trace xs → AllByRecursion (λ x. (k : ℕ) → x.server ≡ Some k → x.sent_at ≤ length history) xs }
{}

/// A server connection is open only where a step connects one.
pub fn an_open_connection_was_connected()
    ensures { (e : Edge) (setting : Setting) (history : List ProxyStep) (bytes : List ℕ) (trace : List Step) (xs : List Exchange)
        → IsForwarding e setting history (Some bytes) trace xs → list_any (λ s. is_connection s.event) history ≡ true }
{}

/// A server that parses what a forwarder gave it reads the beginning of the requests that were sent on its connection, each whole only
/// where it is. Of the last request some may be missing yet: these requests are the same with the rest of it, whatever that will be.
pub fn servers_read_the_requests()
    ensures { (e : Edge) (setting : Setting) (history : List ProxyStep) (waiting : Option (List ℕ)) (trace : List Step) (xs : List Exchange) (k : ℕ)
        (i : Input) (more : List ℕ) (ss : List Sent) (ms : List Message) → IsForwarding e setting history waiting trace xs
        → k < length (servers history) → i.bytes ≡ (server_at k history).given → AllByRecursion (IsSentWhole i.hold_size) ss
        → flat_map forward (sent_on e history k xs) ++ more ≡ flat_map forward ss → IsParse i ms
        → AreBegunServed i 0 ms (map (λ s. sent_request (forwarded s)) ss) }
{}
