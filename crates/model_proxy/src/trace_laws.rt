//! What a server got, and what is read of its answers, by all that happened to a forwarder.
ghost use Rattle.std.specs.Prelude.{◌≡◌, List, ℕ, ◌++◌, map, flat_map};
ghost use Rattle.std.specs.List.{AllByRecursion};
ghost use Rattle.model_h1.specs.Setting.{Setting};
ghost use Rattle.model_h1.specs.Handed.{Begins};
ghost use Rattle.model_h1.specs.Parse.{Input, Message, IsParse};
ghost use Rattle.model_client.specs.AnswerParse.{AnswerMessage, is_interim, AreAnswersIn};
ghost use Rattle.model_client.specs.ClientKept.{ClientKept};
ghost use Rattle.model_client.specs.ClientTrace.{IsClientTrace, written};
ghost use Rattle.model_client.specs.Parsed.{received_of, ReadsPrefix};
ghost use Rattle.model_ends.specs.SentRequest.{sent_request, AreBegunServed};
ghost use Rattle.model_proxy.specs.Forward.{Sent, forwarded, forward};
ghost use Rattle.model_proxy.specs.SentWhole.{IsSentWhole};
ghost use Rattle.model_proxy.specs.Happenings.{Link, text_sent, methods_sent, server_of, IsLink};

/// What was given to a server, and after it what waits to be, is the text of the requests that were sent on its connection, and not
/// one byte else. Of a connection that is closed, what was given is the beginning of that text.
pub fn servers_get_the_requests()
    ensures waiting { (setting : Setting) (l : Link) (k : ClientKept) → IsLink setting l → IsClientTrace setting l.happened k
        → (server_of l).given ++ k.buffered ≡ text_sent l.sent }
    ensures closed { (setting : Setting) (l : Link) → IsLink setting l → Begins (server_of l).given (text_sent l.sent) }
{}

/// So a server that parses what it was given reads the beginning of these requests, each whole only where it is: no client makes a
/// further request of what it wrote in lines and bodies. Of the last request some may be missing yet: these requests are the same with
/// the rest of it, whatever that will be.
pub fn servers_read_the_requests()
    ensures { (setting : Setting) (l : Link) (i : Input) (more : List ℕ) (ss : List Sent) (ms : List Message) → IsLink setting l
        → i.bytes ≡ (server_of l).given → AllByRecursion (IsSentWhole i.hold_size) ss → text_sent l.sent ++ more ≡ flat_map forward ss
        → IsParse i ms → AreBegunServed i 0 ms (map (λ s. sent_request (forwarded s)) ss) }
{}

/// All that a server's connection hands out is the beginning of the answers in the bytes that came on it, each to its own request: the
/// first to the first request that was sent on it, and after each final answer the next to the next one. An interim answer leaves
/// its request waiting.
pub fn answers_are_read_to_their_requests()
    ensures { (setting : Setting) (l : Link) (parse : List AnswerMessage) → IsLink setting l
        → AreAnswersIn is_interim (received_of setting l.happened) (methods_sent l.sent) parse → ReadsPrefix setting l.happened parse }
{}
