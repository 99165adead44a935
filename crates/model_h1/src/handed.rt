//! What a connection hands out is what its bytes say.

ghost use Rattle.std.specs.Prelude.{◌≡◌, ℕ, ◌≤◌, false, List, ◌++◌, length};
ghost use Rattle.model_h1.specs.Setting.{Setting};
ghost use Rattle.model_h1.specs.Parse.{Input, Message, IsParse};
ghost use Rattle.model_h1.specs.Sums.{Step};
ghost use Rattle.model_h1.specs.Handed.{HandedOut, IsPrefixOf, HandsOutPrefix};
ghost use Rattle.model_h1.specs.Past.{input_of};
ghost use Rattle.model_h1.specs.Trace.{IsTrace};

/// What was handed out stays the beginning of the parse when bytes follow, if no fault stands behind the parse.
pub fn handed_out_stays()
    ensures { (i j : Input) (more : List ℕ) (out : HandedOut) (ms ns : List Message) → j.bytes ≡ i.bytes ++ more
        → j.upgraded ≡ i.upgraded → j.hold_size ≡ i.hold_size → i.ended ≡ false → IsParse i ms → IsParse j ns
        → length out.messages ≤ length ms → IsPrefixOf i.hold_size i.bytes out ms → IsPrefixOf j.hold_size j.bytes out ns }
{}

/// All that a trace hands out is the beginning of the parse of the bytes taken: heads, bodies, trailers, ends,
/// frames and faults, in order.
pub fn handed_out_is_parsed()
    ensures { (setting : Setting) (trace : List Step) (parse : List Message) → IsTrace setting trace
        → IsParse (input_of setting trace) parse → HandsOutPrefix setting trace parse }
{}
