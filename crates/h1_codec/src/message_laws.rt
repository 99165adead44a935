//! Laws of heads that are read in pieces.
ghost use Rattle.std.specs.Prelude.{◌≡◌, ℕ, List, [], ◌++◌};
ghost use Rattle.model_h1.specs.Request.{Fault};
ghost use Rattle.http_framing.specs.AnyPieces.{Fed, AreFed, LastReads, all_told, all_came};
ghost use Rattle.h1_codec.specs.Heads.{Search, HasSeen, Item, Stop, refused, Heads, Stops, SayTheSame, AreHeads, Reads, given};

use crate::read_head::ReadHead;

/// Fed in any pieces, a decoder that has seen nothing gives the heads of all bytes, one after another.
pub fn heads_are_given<T: ReadHead>()
    ensures { (search : Search) (calls : List (Fed Search (Item T))) (z : List ℕ) (r : Heads T)
        → ((bytes : List ℕ) → HasSeen search bytes)
        → AreFed (Reads T.kind) given search [] calls → LastReads (Reads T.kind) given search [] calls z r
        → AreHeads T.kind search.limit (all_came calls ++ z) (all_told (Reads T.kind) given calls r).items (all_told (Reads T.kind) given calls r).stop }
{}

/// Bytes say the same heads, and stop in the same way, however they are read.
pub fn bytes_say_the_same<T: ReadHead>()
    ensures { (limit : ℕ) (bytes : List ℕ) (xs ys : List (Item T)) (s t : Stop) → AreHeads T.kind limit bytes xs s → AreHeads T.kind limit bytes ys t
        → SayTheSame T.kind xs ys × (s ≡ t) }
{}

/// What is refused stays refused, whatever follows.
pub fn a_refusal_stays<T: ReadHead>()
    ensures { (limit : ℕ) (bytes more : List ℕ) (fault : Fault) (items : List (Item T)) (stop : Stop) → Stops T.kind limit bytes (refused fault)
        → AreHeads T.kind limit (bytes ++ more) items stop → (items ≡ []) × (stop ≡ refused fault) }
{}
