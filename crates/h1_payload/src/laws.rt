//! Laws of bodies that are read in pieces.
ghost use Rattle.std.specs.Prelude.{◌≡◌, ℕ, Bool, false, List, [], ◌++◌};
ghost use Rattle.model_h1.specs.Request.{BodyKind, fixed_body};
ghost use Rattle.model_state.specs.Kept.{Rest, whole_rest};
ghost use Rattle.model_state.specs.Pull as pulls;
ghost use Rattle.model_state.specs.Pull.{IsPull};
ghost use Rattle.model_h1.specs.ChunkedText.{ChunkedText, IsChunkedText, chunked_text};
ghost use Rattle.model_h1.specs.Place.{start};
ghost use Rattle.model_state.specs.Kept.{chunks_rest};
ghost use Rattle.http_framing.specs.AnyPieces.{Fed, AreFed, LastReads, all_told, all_came};
ghost use Rattle.h1_payload.specs.Decoding.{Decoding, Payload, Reads, given, chunked_payload, length_payload};
ghost use Rattle.h1_payload.specs.declared.item.PayloadItem.{PayloadItem};
ghost use Rattle.h1_payload.specs.Fitting.{Fits, GivesSome};

/// A whole body fits, and after a pull what is left fits as well.
pub fn rests_fit()
    ensures whole { (kind : BodyKind) → Fits (whole_rest kind) }
    ensures pulled { (is_ended : Bool) (rest : Rest) (bytes : List ℕ) (p : pulls.Pulled) → Fits rest → IsPull is_ended rest bytes p → Fits p.rest }
{}

/// Of a rest that fits there is a pull.
pub fn a_pull_is_there()
    ensures { (is_ended : Bool) (rest : Rest) (bytes : List ℕ) → Fits rest → (p : pulls.Pulled) × IsPull is_ended rest bytes p }
{}

/// A pull of a rest that fits gives no empty piece of a body, and no empty list of trailers.
pub fn pulls_give_some()
    ensures { (is_ended : Bool) (rest : Rest) (bytes : List ℕ) (p : pulls.Pulled) → Fits rest → IsPull is_ended rest bytes p → GivesSome p.outcome }
{}

/// Bytes say one thing to a decoder, and to one whose rest fits they say something.
pub fn bytes_say_one_thing()
    ensures one { (d : Decoding) (bytes : List ℕ) (p q : Payload) → Reads d bytes p → Reads d bytes q → p ≡ q }
    ensures some { (d : Decoding) (bytes : List ℕ) → Fits d.rest → (p : Payload) × Reads d bytes p }
{}

/// Fed with the text of a body in chunks, in any pieces and whatever follows it, a decoder gives the body's bytes, its
/// trailers and its end, and leaves what follows.
pub fn chunks_are_given()
    ensures { (t : ChunkedText) (rest : List ℕ) (calls : List (Fed Decoding PayloadItem)) (z : List ℕ) (p : Payload) → IsChunkedText t
        → AreFed Reads given (record { rest = chunks_rest start []; is_broken = false }) [] calls → all_came calls ++ z ≡ chunked_text t ++ rest
        → LastReads Reads given (record { rest = chunks_rest start []; is_broken = false }) [] calls z p
        → all_told Reads given calls p ≡ chunked_payload t rest }
{}

/// A decoder of a stated length gives the first bytes, in whatever pieces they come, and then the end, and takes no byte
/// after them.
pub fn a_length_is_given()
    ensures { (n : ℕ) (calls : List (Fed Decoding PayloadItem)) (z : List ℕ) (p : Payload)
        → AreFed Reads given (record { rest = whole_rest (fixed_body n); is_broken = false }) [] calls
        → LastReads Reads given (record { rest = whole_rest (fixed_body n); is_broken = false }) [] calls z p
        → all_told Reads given calls p ≡ length_payload n (all_came calls ++ z) }
{}
