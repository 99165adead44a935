//! The decoder of a message's body.
ghost use Rattle.std.specs.Prelude.{◌≡◌, ◌≢◌, ◌==◌, true, false, [], ◌∷◌, Ok, Err, None, IfOk, if◌then◌else◌};
ghost use Rattle.model_h1.specs.Place.{start};
ghost use Rattle.model_state.specs.Pull.{IsPull};
ghost use Rattle.model_state.specs.Pull as pulls;
ghost use Rattle.model_state.specs.Kept.{no_rest, raw_rest, fixed_rest, chunks_rest, whole_rest};
ghost use Rattle.http_framing.specs.AnyPieces.{GoesOn, in_front};
ghost use Rattle.h1_payload.specs.Decoding.{Payload, Reads, given, item_of, HasSome, IsDecoded, IsWaiting, IsRefused};
ghost use Rattle.http_framing.specs.Kinds.{kind_of};
ghost use Rattle.h1_payload.specs.Rests.{IsLight};
ghost use Rattle.h1_payload.specs.Sameness.{flag, rest_numbers, are_equal};

use crate::item::{DecodeError, PayloadItem};
use crate::pulled::Pulled;
use crate::rest::Rest;
use bytes::BytesMut;
use http_framing::{BodyKind, Decoder};
use http_map::NoMemory;
use std::marker::Model;

/// Reads the body of a message from bytes that come in pieces.
///
/// A clause sees it as what is left of the body, and whether that is broken.
#[derive(Debug, Drop)]
pub struct PayloadDecoder {
    rest: Rest,
    is_broken: bool,
}

impl Model for PayloadDecoder {
    ghost use Rattle.h1_payload.specs.Decoding.{Decoding};
    ghost use Rattle.h1_payload.specs.Fitting.{Fits};

    ghost Value = { Decoding };

    ghost view = { λ d. record { rest = d.rest; is_broken = d.is_broken } };

    ghost invariant = { λ d. Fits d.rest };
}

impl PayloadDecoder {
    /// A body of `x` bytes. It takes no memory.
    pub fn length(x: u64) -> Self
        ensures { result ≡ record { rest = (if x == 0 then no_rest else fixed_rest x); is_broken = false } }
    {
        PayloadDecoder::whole(BodyKind::Length(x))
    }

    /// A body in chunks (RFC 7230, section 4.1). It takes no memory.
    pub fn chunked() -> Self
        ensures { result ≡ record { rest = chunks_rest start []; is_broken = false } }
    {
        PayloadDecoder::whole(BodyKind::Chunked)
    }

    /// A body of all bytes that follow. It takes no memory.
    pub fn eof() -> Self
        ensures { result ≡ record { rest = raw_rest; is_broken = false } }
    {
        PayloadDecoder::whole(BodyKind::Raw)
    }

    fn whole(kind: BodyKind) -> Self
        ensures { result ≡ record { rest = whole_rest (kind_of kind); is_broken = false } }
    {
        PayloadDecoder {
            rest: Rest::whole(kind),
            is_broken: false,
        }
    }

    /// Where it stands, as numbers.
    fn numbers(&self) -> [u64; 4]
        ensures { result ≡ flag self.now.is_broken ∷ rest_numbers self.now.rest }
    {
        let broken = if self.is_broken { 1 } else { 0 };
        let [kind, first, second] = self.rest.numbers();
        [broken, kind, first, second]
    }

    /// Whether the other stands there too.
    fn is_equal(&self, other: &PayloadDecoder) -> bool
        ensures { result ≡ are_equal self.now other.now }
    {
        if self.numbers() != other.numbers() {
            return false;
        }
        self.rest.section() == other.rest.section()
    }

    /// A decoder of the same body, at the same place, as `clone` gives it too.
    pub fn copy(&self) -> Result<PayloadDecoder, NoMemory>
        ensures { IfOk result (λ copy. copy ≡ self.now) }
    {
        Ok(PayloadDecoder {
            rest: self.rest.copy()?,
            is_broken: self.is_broken,
        })
    }

    /// The next piece of the body, once it is there: all bytes of the current chunk that are there, or of another body;
    /// then the trailers, where there are some; then the end, again and again. It passes no byte after the body.
    ///
    /// `None` comes where the bytes have no further byte of the body, nor its end: these bytes are passed. `Invalid`
    /// comes where the bytes break the grammar of chunks; from then on it comes for good, and the bytes stay.
    /// Where memory ran out, all is as it was. The end and a fault need no memory, and neither does a `None`, but for the
    /// text of a trailer section that is kept.
    pub fn decode(&mut self, src: &mut BytesMut) -> Result<Option<PayloadItem>, DecodeError>
        ensures decoded { IsDecoded self.old src.old.items result self.new src.new.items }
        ensures goes_on { IfOk result (λ answer. GoesOn Reads given self.old src.old.items (in_front Reads given answer) self.new src.new.items) }
        ensures some { IfOk result HasSome }
        ensures waits { result ≡ Ok None → IsWaiting self.old src.old.items }
        ensures refused { result ≡ Err DecodeError.Invalid → IsRefused self.old src.old.items × (src.new.items ≡ src.old.items) }
        ensures refuses { result ≡ Err DecodeError.Invalid → (self.new.is_broken ≡ true) }
        ensures no_memory_needed { (p : pulls.Pulled) → IsPull false self.old.rest src.old.items p
            → IsLight self.old.rest p.outcome p.rest → result ≢ Err DecodeError.NoMemory }
        ensures no_memory { result ≡ Err DecodeError.NoMemory → (self.new ≡ self.old) × (src.new ≡ src.old) }
    {
        if self.is_broken {
            return Err(DecodeError::Invalid);
        }
        match self.rest.pull(src, false) {
            Ok(answer) => {
                self.is_broken = answer.is_fault();
                item_of(answer)
            }
            Err(_) => Err(DecodeError::NoMemory),
        }
    }
}

impl Clone for PayloadDecoder {
    ghost is_clone = { λ decoder copy. copy ≡ decoder };

    fn clone(&self) -> Result<PayloadDecoder, NoMemory> {
        self.copy()
    }
}

impl PartialEq for PayloadDecoder {
    ghost use Rattle.std.specs.Prelude.{◌↔◌};
    ghost use Rattle.std.specs.Cmp.Rules.{comparing};
    ghost use Rattle.std.proofs.Common.{rules};

    ghost eq = { are_equal };

    ghost laws = { Prim.search (comparing, rules) };

    fn eq(&self, other: &PayloadDecoder) -> bool
        ensures value { result ≡ are_equal self.now other.now }
        ensures same { (result ≡ true) ↔ (self.now ≡ other.now) }
    {
        self.is_equal(other)
    }
}

impl Eq for PayloadDecoder {
    ghost use Rattle.std.specs.Cmp.Rules.{comparing};
    ghost use Rattle.std.proofs.Common.{rules};

    ghost laws = { Prim.search (comparing, rules) };
}

/// What is answered to what was pulled.
fn item_of(answer: Pulled) -> Result<Option<PayloadItem>, DecodeError>
    ensures { result ≡ item_of answer }
{
    match answer {
        Pulled::Bytes(bytes) => Ok(Some(PayloadItem::Chunk(bytes))),
        Pulled::Trailers(trailers) => Ok(Some(PayloadItem::Trailers(trailers))),
        Pulled::End => Ok(Some(PayloadItem::Eof)),
        Pulled::Broken(_) => Err(DecodeError::Invalid),
        Pulled::Pending => Ok(None),
    }
}

impl Decoder for PayloadDecoder {
    ghost use Rattle.std.specs.Prelude.{◌≡◌, ⊤, Some};
    ghost use Rattle.h1_payload.specs.Decoding.{waiting_payload, Breaks, LeftAfter, HasSome};
    ghost use Rattle.h1_payload.specs.declared.item.DecodeError.TheVariants as errors;

    type Item = PayloadItem;

    type Error = DecodeError;

    ghost Said = { Payload };

    ghost reads = { Reads };

    ghost given = { given };

    ghost nothing = { waiting_payload };

    ghost breaks = { Breaks };

    ghost lacks = { λ error. error ≡ errors.NoMemory };

    ghost seen = { λ _ _. ⊤ };

    ghost leaves = { LeftAfter };

    ghost holds = { λ item. HasSome (Some item) };

    ghost Beside = { Unit };

    ghost beside = { λ _. tt };

    fn decode(&mut self, src: &mut BytesMut) -> Result<Option<PayloadItem>, DecodeError> {
        PayloadDecoder::decode(self, src)
    }
}
