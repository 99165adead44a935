//! Items from bytes, and items into bytes.
ghost use Rattle.std.specs.Prelude.{◌≡◌, ◌++◌, ℕ, List, Ok, None, IfOk, IfErr, IfSome, OnOk, OnErr};
ghost use Rattle.http_framing.specs.AnyPieces.{GoesOn, OnlySays, in_front, Fed, AreFed, LastReads, all_told, all_came};

use bytes::BytesMut;

/// Makes items of bytes that come in pieces.
///
/// What bytes say to a decoder, from where it stands, is a relation that each decoder defines. An answer goes on from
/// it: whatever follows the rest, the new decoder reads it as the old one does behind all bytes, but for the item. No
/// item is answered exactly where the bytes hold none, and an error where they are refused, or where memory ran out.
pub trait Decoder {
    /// What is answered.
    type Item: Drop;

    /// Why nothing is.
    type Error: Drop;

    /// What bytes can say.
    ghost Said: { Type 0 };

    /// From where the decoder stands, the bytes say this.
    ghost reads: { Self → List ℕ → Said → Type 0 };

    /// What is said, with an item in front.
    ghost given: { Self.Item → Said → Said };

    /// What is said where the bytes hold no item yet, and nothing is wrong with them.
    ghost nothing: { Said };

    /// What is said where this error refuses the bytes.
    ghost breaks: { Self.Error → Said → Type 0 };

    /// The error says that memory ran out.
    ghost lacks: { Self.Error → Type 0 };

    /// The bytes begin with those that the decoder has looked at and not taken: these it may be given.
    ghost seen: { Self → List ℕ → Type 0 };

    /// After this error, decoder and bytes that were so are left so.
    ghost leaves: { Self.Error → Self → List ℕ → Self → List ℕ → Type 0 };

    /// What holds of each item that is answered, as that a piece of a body isn't empty.
    ghost holds: { Self.Item → Type 0 };

    /// What the value keeps beside its reading, as what it writes next where it is an encoder too.
    ghost Beside: { Type 0 };

    /// What this one keeps beside its reading.
    ghost beside: { Self → Beside };

    /// The next item of the bytes, once it is there. What it passed is taken off the buffer's front.
    ///
    /// Where the bytes are others than those that an earlier call left, `None` and an error say nothing of them.
    fn decode(&mut self, src: &mut BytesMut) -> Result<Option<Self::Item>, Self::Error>
        ensures goes_on { IfOk result (λ answer. GoesOn reads given self.old src.old.items (in_front reads given answer) self.new src.new.items) }
        ensures waiting { result ≡ Ok None → seen self.old src.old.items → OnlySays reads self.old src.old.items (λ said. said ≡ nothing) }
        ensures refused { IfErr result (λ e. ¬ (lacks e) → seen self.old src.old.items → OnlySays reads self.old src.old.items (breaks e)) }
        ensures lacking { IfErr result (λ e. lacks e → (self.new ≡ self.old) × (src.new.items ≡ src.old.items)) }
        ensures left { IfErr result (λ e. leaves e self.old src.old.items self.new src.new.items) }
        ensures beside { beside self.new ≡ beside self.old }
        ensures holds { IfOk result (λ answer. IfSome answer holds) }
        ensures seen { OnOk result (seen self.old src.old.items → (more : List ℕ) → seen self.new (src.new.items ++ more)) };
}

/// Makes bytes of items.
///
/// Which text an item has, and which items are refused, are relations that each encoder defines. An item that is refused
/// has no text.
pub trait Encoder<I> {
    /// Why an item could not be written.
    type Error: Drop;

    /// From where the encoder stands, the item is written as this text, and this is the encoder after it.
    ghost writes: { Self → I → List ℕ → Self → Type 0 };

    /// From where the encoder stands, this error refuses the item.
    ghost refuses: { Self.Error → Self → I → Type 0 };

    /// The error says that memory ran out.
    ghost lacks: { Self.Error → Type 0 };

    /// After this error, an encoder that was so is left so.
    ghost leaves: { Self.Error → Self → Self → Type 0 };

    /// Writes the item after what the buffer holds, or nothing.
    ///
    /// An error comes only where it refuses the item, or where memory ran out: then the encoder is as before.
    fn encode(&mut self, item: I, dst: &mut BytesMut) -> Result<(), Self::Error>
        ensures ok { OnOk result ((text : List ℕ) × (dst.new.items ≡ dst.old.items ++ text) × writes self.old item text self.new) }
        ensures err { OnErr result (dst.new.items ≡ dst.old.items) }
        ensures refused { IfErr result (λ e. ¬ (lacks e) → refuses e self.old item) }
        ensures lacking { IfErr result (λ e. lacks e → self.new ≡ self.old) }
        ensures left { IfErr result (λ e. leaves e self.old self.new) };

    /// No item is both written and refused.
    ghost excludes: { (old new : Self) (item : I) (text : List ℕ) (e : Self.Error) → refuses e old item → ¬ (writes old item text new) };
}

/// A decoder that is called again and again, with any pieces of bytes in between, gives what all the bytes say: what is
/// read behind the last call is, with all items in front, read by the first decoder from all bytes.
pub fn pieces_make_a_whole<T: Decoder>()
    ensures { (d : T) (left : List ℕ) (calls : List (Fed T T.Item)) (z : List ℕ) (r : T.Said)
        → AreFed T.reads T.given d left calls → LastReads T.reads T.given d left calls z r
        → T.reads d (left ++ (all_came calls ++ z)) (all_told T.reads T.given calls r) }
{}
