//! Laws of what bytes say to a codec.
ghost use Rattle.std.specs.Prelude.{ℕ, List, false};
ghost use Rattle.h1_decoder.specs.declared.decoder.HeadItem.{HeadItem};
ghost use Rattle.h1_codec.specs.Heads.{HasSeen};
ghost use Rattle.h1_codec.specs.Kinds.{requests};
ghost use Rattle.h1_codec.specs.FramedMessages.{Standing, Messages, Reads};
ghost use Rattle.h1_codec.specs.Sameness.{AreTheSame};

/// Bytes say one thing to a codec that has looked at none of them.
pub fn bytes_say_one_thing()
    ensures { (standing : Standing) (bytes : List ℕ) (s t : Messages HeadItem) → ((b : List ℕ) → HasSeen standing.search b)
        → Reads requests false standing bytes s → Reads requests false standing bytes t → AreTheSame requests s t }
{}
