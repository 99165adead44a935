//! Laws of what bytes say to a client's codecs.
ghost use Rattle.std.specs.Prelude.{◌≡◌, ℕ, List, Bool, true, Option, Some, None};
ghost use Rattle.model_client.specs.AnswerTable.{has_no_content};
ghost use Rattle.h1_decoder.specs.declared.response.ResponseItem.{ResponseItem};
ghost use Rattle.h1_codec.specs.FramedMessages.{Standing, Messages, Reads};
ghost use Rattle.h1_codec.specs.Sameness.{AreTheSame};
ghost use Rattle.h1_codec.specs.Heads.{HasSeen};
ghost use Rattle.h1_codec.specs.Kinds.{answers};

/// Bytes say one thing to a codec that has looked at none of them.
pub fn bytes_say_one_thing()
    ensures { (is_head : Bool) (standing : Standing) (bytes : List ℕ) (s t : Messages ResponseItem) → ((b : List ℕ) → HasSeen standing.search b)
        → Reads answers is_head standing bytes s → Reads answers is_head standing bytes t → AreTheSame answers s t }
{}
