//! Frames that a client sends are read by its server.

ghost use Rattle.std.specs.Prelude.{◌≡◌, ℕ, ◌<◌, ◌≤◌, ◌^◌, Bool, true, List, ◌++◌, length, map, Option, None};
ghost use Rattle.model_h1.specs.Frame.{Frame, ProtocolError};
ghost use Rattle.model_h1.specs.FrameText.{Reader, front_frame, whole, PlacedFrame, ReadsFrames};
ghost use Rattle.model_h1.specs.Laws.WrittenFrame.{KeepsRules};
ghost use Rattle.model_ends.specs.MaskedText.{masked_text, MaskedFrame, HaveMasks, masked_texts};
ghost use Rattle.model_ends.specs.LegalMessages.{AreLegal, AreFramesOf};

/// A frame that keeps the rules, under a mask, is read back whole, whatever follows.
pub fn what_is_masked_is_read()
    ensures { (mask : List ℕ) → length mask ≡ 4 → (reader : Reader) (under_way : Bool) (f : Frame) (more : List ℕ) → reader.wants_mask ≡ true
        → KeepsRules reader under_way f → front_frame reader under_way (masked_text mask f ++ more) ≡ whole f (length (masked_text mask f)) }
{}

/// Legal messages, each under a mask of its own, are read as they were sent and in no other way: each ends where its text does,
/// and nothing is left.
pub fn legal_messages_are_read()
    ensures there_are { (reader : Reader) (max_payload : ℕ) → reader.wants_mask ≡ true → max_payload ≤ reader.max_payload → max_payload < 2 ^ 63
        → (under_way : Bool) (ms : List MaskedFrame) → HaveMasks ms → AreLegal max_payload under_way (map (λ m. m.frame) ms)
        → (placed : List PlacedFrame) × ReadsFrames reader under_way 0 (masked_texts ms) placed None
        × AreFramesOf (masked_texts ms) 0 placed ms }
    ensures no_others { (reader : Reader) (max_payload : ℕ) → reader.wants_mask ≡ true → max_payload ≤ reader.max_payload → max_payload < 2 ^ 63
        → (under_way : Bool) (ms : List MaskedFrame) (placed : List PlacedFrame) (fail : Option ProtocolError) → HaveMasks ms
        → AreLegal max_payload under_way (map (λ m. m.frame) ms) → ReadsFrames reader under_way 0 (masked_texts ms) placed fail
        → (fail ≡ None) × AreFramesOf (masked_texts ms) 0 placed ms }
{}
