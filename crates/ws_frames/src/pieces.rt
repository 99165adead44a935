//! Bytes that come in pieces are the frames of all bytes.
ghost use Rattle.std.specs.Prelude.{◌≡◌, ℕ, Bool, List, [], ◌∷◌, ◌++◌, drop, Option, Some};
ghost use Rattle.model_h1.specs.Frame.{Frame, ProtocolError};
ghost use Rattle.model_h1.specs.FrameText.{Reader, front_frame, whole, breaks, is_under_way, PlacedFrame, ReadsFrames};
ghost use Rattle.ws_frames.specs.FramePieces.{AreFrames, frames_of};

/// Whatever bytes follow: where a frame was given, the old bytes with these are that frame and then the frames of what is
/// left with these; and where a rule is broken, the old bytes with these are no frame and break that rule.
pub fn decoding_goes_on()
    ensures given { (reader : Reader) (under_way : Bool) (bytes more : List ℕ) (f : Frame) (len : ℕ) (fs : List Frame) (fail : Option ProtocolError)
        → front_frame reader under_way bytes ≡ whole f len → AreFrames reader (is_under_way under_way f) (drop len bytes ++ more) fs fail
        → AreFrames reader under_way (bytes ++ more) (f ∷ fs) fail }
    ensures refused { (reader : Reader) (under_way : Bool) (bytes more : List ℕ) (rule : ProtocolError)
        → front_frame reader under_way bytes ≡ breaks rule → AreFrames reader under_way (bytes ++ more) [] (Some rule) }
{}

/// Bytes are one list of frames, and what stands behind them breaks one rule or none; and these are the frames that the
/// definitions read from any place on.
pub fn bytes_are_frames()
    ensures some { (reader : Reader) (under_way : Bool) (bytes : List ℕ)
        → (fs : List Frame) × (fail : Option ProtocolError) × AreFrames reader under_way bytes fs fail }
    ensures one { (reader : Reader) (under_way : Bool) (bytes : List ℕ) (fs gs : List Frame) (e f : Option ProtocolError)
        → AreFrames reader under_way bytes fs e → AreFrames reader under_way bytes gs f → (fs ≡ gs) × (e ≡ f) }
    ensures placed { (reader : Reader) (under_way : Bool) (place : ℕ) (bytes : List ℕ) (fs : List PlacedFrame) (fail : Option ProtocolError)
        → ReadsFrames reader under_way place bytes fs fail → AreFrames reader under_way (drop place bytes) (frames_of fs) fail }
{}
