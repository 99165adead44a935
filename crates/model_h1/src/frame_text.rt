//! The laws of frames that are read, and of those that are written.

ghost use Rattle.std.specs.Prelude.{◌≡◌, ℕ, ◌<◌, ◌≤◌, Bool, false, List, ◌++◌, length, nat_lt, if◌then◌else◌, Option, Some, None};
ghost use Rattle.model_h1.specs.Frame.{Frame, ProtocolError, overflow};
ghost use Rattle.model_h1.specs.FrameText.{Reader, at_length, when_whole, FrameHeader, unmask, front_frame, partial, whole, breaks, PlacedFrame, ReadsFrames, frame_text};
ghost use Rattle.model_h1.specs.Limits.{MAX_FRAME};
ghost use Rattle.model_h1.specs.Handed.{Begins};
ghost use Rattle.model_h1.specs.Laws.FrameSize.{judging, front_header, frame_length};
ghost use Rattle.model_h1.specs.Laws.WrittenFrame.{KeepsRules};

/// A frame at the front stays whatever bytes follow.
pub fn front_stays()
    ensures { (reader : Reader) (under_way : Bool) (bytes more : List ℕ) (f : Frame) (len : ℕ) → front_frame reader under_way bytes ≡ whole f len
        → front_frame reader under_way (bytes ++ more) ≡ whole f len }
{}

/// A rule that is broken at the front stays broken whatever bytes follow.
pub fn front_error_stays()
    ensures { (reader : Reader) (under_way : Bool) (bytes more : List ℕ) (e : ProtocolError) → front_frame reader under_way bytes ≡ breaks e
        → front_frame reader under_way (bytes ++ more) ≡ breaks e }
{}

/// A whole frame lies within the bytes, and has two of them at least.
pub fn front_lies_within()
    ensures { (reader : Reader) (under_way : Bool) (bytes : List ℕ) (f : Frame) (len : ℕ) → front_frame reader under_way bytes ≡ whole f len
        → (2 ≤ len) × (len ≤ length bytes) }
{}

/// From one place on the bytes are one list of frames, and the rest breaks one rule or none.
pub fn frames_are_unique()
    ensures { (reader : Reader) (under_way : Bool) (place : ℕ) (bytes : List ℕ) (fs gs : List PlacedFrame) (e f : Option ProtocolError)
        → ReadsFrames reader under_way place bytes fs e → ReadsFrames reader under_way place bytes gs f → (fs ≡ gs) × (e ≡ f) }
{}

/// The frames that were read are the first of those that are read when bytes follow.
pub fn frames_stay()
    ensures { (reader : Reader) (under_way : Bool) (place : ℕ) (bytes more : List ℕ) (fs gs : List PlacedFrame) (e f : Option ProtocolError)
        → ReadsFrames reader under_way place bytes fs e → ReadsFrames reader under_way place (bytes ++ more) gs f → Begins fs gs }
{}

/// Behind a broken rule nothing more is read, whatever bytes follow.
pub fn broken_frames_stay()
    ensures { (reader : Reader) (under_way : Bool) (place : ℕ) (bytes more : List ℕ) (fs : List PlacedFrame) (e : ProtocolError)
        → ReadsFrames reader under_way place bytes fs (Some e) → ReadsFrames reader under_way place (bytes ++ more) fs (Some e) }
{}

/// Every text is read as frames, perhaps none, and a rule that the rest breaks, or none.
pub fn frames_are_read()
    ensures { (reader : Reader) (under_way : Bool) (place : ℕ) (bytes : List ℕ)
        → (fs : List PlacedFrame) × (e : Option ProtocolError) × ReadsFrames reader under_way place bytes fs e }
{}

/// Where the size is judged changes nothing but when a frame above the limit is refused: a reader that judges it once
/// the frame is whole takes what the other takes, and refuses at its length only what can never be whole.
pub fn size_may_be_judged_late()
    ensures no_header { (reader : Reader) (under_way : Bool) (bytes : List ℕ) → front_header reader bytes ≡ None
        → front_frame (judging when_whole reader) under_way bytes ≡ front_frame (judging at_length reader) under_way bytes }
    ensures within_limit { (reader : Reader) (under_way : Bool) (bytes : List ℕ) (header : FrameHeader) → front_header reader bytes ≡ Some header
        → header.payload_length ≤ reader.max_payload → frame_length header ≤ MAX_FRAME
        → front_frame (judging when_whole reader) under_way bytes ≡ front_frame (judging at_length reader) under_way bytes }
    ensures above_limit { (reader : Reader) (under_way : Bool) (bytes : List ℕ) (header : FrameHeader) → front_header reader bytes ≡ Some header
        → reader.max_payload < header.payload_length → frame_length header ≤ MAX_FRAME
        → front_frame (judging when_whole reader) under_way bytes
        ≡ (if nat_lt (length bytes) (frame_length header) then partial else breaks overflow) }
    ensures never_whole { (reader : Reader) (under_way : Bool) (bytes : List ℕ) (header : FrameHeader) → front_header reader bytes ≡ Some header
        → MAX_FRAME < frame_length header → front_frame (judging when_whole reader) under_way bytes ≡ breaks overflow }
{}

/// A frame that keeps the rules is read back, whatever bytes follow, by a reader without masks.
pub fn what_is_written_is_read()
    ensures { (reader : Reader) (under_way : Bool) (f : Frame) (more : List ℕ) → reader.wants_mask ≡ false → KeepsRules reader under_way f
        → front_frame reader under_way (frame_text f ++ more) ≡ whole f (length (frame_text f)) }
{}

/// A mask put on twice leaves the bytes as they were.
pub fn masking_twice_is_nothing()
    ensures { (mask : List ℕ) (k : ℕ) (bytes : List ℕ) → unmask mask k (unmask mask k bytes) ≡ bytes }
{}
