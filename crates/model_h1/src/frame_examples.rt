//! Worked examples of frames: all bytes are written out, but for rows of zeros.

ghost use Rattle.std.specs.Prelude.{◌≡◌, ◌∷◌, [], true, false, codes, replicate, None};
ghost use Rattle.model_h1.specs.Frame.{text, binary, ping, close, unmasked_frame, masked_frame, invalid_reserved_bits, bad_op_code, overflow, continuation_not_started, continuation_started, invalid_opcode, invalid_length, continuation_fragment};
ghost use Rattle.model_h1.specs.Parse.{connection_reader};
ghost use Rattle.model_h1.specs.FrameText.{at_length, when_whole, front_frame, partial, whole, breaks, ReadsFrames};

/// A text frame of five bytes under a mask, as RFC 6455, section 5.7, gives it.
pub fn masked_hello()
    ensures { front_frame (connection_reader 65536) false (0x81 ∷ 0x85 ∷ 0x37 ∷ 0xfa ∷ 0x21 ∷ 0x3d ∷ 0x7f ∷ 0x9f ∷ 0x4d ∷ 0x51 ∷ 0x58 ∷ [])
        ≡ whole (text (codes "Hello")) 11 }
{}

/// The first four bytes of it are no frame yet.
pub fn hello_begun()
    ensures { front_frame (connection_reader 65536) false (0x81 ∷ 0x85 ∷ 0x37 ∷ 0xfa ∷ []) ≡ partial }
{}

/// A frame without a mask is refused at its second byte.
pub fn without_a_mask()
    ensures { front_frame (connection_reader 65536) false (0x81 ∷ 0x00 ∷ []) ≡ breaks unmasked_frame }
{}

/// A payload of 65,537 bytes is refused as soon as its length is there.
pub fn too_long()
    ensures { front_frame (connection_reader 65536) false (0x82 ∷ 0xff ∷ 0x00 ∷ 0x00 ∷ 0x00 ∷ 0x00 ∷ 0x00 ∷ 0x01 ∷ 0x00 ∷ 0x01 ∷ [])
        ≡ breaks overflow }
{}

/// A client takes the same text without a mask.
pub fn hello_for_a_client()
    ensures { front_frame (record { wants_mask = false; max_payload = 100; judges_size = at_length }) false
        (0x81 ∷ 0x05 ∷ 0x48 ∷ 0x65 ∷ 0x6c ∷ 0x6c ∷ 0x6f ∷ []) ≡ whole (text (codes "Hello")) 7 }
{}

/// It refuses a mask at the second byte.
pub fn masked_for_a_client()
    ensures { front_frame (record { wants_mask = false; max_payload = 100; judges_size = at_length }) false
        (0x81 ∷ 0x85 ∷ []) ≡ breaks masked_frame }
{}

/// The limit is the reader's: 200 bytes are too many where 100 may come.
pub fn over_the_limit()
    ensures { front_frame (record { wants_mask = true; max_payload = 100; judges_size = at_length }) false
        (0x82 ∷ 0xfe ∷ 0x00 ∷ 0xc8 ∷ []) ≡ breaks overflow }
{}

/// A reader that judges sizes once a frame is whole waits for the payload before it refuses 2 bytes where 1 may come.
pub fn refused_once_whole()
    ensures waits { front_frame (record { wants_mask = false; max_payload = 1; judges_size = when_whole }) false
        (0x82 ∷ 0x02 ∷ 0x00 ∷ []) ≡ partial }
    ensures refuses { front_frame (record { wants_mask = false; max_payload = 1; judges_size = when_whole }) false
        (0x82 ∷ 0x02 ∷ 0x00 ∷ 0x00 ∷ []) ≡ breaks overflow }
{}

/// But where header and payload pass 2 ^ 64 - 1, it refuses the frame at its length, however many bytes may come.
pub fn never_whole()
    ensures at_most { front_frame (record { wants_mask = false; max_payload = 0xffff_ffff_ffff_ffff; judges_size = when_whole }) false
        (0x82 ∷ 0x7f ∷ 0xff ∷ 0xff ∷ 0xff ∷ 0xff ∷ 0xff ∷ 0xff ∷ 0xff ∷ 0xf5 ∷ []) ≡ partial }
    ensures above { front_frame (record { wants_mask = false; max_payload = 0xffff_ffff_ffff_ffff; judges_size = when_whole }) false
        (0x82 ∷ 0x7f ∷ 0xff ∷ 0xff ∷ 0xff ∷ 0xff ∷ 0xff ∷ 0xff ∷ 0xff ∷ 0xf6 ∷ []) ≡ breaks overflow }
{}

/// A reserved bit is refused, before anything else is.
pub fn reserved_bit()
    ensures { front_frame (connection_reader 65536) false (0xc3 ∷ 0x00 ∷ []) ≡ breaks invalid_reserved_bits }
{}

/// The mask is judged before the opcode, and an unknown opcode is refused.
pub fn unknown_opcode()
    ensures without_a_mask { front_frame (connection_reader 65536) false (0x83 ∷ 0x00 ∷ []) ≡ breaks unmasked_frame }
    ensures with_a_mask { front_frame (connection_reader 65536) false (0x83 ∷ 0x80 ∷ []) ≡ breaks (invalid_opcode 3) }
{}

/// A Ping of 126 bytes is too long, which is judged once the frame is whole: behind the length stand a mask and the payload.
pub fn long_ping()
    ensures { front_frame (connection_reader 65536) false (0x89 ∷ 0xfe ∷ 0x00 ∷ 0x7e ∷ replicate 130 0x00) ≡ breaks (invalid_length 126) }
{}

/// A Close of 126 bytes counts as one without payload, unfinished too.
pub fn long_close()
    ensures finished { front_frame (connection_reader 65536) false (0x88 ∷ 0xfe ∷ 0x00 ∷ 0x7e ∷ replicate 130 0x00)
        ≡ whole (close None) 134 }
    ensures unfinished { front_frame (connection_reader 65536) false (0x08 ∷ 0xfe ∷ 0x00 ∷ 0x7e ∷ replicate 130 0x00)
        ≡ whole (close None) 134 }
{}

/// While a message in fragments is under way, none is started.
pub fn started_inside()
    ensures { front_frame (connection_reader 65536) true (0x01 ∷ 0x80 ∷ 0x00 ∷ 0x00 ∷ 0x00 ∷ 0x00 ∷ [])
        ≡ breaks continuation_started }
{}

/// Where none is under way, none goes on.
pub fn goes_on_without_a_start()
    ensures { front_frame (connection_reader 65536) false (0x80 ∷ 0x80 ∷ 0x00 ∷ 0x00 ∷ 0x00 ∷ 0x00 ∷ [])
        ≡ breaks continuation_not_started }
{}

/// A Ping comes in one piece.
pub fn unfinished_ping()
    ensures { front_frame (connection_reader 65536) false (0x09 ∷ 0x80 ∷ 0x00 ∷ 0x00 ∷ 0x00 ∷ 0x00 ∷ [])
        ≡ breaks (continuation_fragment 9) }
{}

/// The code 1005 says that there is none, and no frame may carry it.
pub fn close_code_1005()
    ensures { front_frame (connection_reader 65536) false (0x88 ∷ 0x82 ∷ 0x00 ∷ 0x00 ∷ 0x00 ∷ 0x00 ∷ 0x03 ∷ 0xed ∷ [])
        ≡ breaks bad_op_code }
{}

/// One byte is half a code.
pub fn close_of_one_byte()
    ensures { front_frame (connection_reader 65536) false (0x88 ∷ 0x81 ∷ 0x00 ∷ 0x00 ∷ 0x00 ∷ 0x00 ∷ 0x03 ∷ [])
        ≡ breaks (invalid_length 1) }
{}

/// A length may stand in a longer form than it needs.
pub fn length_in_a_longer_form()
    ensures two_bytes { front_frame (connection_reader 65536) false (0x82 ∷ 0xfe ∷ 0x00 ∷ 0x01 ∷ 0x00 ∷ 0x00 ∷ 0x00 ∷ 0x00 ∷ 0x2a ∷ [])
        ≡ whole (binary (0x2a ∷ [])) 9 }
    ensures eight_bytes { front_frame (record { wants_mask = false; max_payload = 100; judges_size = at_length }) false
        (0x82 ∷ 0x7f ∷ 0x00 ∷ 0x00 ∷ 0x00 ∷ 0x00 ∷ 0x00 ∷ 0x00 ∷ 0x00 ∷ 0x01 ∷ 0x2a ∷ []) ≡ whole (binary (0x2a ∷ [])) 11 }
{}

/// A text and a Ping behind it, and then the first byte of a third frame.
pub fn two_frames()
    ensures { ReadsFrames (connection_reader 65536) false 0
        (0x81 ∷ 0x81 ∷ 0x00 ∷ 0x00 ∷ 0x00 ∷ 0x00 ∷ 0x61 ∷ 0x89 ∷ 0x80 ∷ 0x00 ∷ 0x00 ∷ 0x00 ∷ 0x00 ∷ 0x81 ∷ [])
        (record { frame = text (codes "a"); end = 7 } ∷ record { frame = ping []; end = 13 } ∷ []) None }
{}
