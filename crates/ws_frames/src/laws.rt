//! What opcodes, close codes and masks keep.
ghost use Rattle.std.specs.Prelude.{◌≡◌, ◌≢◌, ℕ, ◌+◌, List, ◌++◌, length, None};
ghost use Rattle.model_h1.specs.FrameText.{opcode_of, opcode_number, opcode_error, unmask};
ghost use Rattle.ws_frames.specs.Protocol.{code_of, opcode_written, close_number, close_code};

use crate::proto::OpCode;

/// A number comes back from the close code that it is read as.
pub fn close_codes_keep_their_numbers()
    ensures { (number : ℕ) → close_number (close_code number) ≡ number }
{}

/// An opcode comes back from its number, and a number that has a meaning from its opcode.
pub fn opcodes_keep_their_numbers()
    ensures code { (op : OpCode) → op ≢ OpCode.Bad → code_of (opcode_of (opcode_number (opcode_written op))) ≡ op }
    ensures number { (number : ℕ) → opcode_error (opcode_of number) ≡ None
        → opcode_number (opcode_written (code_of (opcode_of number))) ≡ number }
{}

/// Bytes that are masked part by part, each part from its own place on, are masked as they are all at once.
pub fn masking_goes_on()
    ensures { (mask : List ℕ) (from : ℕ) (bytes more : List ℕ)
        → unmask mask from (bytes ++ more) ≡ unmask mask from bytes ++ unmask mask (from + length bytes) more }
{}
