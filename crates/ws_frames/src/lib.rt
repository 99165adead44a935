//! WebSocket frames (RFC 6455): what they say, their texts, and the mask.
//!
//! [`Codec`] reads frames from a buffer that grows and writes messages into another one, as a server or as a client;
//! [`Parser`] does the same frame by frame and keeps no state. Both answer what the definitions of `model_h1` say of all
//! bytes, in whatever pieces these come. A payload that is read shares the memory of the buffer, its mask taken off
//! where it lies, and no memory is asked for because of a length that a peer declares. A codec is also a `Decoder` and an
//! `Encoder<Message>` of `http_framing`. [`take_front`] takes one frame for whoever keeps the bytes and the place within a
//! message: it judges a size as soon as its length is there, and leaves all bytes where a rule is broken.
//!
//! A server reads the text `Hello` in two pieces, and sends it back:
//!
//! ```text
//! let mut codec = Codec::new();
//! let mut input = BytesMut::copy_from_slice(alloc, b"\x81\x85\x37\xfa\x21\x3d\x7f\x9f")?;
//! codec.decode(alloc, &mut input)?;                      // None: the frame isn't whole
//! input.extend_from_slice(b"\x4d\x51\x58")?;
//! codec.decode(alloc, &mut input)?;                      // Some(Frame::Text(b"Hello"))
//! let mut output = BytesMut::new(alloc);
//! codec.encode(alloc, Message::Text(String::from_str(alloc, "Hello")?), &mut output)?;
//! // output: b"\x81\x05Hello"
//! ```
#![tactic(auto)]

mod codec;
mod error;
mod frame;
mod framing;
mod front;
mod kind;
mod laws;
mod mask;
mod message;
mod parser;
mod pieces;
mod proto;
mod send;
mod take;

pub use codec::{Codec, NoWords};
pub use error::ProtocolError;
pub use front::{take_front, waits_for_frame};
pub use laws::{close_codes_keep_their_numbers, masking_goes_on, opcodes_keep_their_numbers};
pub use mask::{apply_mask, apply_mask_fast32, mask_from};
pub use message::{Frame, Item, Message};
pub use parser::Parser;
pub use pieces::{bytes_are_frames, decoding_goes_on};
pub use proto::{CloseCode, CloseReason, OpCode, hash_key};

/// The allocator had no memory.
pub type NoMemory = std::alloc::AllocError;
