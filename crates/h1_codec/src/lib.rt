//! Codecs of HTTP/1 messages: heads, pieces of bodies and their ends, from bytes in any pieces and into bytes. For a program
//! that frames a transport itself, by `http_transport::Framed`, and for one that only wants to decode.
//!
//! - [`MessageDecoder`] decodes requests or answers out of a buffer; [`PayloadType`] tells what reads the body.
//! - [`Codec`] is a server's: it decodes requests and encodes answers. [`next_head`] and [`next_piece`] are the steps of all codecs.
//! - [`ClientCodec`] and [`ClientPayloadCodec`] are a client's: one for heads, one for bodies.
//! - [`SendResponse`] and [`SendMessage`] write a whole message over a framed transport, in as many polls as it needs.
//!
//! # Example
//!
//! ```ignore
//! let mut framed = Framed::new(alloc, transport, Codec::new(ServiceConfig::default()));
//! framed.next_item(cx)                            // Ready(Some(Ok(Message::Item(head)))), then the body's chunks and its end
//! framed.write(Message::Item((Response::ok(alloc), BodySize::Sized(2))))?;
//! framed.write(Message::Chunk(Some(bytes)))?;     // hi
//! framed.write(Message::Chunk(None))?;            // the end
//! ```
//!
//! # Contract
//!
//! What is decoded is what the definitions say of the bytes: [`message_laws`], [`server_laws`] and [`client_laws`] say that no
//! cut changes it. What is encoded is the text of the definitions. An error changes nothing, but for a body that broke, which
//! stays broken. A sender writes the head, each chunk once and in order, and the end ([`send_laws`]).
#![tactic(auto)]

mod client_codec;
mod client_error;
mod client_framing;
pub mod client_laws;
mod client_piece;
mod client_state;
mod decoder;
mod framed_message;
mod head;
mod merged;
pub mod message_laws;
mod next_item;
mod next_message;
mod payload;
mod payload_type;
mod read_head;
mod request;
mod response;
mod send_error;
pub mod send_laws;
mod send_message;
mod sending;
mod server_codec;
mod server_framing;
pub mod server_laws;
mod server_piece;
mod turn;

pub use client_codec::ClientCodec;
pub use client_error::ClientError;
pub use decoder::MessageDecoder;
pub use framed_message::{Message, MessageType};
pub use h1_decoder::{
    BodyKind, HeadItem, HeadRoom, HeadScan, HeadScanner, ResponseItem, read_head_into,
    request_head, request_head_in, response_head, scan_head,
};
pub use h1_payload::{
    BodyFault, ChunkedState, DecodeError, PayloadDecoder, PayloadItem, Pulled, Rest, RestKind,
};
pub use next_item::next_head;
pub use payload::ClientPayloadCodec;
pub use payload_type::PayloadType;
pub use read_head::ReadHead;
pub use response::{SendResponse, send_response};
pub use send_error::SendError;
pub use send_message::SendMessage;
pub use server_codec::Codec;
pub use server_piece::{Piece, next_piece};
