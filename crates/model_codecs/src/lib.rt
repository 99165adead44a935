//! Codecs of two ends agree: what one end's codec writes, the other end's gives as it was sent, in whatever pieces the bytes
//! come.
//!
//! No code runs here. The laws speak of the calls of `h1_codec`, `ws_frames` and `ws_session`, by the clauses of their
//! contracts, and of the messages that were sent, by the definitions of `model_ends`.
//!
//! # HTTP/1, in [`laws`]
//!
//! - [`laws::a_codec_gives_what_a_client_wrote`]: a server's `Codec` gives the plain requests that a `ClientCodec` wrote, each
//!   head as it was sent, all bytes of its body, and its end.
//! - [`laws::client_codecs_give_what_was_answered`]: a `ClientCodec`, and the `ClientPayloadCodec` that it changes into, give
//!   each answer in the turn of its request. A request may be written once the answer before its own is read to its end.
//! - Of these the only error is that memory ran out, after which the same is asked for again.
//! - [`laws::a_codec_gives_the_parse`], [`laws::client_codecs_give_the_parse`]: of any bytes a codec gives the beginning of the one
//!   parse, and each error has its cause there.
//!
//! # WebSocket (RFC 6455, section 5), in [`upgrade_laws`]
//!
//! - [`upgrade_laws::a_codec_reads_what_was_sent`], [`upgrade_laws::a_session_reads_what_was_sent`]: a server's `Codec`, and
//!   its `Session`, give the legal frames that a client's codec wrote, in their order.
//!
//! # Not promised
//!
//! Answers whose body only the end of the input ends, interim answers, upgrades, the frames that a server sends, and that a
//! text is UTF-8.
#![tactic(auto)]

pub mod laws;
pub mod upgrade_laws;
