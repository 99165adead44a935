//! What an HTTP/1 connection with WebSocket upgrade means: definitions on plain values, and their laws.
//!
//! A connection is given events (bytes that come, answers, calls for what came, ticks of a clock) and has one outcome for
//! each. The definitions say which, by the trace of all events and outcomes so far. No code runs here: an engine is proved
//! against these definitions, and a reader who asks what a connection means needs nothing else.
//!
//! # The definitions
//!
//! - Bodies in chunks (RFC 7230, section 4.1): `specs/ChunkedText.antt` has their grammar, and `IsChunked`, in
//!   `specs/Chunked.antt`, says how any bytes stand to it. `specs/Place.antt`, `specs/Reading.antt` and
//!   `specs/TakeNext.antt` read them byte by byte or piece by piece.
//! - What bytes say: `IsParse`, in `specs/Parse.antt`, with `specs/HeadPiece.antt`, `specs/RequestHead.antt`,
//!   `specs/LengthTable.antt` and `specs/FrameText.antt`.
//! - What a connection does: `IsTrace`, in `specs/Trace.antt`, by the tables of `specs/Closing.antt`,
//!   `specs/Allowed.antt` and `specs/OutcomeTable.antt` over the sums of `specs/Sums.antt` and `specs/Past.antt`.
//! - What is written (`specs/Text.antt`), what a program gets (`specs/Handed.antt`), how long it may sleep (`specs/Deadline.antt`).
//!
//! # The laws
//!
//! - [`chunked`], [`reading`], [`taking`]: any bytes are read as a body in chunks in one way, wherever they are cut.
//! - [`parse`], [`request_head`], [`head_piece`], [`frame_text`]: any bytes have one parse, and later bytes change no message
//!   that is whole.
//! - [`trace`], [`runs`], [`deadline`], [`text`], [`handed`]: an event has one outcome, a list of events one trace, no timer
//!   fires before the deadline, and what is written and handed out doesn't depend on the cuts.
//! - [`examples`], [`chunk_examples`] and the other modules of examples: small inputs with all their values.
#![tactic(auto)]

pub mod chunk_examples;
pub mod chunked;
pub mod closing_examples;
pub mod deadline;
pub mod deadline_examples;
pub mod examples;
pub mod frame_examples;
pub mod frame_text;
pub mod handed;
pub mod head_examples;
pub mod head_piece;
pub mod parse;
pub mod parse_examples;
pub mod reading;
pub mod request_head;
pub mod runs;
pub mod taking;
pub mod text;
pub mod tick_examples;
pub mod trace;
pub mod trace_examples;
