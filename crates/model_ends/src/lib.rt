//! Two ends of one HTTP/1 connection agree: what one end writes, the other reads as it was meant, and what it hands out is
//! what the other end was given.
//!
//! No code runs here. The laws speak of the traces of a server (`model_h1`) and of a client (`model_client`), so they hold
//! of any two engines that are proved against these, as `Connection` and `ClientConnection` are.
//!
//! # Texts
//!
//! - [`response_agreement::two_ends`]: a client that reads all that a connection wrote reads exactly its answers, each to its own
//!   request. [`response_agreement::two_ends_so_far`] is the same of the first bytes.
//! - [`request_agreement::two_ends_of_requests`]: the same of the requests that a client writes, and a server's parse.
//! - [`heads`]: which heads are read back as they were written. [`frames`]: masked frames are read as they were.
//!
//! # Both ends
//!
//! - [`laws::two_ends_agree`]: drive a client and a server against each other in any way. At every moment each has handed
//!   out a beginning of what the other was given, and an end only behind all of it.
//! - [`laws::nothing_is_left`]: where all bytes were taken and nothing more comes, every request, or answer, is handed out.
//! - [`laws::an_older_answer_has_its_end`]: an answer's body is read up, or dropped, before the next answer comes.
//! - [`laws::both_close_after_the_same_exchange`]: both close at the same exchange, for the same reason.
//!
//! `ArePlain`, in `specs/Connected.antt`, and `specs/PlainExchange.antt` say of which exchanges. Not of upgrades, of bodies that
//! only the end of the input ends, of HTTP/1.0 requests or of refusals; [`laws::a_server_hands_out_what_was_asked`] and
//! [`laws::a_client_hands_out_what_was_answered`] ask less. [`agreement_examples`] and [`examples`] have small exchanges.
#![tactic(auto)]

pub mod agreement_examples;
pub mod examples;
pub mod frames;
pub mod heads;
pub mod laws;
pub mod request_agreement;
pub mod response_agreement;
