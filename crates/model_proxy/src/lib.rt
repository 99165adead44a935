//! What a forwarder (a reverse proxy) means: definitions on plain values, and the laws that hold of them.
//!
//! A forwarder reads the requests of a client, sends each on to a server, and passes the server's answer on. It reads each
//! message once and writes it anew, so that no two readers can disagree about where one ends. No code runs here: `proxy` is
//! proved with these definitions.
//!
//! # The definitions
//!
//! - Which heads are refused: `specs/Judged.antt`, as RFC 9112 says, unless such heads are taken.
//! - What is sent on: `specs/HopNames.antt` has the header lines that are for one connection alone, `specs/Edge.antt` what is told of
//!   the forwarder and of its client, `specs/Targets.antt` the target that a server gets, `specs/Forward.antt` which requests can be
//!   sent on and what is sent for them, `specs/SentWhole.antt` a request all of which was sent.
//! - What is passed on: `specs/Answers.antt` says which answer a server's bytes hold (`IsAnswer`), and what the client gets.
//! - A forwarder: `specs/Past.antt` has its events and outcomes, `specs/Exchange.antt` the requests of its client,
//!   `specs/Forwarding.antt` what is to be proved of it: `IsForwardedSoFar` behind its steps, and `IsForwarding` after each
//!   single step, which is one as it may be (`IsStep`), with what it made of the newest request (`GoesOn`). So each cause
//!   stands before what follows from it.
//!   `specs/Rests.antt` says when turns are taken (`MayTurn`), and when nothing is left to do (`Rests`).
//! - `specs/Left.antt` counts what is left to do with what came from either side.
//!
//! # The laws
//!
//! - [`request_laws`]: a server reads exactly the requests that were sent on, and one line frames each body.
//! - [`edge_laws`]: one host is named, and the forwarder; and a client's own words of earlier clients are replaced.
//! - [`response_laws`], [`replies`]: any bytes hold one answer, and no line of the server frames what the client gets for it.
//! - [`forwarders`], [`trace_laws`]: what a server got, and what is read of its answers, by all that happened.
//! - [`left_laws`]: what each call of a connection leaves to do.
//! - [`examples`]: small requests, answers and histories with all their values.
#![tactic(auto)]

pub mod edge_laws;
pub mod examples;
pub mod forwarders;
pub mod left_laws;
pub mod replies;
pub mod request_laws;
pub mod response_laws;
pub mod trace_laws;
