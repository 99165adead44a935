//! The state of a connection: what it keeps between two events, one short case for each event, and the laws that tie both
//! to the tables of `model_h1` over whole traces.
//!
//! The tables say what a connection does by all that happened to it, which no program can keep. The state has a few parts,
//! bounded but for the bytes that wait to be written, and a step depends on these and the event alone. No code runs here:
//! an engine is proved against the step, and what `model_h1` says of a trace holds of the engine by the laws.
//!
//! # The definitions
//!
//! - `Kept`, in `specs/Kept.antt`, is the state; `specs/StandsFor.antt` says when it stands for a trace.
//! - `IsStep`, in `specs/Change.antt`, is the step, with `specs/Local.antt` for what is allowed and why a connection closes,
//!   and `specs/Body.antt`, `specs/Pull.antt`, `specs/Reply.antt`, `specs/Clock.antt` for the cases of their names.
//! - `deadline_by`, in `specs/Deadline.antt`, is the moment before which no tick tells that a time has run out.
//! - `ahead`, in `specs/Ahead.antt`, is how many heads of pipelined requests are decoded ahead of the one handed out last:
//!   16 at most, as long as the message before has no body.
//! - `body_runs`, in `specs/Marks.antt`, says where pieces of bodies stand in the text, and `first_segment`, in
//!   `specs/Runs.antt`, what a writer may hand to a socket by itself, so that a large piece isn't copied.
//!
//! # The laws
//!
//! - [`machine`]: a fresh state stands for the empty trace, each step keeps it so, and each allowed event has one step.
//! - [`deadline`]: the state tells the same deadline as the trace.
//! - [`counting`], [`traces`]: the number of heads ahead is the greatest that may be, and how each event changes it.
//! - [`laws`]: the segments of the bytes that wait.
//! - [`ahead_examples`], [`segment_examples`]: small cases with all their values.
#![tactic(auto)]

pub mod ahead_examples;
pub mod counting;
pub mod deadline;
pub mod laws;
pub mod machine;
pub mod segment_examples;
pub mod traces;
