//! The client's side of an HTTP/1 connection: what the bytes of answers say, what the connection keeps and does, and what it
//! hands out, as definitions on plain values with their laws.
//!
//! Where an answer ends depends on its head and on the method that was asked. No code runs here: `ClientConnection` of
//! `h1_client` is proved against these definitions, which stand on those of `model_h1` and `model_state`.
//!
//! # The definitions
//!
//! - `AreAnswersIn`, in `specs/AnswerParse.antt`: the answers in all bytes received, to requests of which methods. A head is
//!   read by `specs/AnswerReading.antt`, its body framed by `specs/AnswerTable.antt`. A head that the grammar refuses is
//!   read once more without blanks before colons (`specs/LaxText.antt`), and the answer tells so.
//! - `specs/WrittenHead.antt` and `specs/RequestText.antt`: the text of a request, and which requests are plain.
//! - `IsClientStep`, in `specs/ClientStep.antt`: the step of each event, by the state of `specs/ClientKept.antt`;
//!   `IsClientTrace`, in `specs/ClientTrace.antt`: all that happened.
//! - `specs/ReadOut.antt` and `specs/Parsed.antt`: what was handed out, and when it is the beginning of the answers.
//!
//! # The laws
//!
//! - [`answer_head`], [`answers`]: any bytes hold one list of answers, and later bytes leave each where it was.
//! - [`machine_laws`]: one step for each event; answers come in the order of their requests.
//! - [`laws`]: what is handed out is what the bytes say.
//! - [`answer_examples`], [`machine_examples`], [`table_examples`], [`examples`]: small cases with all their values.
#![tactic(auto)]

pub mod answer_examples;
pub mod answer_head;
pub mod answers;
pub mod examples;
pub mod laws;
pub mod machine_examples;
pub mod machine_laws;
pub mod table_examples;
