//! Scripts of events, and reports of what is answered to them: of one connection, or of a hub of chat rooms over WebSocket. So
//! an exchange can be written down, replayed and compared, byte for byte. For `app_replay` and for tests.
//!
//! A script is a text: a line with the settings, then a line for each event. The report has a line for each outcome, then the
//! bytes that are still to be written.
//!
//! - [`replay`] answers a connection's script in memory; [`run`] answers the words of a program, over a source and a sink of
//!   any kind: `replay` with a script, or `gen` with a run of `h1_generated`, which it sums up.
//! - [`hub_run`] answers the words of a program for a hub, whose scripts also open connections and give them turns.
//! - The readers of lines and writers of words, for programs with scripts and reports of their own.
//!
//! # Example
//!
//! ```ignore
//! // One byte comes (`G`), the input ends, and the next request is asked for.
//! let reply = h1_replay::replay(alloc, b"config 5000 5000 0 1 32768\nread 47\neof\nnext\n");
//! // status 0, and the lines: took 1, done, closed input-ended, buffered -, state input-ended
//! ```
//!
//! # Contract
//!
//! The status and the text of an answer are those of the script's one trace, or name the first line or event that has none.
//! Nothing is written before the whole text is made. Only an answer that memory ran out may come at any time.
#![tactic(auto)]

mod answer;
mod hub_program;
mod hub_reply;
mod hub_report;
mod hub_script;
mod input;
mod marks;
mod message;
mod outcome;
mod output;
mod pieces;
mod program;
mod reply;
mod report;
mod script;
mod text;
mod websocket;
mod word;

pub use hub_program::hub_run;
pub use hub_reply::{HubReply, hub_replay};
pub use hub_report::hub_report_of;
pub use hub_script::{HubScript, read_hub_script};
pub use input::{InputError, read_input};
pub use output::write_all;
pub use pieces::{Pieces, first_piece};
pub use program::run;
pub use reply::{Reply, numbered_line, replay};
pub use report::{
    broken_word, end_word, fault_word, put_head, put_named, put_named_hex, put_pairs, report_of,
};
pub use script::{Script, ScriptError, config_line, event_line, read_script, without_last_feed};
pub use text::put_number;
pub use websocket::{check_word, put_frame, put_rule};
pub use word::{LineError, number};
