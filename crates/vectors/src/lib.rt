//! Vectors: cases in clear text, each with a call's name, what goes in, and what has to come out.
//!
//! A file of vectors has one case a line. Blank lines and lines that begin with `#` are passed over.
//!
//! ```text
//! # call, arguments, " = ", what is expected
//! date "Sun Nov  6 08:49:37 1994" = 784111777 "Sun, 06 Nov 1994 08:49:37 GMT"
//! head "GET / HTTP/1.1\r\n"+"x: y\r\n"*97+"\r\n" = too-large
//! ```
//!
//! An argument is a word, or texts in double quotes, each perhaps repeated by `*` and a number, joined by `+`. In quotes
//! `\r`, `\n`, `\t`, `\\`, `\"` and `\xHH` stand for one byte each. What is expected is compared as text, with
//! joined and repeated quotes put into one; there `[ a="b"]*3` repeats what stands in the brackets. Whoever plays a case
//! writes its answer in the same form, into a [`Report`].
//!
//! # Example
//!
//! A program is a [`FilePlayer`] that finds by a file's folder ([`folder_of`]) how it is played, and gives itself to
//! [`play_arguments`]. A file of cases goes to [`play_lines`] with a [`Player`], which knows calls by their names. Adding a
//! vector is adding a line. A file whose cases have several lines each goes to [`play_blocks`] with a [`BlockPlayer`]; where
//! they are to be played in pieces of many sizes too, to [`play_in_pieces`] with a [`PiecePlayer`].
#![tactic(auto)]

mod arguments;
mod block;
mod blocks;
mod case;
mod clear;
mod cursor;
mod files;
mod pieces;
mod player;
mod quoted;
mod report;

pub use arguments::{FilePlayer, folder_of, play_arguments, refuse_file};
pub use block::{Block, put_unreadable};
pub use blocks::{BlockPlayer, play_blocks};
pub use case::{Case, CaseError, read_case, read_joined};
pub use clear::{Form, put_clear};
pub use cursor::Cursor;
pub use files::play_lines;
pub use pieces::{PiecePlayer, play_in_pieces};
pub use player::{Player, Tally, play_cases};
pub use report::Report;
