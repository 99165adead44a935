//! Vectors of messages: heads, bodies in pieces, heads of answers, messages within a limit, and texts of answers.
mod answers;
mod bodies;
mod heads;
mod limits;
mod responses;

use crate::messages::answers::{answer, camel_answer, chunks, interim, refusal, short};
use crate::messages::bodies::{chunked, chunked_bytewise, length, raw};
use crate::messages::heads::{head, scan};
use crate::messages::limits::{first_piece, message, messages_bytewise};
use crate::messages::responses::response;
use http_types::NoMemory;
use std::alloc::Global;
use vectors::{Case, Player, Report};

/// The calls of `h1_decoder`, `h1_payload`, `h1_codec` and `h1_encoder`.
pub struct Messages;

impl Player for Messages {
    fn play(&self, alloc: Global, case: &Case<'_>, found: &mut Report) -> Result<bool, NoMemory> {
        match case.call {
            b"scan" => scan(case, found),
            b"head" => head(alloc, case, found),
            b"response" => response(alloc, case, found),
            b"chunked" => chunked(alloc, case, found),
            b"chunked-bytewise" => chunked_bytewise(alloc, case, found),
            b"length" => length(alloc, case, found),
            b"raw" => raw(alloc, case, found),
            b"message" => message(alloc, case, found),
            b"messages-bytewise" => messages_bytewise(alloc, case, found),
            b"first-piece" => first_piece(alloc, case, found),
            b"answer" => answer(alloc, case, found),
            b"camel-answer" => camel_answer(alloc, case, found),
            b"interim" => interim(alloc, found),
            b"refusal" => refusal(alloc, case, found),
            b"chunks" => chunks(alloc, case, found),
            b"short" => short(alloc, case, found),
            _ => Ok(false),
        }
    }
}
