//! Vectors of WebSocket: frames that are read and written, closes, keys, and requests for an upgrade.
mod closes;
mod numbers;
mod reading;
mod shown;
mod upgrades;
mod writing;

use crate::frames::closes::{any_close, close};
use crate::frames::numbers::{close_code, key, opcode};
use crate::frames::reading::{cuts, declared, first, frames, parse};
use crate::frames::upgrades::{accept, refusal, upgrade};
use crate::frames::writing::{mask, put_close, send, write};
use http_types::NoMemory;
use std::alloc::Global;
use vectors::{Case, Player, Report};

/// The calls of `ws_frames` and `ws_session`.
pub struct Frames;

impl Player for Frames {
    fn play(&self, alloc: Global, case: &Case<'_>, found: &mut Report) -> Result<bool, NoMemory> {
        match case.call {
            b"close-code" => close_code(case, found),
            b"opcode" => opcode(alloc, case, found),
            b"key" => key(case, found),
            b"close" => close(alloc, case, found),
            b"any-close" => any_close(alloc, case, found),
            b"frames" => frames(alloc, case, found),
            b"cuts" => cuts(alloc, case, found),
            b"first" => first(alloc, case, found),
            b"parse" => parse(alloc, case, found),
            b"declared" => declared(alloc, case, found),
            b"mask" => mask(alloc, case, found),
            b"write" => write(alloc, case, found),
            b"put-close" => put_close(alloc, case, found),
            b"send" => send(alloc, case, found),
            b"upgrade" => upgrade(alloc, case, found),
            b"accept" => accept(alloc, case, found),
            b"refusal" => refusal(alloc, case, found),
            _ => Ok(false),
        }
    }
}
