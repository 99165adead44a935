//! The program over any source and sink.
ghost use Rattle.std.specs.Prelude.{◌≡◌, ◌≢◌, ◌≤◌, ◌↔◌, ◌⊎◌, ℕ, List, IsTrue, map, string_bytes};
ghost use Rattle.http_config.specs.Causes.{counted};
ghost use Rattle.h1_replay.specs.Input.{told};
ghost use Rattle.h1_replay.specs.Output.{HasTaken, WritesPart, given_as};
ghost use Rattle.h1_replay.specs.Run.{IsReplay, NoEndFailed};
ghost use Rattle.h1_replay.specs.HubReply.{status_of_reply, text_of_reply};
ghost use Rattle.h1_replay.specs.HubRun.{IsAnswer, IsGood, IsRefused, IsRefusedWith};

use crate::hub_reply::{HubReply, WRITE_FAULT, hub_replay};
use crate::{InputError, read_input, write_all};
use http_types::{Sink, Source};
use std::alloc::Global;

/// Answers the program's words: reads `input` to its end as a script of a hub and writes its report. The answer is the exit
/// status: 0 for a report, 1 for wrong words, 2 for a bad line, 3 for a misplaced event, 4 for a failed read, 5 for a
/// failed write, 6 for more than 16777216 bytes of input, 7 where memory ran out. Nothing is written before the whole text
/// is made. A read that fails is the last one, and so is the one that gives the byte past the limit.
pub fn hub_run<S: Source, K: Sink>(
    alloc: Global,
    words: &[String],
    input: &mut S,
    output: &mut K,
) -> u8
    ensures known { result ≤ 7 }

    // With each status but 5 that status's text was written, and no write failed. The answer also says how far the
    // input was read.
    ensures answered { result ≢ 5 → ((text : List ℕ)
        × IsAnswer (map (λ w. string_bytes w) words.now) (told (S.left input.old) (S.faults input.old) (S.calls input.old))
        (told (S.left input.new) (S.faults input.new) (S.calls input.new)) result text
        × HasTaken (given_as (K.given output.old) (K.faults output.old) (K.calls output.old)) (given_as (K.given output.new) (K.faults output.new) (K.calls output.new)) text) }

    // With 5 a front part of the text of another one was written, and not the whole of it. The one write that failed
    // was the last.
    ensures cut { result ≡ 5 → ((status : ℕ) × (text : List ℕ)
        × IsAnswer (map (λ w. string_bytes w) words.now) (told (S.left input.old) (S.faults input.old) (S.calls input.old))
        (told (S.left input.new) (S.faults input.new) (S.calls input.new)) status text
        × WritesPart (given_as (K.given output.old) (K.faults output.old) (K.calls output.old)) (given_as (K.given output.new) (K.faults output.new) (K.calls output.new)) text) }

    // With 4 one read failed, and with each other status but 5 none.
    ensures read_fault { result ≡ 4 → S.faults input.new ≡ counted (S.faults input.old) }
    ensures no_read_fault { result ≢ 4 → result ≢ 5 → S.faults input.new ≡ S.faults input.old }

    // With 5 one write failed, and with each other status none.
    ensures write_fault { result ≡ 5 → K.faults output.new ≡ counted (K.faults output.old) }
    ensures no_write_fault { result ≢ 5 → K.faults output.new ≡ K.faults output.old }

    // Where no end fails, a script whose every event is taken gets 0, and another one 3 with the place of the first
    // that isn't; but for 7, where memory ran out.
    ensures complete { IsReplay (map (λ w. string_bytes w) words.now) → IsGood (S.left input.old)
        → NoEndFailed (S.faults input.old) (S.faults input.new) (K.faults output.old) (K.faults output.new)
        → (result ≡ 0) ⊎ (result ≡ 7) }
    ensures refused { (index : ℕ) → IsReplay (map (λ w. string_bytes w) words.now) → IsRefused (S.left input.old) index
        → NoEndFailed (S.faults input.old) (S.faults input.new) (K.faults output.old) (K.faults output.new)
        → IsRefusedWith (S.left input.old) index (K.given output.old) (K.given output.new) result }
{
    let reply = reply_to(alloc, words, input);
    match write_all(output, reply.text()) {
        Ok(()) => reply.status(),
        Err(_) => WRITE_FAULT,
    }
}

fn reply_to<S: Source>(alloc: Global, words: &[String], input: &mut S) -> HubReply
    ensures { IsAnswer (map (λ w. string_bytes w) words.now) (told (S.left input.old) (S.faults input.old) (S.calls input.old))
        (told (S.left input.new) (S.faults input.new) (S.calls input.new)) (status_of_reply result) (text_of_reply result) }
{
    if !is_replay(words) {
        return HubReply::Usage;
    }
    match read_input(alloc, input) {
        Ok(text) => hub_replay(alloc, &text),
        Err(InputError::Fault) => HubReply::ReadFault,
        Err(InputError::TooLong) => HubReply::TooLong,
        Err(InputError::NoMemory) => HubReply::NoMemory,
    }
}

fn is_replay(words: &[String]) -> bool
    ensures { IsTrue result ↔ IsReplay (map (λ w. string_bytes w) words.now) }
{
    match words {
        [word] => word.as_str() == "replay",
        _ => false,
    }
}
