//! The program over any source and sink.
ghost use Rattle.std.specs.Prelude.{◌≡◌, ◌≢◌, ◌≤◌, ◌↔◌, ◌⊎◌, ℕ, List, IsTrue, IfSome, IsNone, map, string_bytes};
ghost use Rattle.http_config.specs.Causes.{counted};
ghost use Rattle.h1_replay.specs.Input.{Told, told};
ghost use Rattle.h1_replay.specs.Output.{HasTaken, WritesPart, given_as};
ghost use Rattle.h1_replay.specs.Reply.{status_of_reply, text_of_reply, IsRunReply};
ghost use Rattle.h1_replay.specs.Run.{IsReplay, AreNumbers, IsGen, IsAnswer, AreTaken, IsGood, IsRefused, NoEndFailed, IsRefusedWith};

use crate::input::{InputError, read_input};
use crate::output::write_all;
use crate::reply::{Reply, WRITE_FAULT, replay};
use crate::word::number;
use h1_generated::{MAX_COUNT, summary_of};
use http_types::{Sink, Source};
use std::alloc::Global;

/// Answers the program's words. With `replay` it reads `input` to its end as a script and writes its report. With `gen`,
/// a seed and a number of exchanges, at most 20000, it writes the summary of that generated run, and doesn't read. The
/// answer is the exit status: 0 for a report or a summary, 1 for wrong words, 2 for a bad line, 3 for a misplaced
/// event, 4 for a failed read, 5 for a failed write, 6 for more than 16777216 bytes of input, 7 where
/// memory ran out. Nothing is written before the whole text is made. A read that fails is the last one,
/// and so is the one that gives the byte past the limit.
pub fn run<S: Source, K: Sink>(alloc: Global, words: &[String], input: &mut S, output: &mut K) -> u8
    ensures known { result ≤ 7 }

    // With each status but 5 that status's text was written, and no write failed. The answer also says how far the
    // input was read.
    ensures answered { result ≢ 5 → ((text : List ℕ)
        × IsAnswer (map (λ w. string_bytes w) words.now) (told (S.left input.old) (S.faults input.old) (S.calls input.old))
        (told (S.left input.new) (S.faults input.new) (S.calls input.new)) result text
        × HasTaken (given_as (K.given output.old) (K.faults output.old) (K.calls output.old)) (given_as (K.given output.new) (K.faults output.new) (K.calls output.new)) text) }

    // With 5 a front part of the text of another one was written, and not the whole of it. The one write that failed
    // was the last.
    ensures cut { result ≡ 5 → ((status : ℕ) × (text : List ℕ)
        × IsAnswer (map (λ w. string_bytes w) words.now) (told (S.left input.old) (S.faults input.old) (S.calls input.old))
        (told (S.left input.new) (S.faults input.new) (S.calls input.new)) status text
        × WritesPart (given_as (K.given output.old) (K.faults output.old) (K.calls output.old)) (given_as (K.given output.new) (K.faults output.new) (K.calls output.new)) text) }

    // With 4 one read failed, and with each other status but 5 none.
    ensures read_fault { result ≡ 4 → S.faults input.new ≡ counted (S.faults input.old) }
    ensures no_read_fault { result ≢ 4 → result ≢ 5 → S.faults input.new ≡ S.faults input.old }

    // With 5 one write failed, and with each other status none.
    ensures write_fault { result ≡ 5 → K.faults output.new ≡ counted (K.faults output.old) }
    ensures no_write_fault { result ≢ 5 → K.faults output.new ≡ K.faults output.old }

    // Where no end fails, a script whose every event is allowed gets 0, and another one 3 with the place of the first
    // that isn't; but for 7, where memory ran out.
    ensures complete { IsReplay (map (λ w. string_bytes w) words.now) → IsGood (S.left input.old)
        → NoEndFailed (S.faults input.old) (S.faults input.new) (K.faults output.old) (K.faults output.new)
        → (result ≡ 0) ⊎ (result ≡ 7) }
    ensures refused { (index : ℕ) → IsReplay (map (λ w. string_bytes w) words.now) → IsRefused (S.left input.old) index
        → NoEndFailed (S.faults input.old) (S.faults input.new) (K.faults output.old) (K.faults output.new)
        → IsRefusedWith (S.left input.old) index (K.given output.old) (K.given output.new) result }

    // No event of a generated run is refused: it gets 0, but for 5 where a write failed, and 7 where memory ran out.
    ensures generated { (seed count : ℕ) → IsGen (map (λ w. string_bytes w) words.now) seed count
        → AreTaken seed count × ((result ≡ 0) ⊎ ((result ≡ 5) ⊎ (result ≡ 7))) }
{
    let reply = reply_to(alloc, words, input);
    match write_all(output, reply.text()) {
        Ok(()) => reply.status(),
        Err(_) => WRITE_FAULT,
    }
}

fn reply_to<S: Source>(alloc: Global, words: &[String], input: &mut S) -> Reply
    ensures { IsAnswer (map (λ w. string_bytes w) words.now) (told (S.left input.old) (S.faults input.old) (S.calls input.old))
        (told (S.left input.new) (S.faults input.new) (S.calls input.new)) (status_of_reply result) (text_of_reply result) }
{
    if !is_replay(words) {
        return reply_unread(alloc, words);
    }
    match read_input(alloc, input) {
        Ok(text) => replay(alloc, &text),
        Err(InputError::Fault) => Reply::ReadFault,
        Err(InputError::TooLong) => Reply::TooLong,
        Err(InputError::NoMemory) => Reply::NoMemory,
    }
}

fn is_replay(words: &[String]) -> bool
    ensures { IsTrue result ↔ IsReplay (map (λ w. string_bytes w) words.now) }
{
    match words {
        [word] => word.as_str() == "replay",
        _ => false,
    }
}

// The reply to words for which the input isn't read.
fn reply_unread(alloc: Global, words: &[String]) -> Reply
    requires { ¬ IsReplay (map (λ w. string_bytes w) words.now) }
    ensures { (source : Told) → IsAnswer (map (λ w. string_bytes w) words.now) source source (status_of_reply result) (text_of_reply result) }
{
    match numbers_of(words) {
        Some((seed, count)) => sum_up(alloc, seed, count),
        None => Reply::Usage,
    }
}

// The reply to a generated run.
fn sum_up(alloc: Global, seed: u64, count: u64) -> Reply
    requires { count ≤ 20000 }
    ensures { IsRunReply seed count result }
{
    match summary_of(alloc, seed, count) {
        Ok(text) => Reply::Done(text),
        Err(_) => Reply::NoMemory,
    }
}

// The seed and the number of exchanges of a generated run, where the words ask for one.
fn numbers_of(words: &[String]) -> Option<(u64, u64)>
    ensures some { IfSome result (λ r. IsGen (map (λ w. string_bytes w) words.now) r.0 r.1) }
    ensures none { IsNone result → (seed count : ℕ) → ¬ IsGen (map (λ w. string_bytes w) words.now) seed count }
{
    let [word, seed, count] = words else {
        return None;
    };
    if word.as_str() != "gen" {
        return None;
    }
    two_numbers(seed.as_str().as_bytes(), count.as_str().as_bytes())
}

// The numbers of two words, of which the second isn't too large.
fn two_numbers(seed: &[u8], count: &[u8]) -> Option<(u64, u64)>
    ensures some { IfSome result (λ r. AreNumbers seed.now count.now r.0 r.1) }
    ensures none { IsNone result → (s c : ℕ) → ¬ AreNumbers seed.now count.now s c }
{
    let seed = number(seed)?;
    let count = number(count)?;
    if count > MAX_COUNT {
        return None;
    }
    Some((seed, count))
}
