//! The words of scripts.
ghost use Rattle.std.specs.Prelude.{◌≤◌};

use h1_replay::hub_run;
use http_types::{Sink, Source};
use std::alloc::Global;

/// Answers the program's words: those behind `hub` as `hub_run` of `h1_replay` does, others as `run` of `h1_replay`
/// does. The answer is the exit status.
pub fn run<S: Source, K: Sink>(alloc: Global, words: &[String], input: &mut S, output: &mut K) -> u8
    ensures known { result ≤ 7 }
{
    match behind_hub(words) {
        Some(rest) => hub_run(alloc, rest, input, output),
        None => h1_replay::run(alloc, words, input, output),
    }
}

// The words behind `hub`, where that is the first.
fn behind_hub(words: &[String]) -> Option<&[String]> {
    let (word, rest) = words.split_first()?;
    if word.as_str() == "hub" {
        Some(rest)
    } else {
        None
    }
}
