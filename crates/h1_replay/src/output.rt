//! A whole text, written once.
ghost use Rattle.std.specs.Prelude.{OnOk, OnErr};
ghost use Rattle.h1_replay.specs.Output.{HasTaken, WritesPart, given_as};

use http_types::{Failed, Sink};

/// Writes all of `text`, in as many calls as the sink wants. The first write that fails is the last: then a front part
/// of the text is written, and not all.
pub fn write_all<K: Sink>(output: &mut K, text: &[u8]) -> Result<(), Failed>
    ensures all { OnOk result (HasTaken (given_as (K.given output.old) (K.faults output.old) (K.calls output.old)) (given_as (K.given output.new) (K.faults output.new) (K.calls output.new)) text.now) }
    ensures part { OnErr result (WritesPart (given_as (K.given output.old) (K.faults output.old) (K.calls output.old)) (given_as (K.given output.new) (K.faults output.new) (K.calls output.new)) text.now) }
{
    let mut rest = text;
    while !rest.is_empty() {
        let count = output.write(rest)?;
        rest = &rest[count..];
    }
    Ok(())
}
