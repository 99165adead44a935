// Writing all of a text.
ghost use Rattle.std.specs.Prelude.{◌≡◌, OnOk, OnErr};
ghost use Rattle.std.specs.Io.KnownBytes.{Appends};
ghost use Rattle.http_config.specs.Causes.{Rose};
ghost use Rattle.board_server.specs.Writing.{Says};

use http_config::{Failed, Sink};

/// Writes a text, and answers the status, or 5 where the sink failed.
pub(crate) fn say<O: Sink>(output: &mut O, text: &[u8], status: u8) -> u8
    ensures { Says result status text.now (O.given output.old) (O.given output.new) (O.faults output.old) (O.faults output.new) }
{
    match write_all(output, text) {
        Ok(()) => status,
        Err(_) => 5,
    }
}

/// Writes all of `text`, in as many calls as the sink wants.
fn write_all<O: Sink>(output: &mut O, text: &[u8]) -> Result<(), Failed>
    ensures all { OnOk result (Appends (O.given output.old) (O.given output.new) text.now) }
    ensures failed { OnErr result (Rose (O.faults output.old) (O.faults output.new)) }
{
    let mut rest = text;
    while !rest.is_empty() {
        let count = output.write(rest)?;
        rest = &rest[count..];
    }
    Ok(())
}
