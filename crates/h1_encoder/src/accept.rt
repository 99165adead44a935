//! The answer that upgrades a connection to WebSocket.
ghost use Rattle.std.specs.Prelude.{◌≡◌, ◌++◌, ◌<◌, ◌≤◌, Bool, OnOk, OnErr};
ghost use Rattle.model_h1.specs.Answer.{size_stream};
ghost use Rattle.model_h1.specs.Setting.{Setting};
ghost use Rattle.model_h1.specs.Handshake.{accepting_head};
ghost use Rattle.model_h1.specs.Limits.{MAX_MOMENT};
ghost use Rattle.model_h1.specs.Text.{answer_head_text};
ghost use Rattle.h1_encoder.specs.WrittenLines.{accept_start};

use crate::{Asked, DateLine};
use bytes::BytesMut;
use http_types::NoMemory;

/// Puts the head that upgrades a connection to WebSocket, by the answer to the request's key (RFC 6455, section 4.2.2);
/// `now` is in milliseconds since the start of 1970, before the year 10000. Its connection line says `upgrade`, whatever
/// the request asks of the connection, and also while the connection drains. Where memory is wanting `out` holds what it
/// held.
pub fn put_accept(
    out: &mut BytesMut,
    asked: Asked,
    key: &[u8; 28],
    date: &mut DateLine,
    now: u64,
) -> Result<(), NoMemory>
    requires { now < MAX_MOMENT }
    ensures ok { OnOk result ((setting : Setting) (draining : Bool)
        → out.new.items ≡ out.old.items ++ answer_head_text setting draining asked (accepting_head key.now) size_stream now) }
    ensures err { OnErr result (out.new.items ≡ out.old.items) }
{
    date.set(now);
    let start = accept_start(asked.minor());
    let end = date.as_bytes();
    out.reserve(start.len() + key.len() + 2 + end.len())?;
    out.extend_reserved(start);
    out.extend_reserved(key);
    out.extend_reserved(b"\r\n");
    out.extend_reserved(end);
    Ok(())
}

// What stands in front of the key.
fn accept_start(minor: u8) -> &'static [u8; 97]
    requires { minor ≤ 1 }
    ensures { result.now ≡ accept_start minor }
{
    if minor == 0 {
        b"HTTP/1.0 101 Switching Protocols\r\nconnection: upgrade\r\nupgrade: websocket\r\nsec-websocket-accept: "
    } else {
        b"HTTP/1.1 101 Switching Protocols\r\nconnection: upgrade\r\nupgrade: websocket\r\nsec-websocket-accept: "
    }
}
