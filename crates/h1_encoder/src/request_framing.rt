//! The lines of a request's head that say where its body ends and what becomes of the connection.
ghost use Rattle.std.specs.Prelude.{◌≡◌, ◌≤◌, ◌++◌, OnOk, OnErr};
ghost use Rattle.httparse.specs.Ascii.{crlf_bytes};
ghost use Rattle.model_h1.specs.Answer as answers;
ghost use Rattle.model_h1.specs.AnswerText as texts;
ghost use Rattle.model_client.specs.RequestText.{asked_shape};
ghost use Rattle.h1_encoder.specs.Meaning.{size_of, model_type};
ghost use Rattle.h1_encoder.specs.RequestMeaning.{asked_minor};

use crate::request_line::minor_of;
use crate::write_content_length;
use bytes::BytesMut;
use http_framing::BodySize;
use http_types::{ConnectionType, NoMemory, Version};

/// The line end of the request line, and the line that frames the body, if there is one (RFC 7230, section 3.3).
pub(crate) fn put_framing(out: &mut BytesMut, camel: bool, size: BodySize) -> Result<(), NoMemory>
    ensures ok { OnOk result (out.new.items ≡ out.old.items
        ++ (crlf_bytes ++ texts.size_line camel (asked_shape (size_of size)) (size_of size))) }
    ensures err { OnErr result (out.new.items ≡ out.old.items) }
{
    match size {
        BodySize::None => out.extend_from_slice(b"\r\n"),
        BodySize::Sized(length) => write_content_length(length, out, camel),
        BodySize::Stream => out.extend_from_slice(chunked_line(camel)),
    }
}

fn chunked_line(camel: bool) -> &'static [u8]
    ensures { result.now ≡ crlf_bytes ++ texts.stream_line camel answers.shape_chunked }
{
    if camel {
        b"\r\nTransfer-Encoding: chunked\r\n"
    } else {
        b"\r\ntransfer-encoding: chunked\r\n"
    }
}

/// The line that says what becomes of the connection, if there is one (RFC 7230, section 6.1).
pub(crate) fn put_connection(
    out: &mut BytesMut,
    version: Version,
    camel: bool,
    connection: ConnectionType,
) -> Result<(), NoMemory>
    requires { asked_minor version ≤ 1 }
    ensures ok { OnOk result (out.new.items ≡ out.old.items ++ texts.connection_line (asked_minor version) camel (model_type connection)) }
    ensures err { OnErr result (out.new.items ≡ out.old.items) }
{
    let line = connection_line(minor_of(version), camel, connection);
    out.extend_from_slice(line)
}

// That line, where the version alone doesn't say it.
fn connection_line(minor: u8, camel: bool, connection: ConnectionType) -> &'static [u8]
    requires { minor ≤ 1 }
    ensures { result.now ≡ texts.connection_line minor camel (model_type connection) }
{
    match connection {
        ConnectionType::Upgrade if camel => b"Connection: Upgrade\r\n",
        ConnectionType::Upgrade => b"connection: upgrade\r\n",
        ConnectionType::KeepAlive if minor != 0 => b"",
        ConnectionType::KeepAlive if camel => b"Connection: keep-alive\r\n",
        ConnectionType::KeepAlive => b"connection: keep-alive\r\n",
        ConnectionType::Close if minor == 0 => b"",
        ConnectionType::Close if camel => b"Connection: close\r\n",
        ConnectionType::Close => b"connection: close\r\n",
    }
}
