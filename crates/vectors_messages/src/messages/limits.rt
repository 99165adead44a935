//! Messages in pieces, within a limit.
use crate::messages::heads::put_error;
use bytes::BytesMut;
use h1_codec::{HeadItem, MessageDecoder, PayloadDecoder, PayloadItem, PayloadType};
use http_types::{NoMemory, ParseError};
use std::alloc::Global;
use vectors::{Case, Report};

type Answer = Result<Option<(HeadItem, PayloadType)>, ParseError>;

/// `message LIMIT BYTES`: which body the first message has, or the error's word, and what is left of the bytes.
pub fn message(alloc: Global, case: &Case<'_>, found: &mut Report) -> Result<bool, NoMemory> {
    let Some(limit) = case.number(0) else {
        return Ok(false);
    };
    let mut src = BytesMut::copy_from_slice(alloc, case.argument(1))?;
    put_answer(&first_message(&mut src, limit), found);
    found.put_text(" ");
    found.put_quoted(src.as_slice());
    Ok(true)
}

fn first_message(src: &mut BytesMut, limit: usize) -> Answer {
    MessageDecoder::<HeadItem>::with_limit(limit).decode(src)
}

fn put_answer(answer: &Answer, found: &mut Report) {
    match answer {
        Ok(Some((_, PayloadType::None))) => found.put_text("none"),
        Ok(Some((_, PayloadType::Payload(_)))) => found.put_text("payload"),
        Ok(Some((_, PayloadType::Stream(_)))) => found.put_text("stream"),
        Ok(None) => found.put_text("open"),
        Err(error) => put_error(*error, found),
    }
}

/// `messages-bytewise BYTES`: the targets of the messages in bytes that come one by one, an error's word each time that it
/// is answered, and what is left.
pub fn messages_bytewise(
    alloc: Global,
    case: &Case<'_>,
    found: &mut Report,
) -> Result<bool, NoMemory> {
    put_targets(alloc, case.argument(0), found);
    Ok(true)
}

fn put_targets(alloc: Global, bytes: &[u8], found: &mut Report) {
    let mut src = BytesMut::new(alloc);
    let mut decoder = MessageDecoder::<HeadItem>::new();
    for byte in bytes {
        if src.extend_from_slice(&[*byte]).is_err() {
            return found.lose();
        }
        put_target(&decoder.decode(&mut src), found);
    }
    found.put_quoted(src.as_slice());
}

fn put_target(answer: &Answer, found: &mut Report) {
    match answer {
        Ok(Some((item, _))) => found.put_quoted(item.target.as_slice()),
        Ok(None) => return,
        Err(error) => put_error(*error, found),
    }
    found.put_text(" ");
}

/// `first-piece BYTES`: the first piece of the first message's body.
pub fn first_piece(alloc: Global, case: &Case<'_>, found: &mut Report) -> Result<bool, NoMemory> {
    let mut src = BytesMut::copy_from_slice(alloc, case.argument(0))?;
    match MessageDecoder::<HeadItem>::new().decode(&mut src) {
        Ok(Some(message)) => put_first_piece(message.1, &mut src, found),
        _ => found.put_text("no message"),
    }
    Ok(true)
}

// The first piece of the body, in quotes; a word where there is none.
fn put_first_piece(payload: PayloadType, src: &mut BytesMut, found: &mut Report) {
    match payload {
        PayloadType::None => found.put_text("none"),
        PayloadType::Payload(body) => put_piece_of(body, src, found),
        PayloadType::Stream(body) => put_piece_of(body, src, found),
    }
}

fn put_piece_of(mut body: PayloadDecoder, src: &mut BytesMut, found: &mut Report) {
    match body.decode(src) {
        Ok(Some(PayloadItem::Chunk(bytes))) => found.put_quoted(bytes.as_slice()),
        _ => found.put_text("no piece"),
    }
}
