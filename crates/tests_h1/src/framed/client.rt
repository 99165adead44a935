//! The codecs of a client: answers that come byte by byte, and codecs that change into each other.
use bytes::BytesMut;
use h1_codec::{ClientCodec, ClientPayloadCodec, MessageType};
use http_types::ServiceConfig;
use std::alloc::Global;
use std::test::Fail;

// What was read, in order. That memory ran out is kept in mind, and asked once at the end.
#[derive(Drop)]
struct Notes {
    text: BytesMut,
    lacks_memory: bool,
}

impl Notes {
    fn put(&mut self, text: &[u8]) {
        let is_put = self.text.extend_from_slice(text).is_ok();
        self.lacks_memory = self.lacks_memory || !is_put;
    }
}

// The codec that reads what comes next.
#[derive(Drop)]
enum Reader {
    Heads(ClientCodec),
    Payload(ClientPayloadCodec),
}

// Notes the next item, if one is there, and changes the codec where the other reads on.
fn note(reader: Reader, src: &mut BytesMut, notes: &mut Notes) -> Reader {
    match reader {
        Reader::Heads(codec) => note_head(codec, src, notes),
        Reader::Payload(codec) => note_payload(codec, src, notes),
    }
}

fn note_head(mut codec: ClientCodec, src: &mut BytesMut, notes: &mut Notes) -> Reader {
    notes.put(head_said(&mut codec, src));
    if codec.message_type() == MessageType::None {
        Reader::Heads(codec)
    } else {
        Reader::Payload(codec.into_payload_codec())
    }
}

fn head_said(codec: &mut ClientCodec, src: &mut BytesMut) -> &'static [u8] {
    match codec.decode(src) {
        Ok(Some(_)) => b"head,",
        Ok(None) => b"",
        Err(_) => b"refused,",
    }
}

fn note_payload(mut codec: ClientPayloadCodec, src: &mut BytesMut, notes: &mut Notes) -> Reader {
    note_piece(&mut codec, src, notes);
    if codec.message_type() == MessageType::None {
        Reader::Heads(codec.into_message_codec())
    } else {
        Reader::Payload(codec)
    }
}

fn note_piece(codec: &mut ClientPayloadCodec, src: &mut BytesMut, notes: &mut Notes) {
    match codec.decode(src) {
        Ok(Some(Some(bytes))) => notes.put(bytes.as_slice()),
        Ok(Some(None)) => notes.put(ending(codec)),
        Ok(None) => {}
        Err(_) => notes.put(b"refused,"),
    }
}

fn ending(codec: &mut ClientPayloadCodec) -> &'static [u8] {
    match codec.take_trailers() {
        Some(trailers) if trailers.len() == 1 => b",one,",
        _ => b",end,",
    }
}

fn notes_of(alloc: Global, codec: ClientCodec, text: &[u8]) -> Notes {
    let mut reader = Reader::Heads(codec);
    let mut src = BytesMut::new(alloc);
    let mut notes = Notes {
        text: BytesMut::new(alloc),
        lacks_memory: false,
    };
    for byte in text {
        let is_fed = src.extend_from_slice(&[*byte]).is_ok();
        notes.lacks_memory = notes.lacks_memory || !is_fed;
        reader = note(reader, &mut src, &mut notes);
        // An end needs no byte of its own.
        reader = note(reader, &mut src, &mut notes);
    }
    notes
}

// A body in chunks with a trailer, a 304 with a length, an interim answer, a body of known length, and one to the end of
// the input, which no byte ends.
#[test]
fn answers_come_byte_by_byte(rt: HostRuntime) {
    let text =
        b"HTTP/1.1 200 OK\r\ntransfer-encoding: chunked\r\n\r\n4\r\ndata\r\n0\r\nx: 1\r\n\r\nHTTP/1.1 304 Not Modified\r\ncontent-length: 5\r\n\r\nHTTP/1.1 100 Continue\r\n\r\nHTTP/1.1 200 OK\r\ncontent-length: 2\r\n\r\nhiHTTP/1.1 200 OK\r\n\r\nHTTP";
    let codec = ClientCodec::new(ServiceConfig::default());
    let notes = notes_of(rt.alloc(), codec, text);
    assert!(rt; !notes.lacks_memory);
    assert!(rt;
        notes.text.as_slice() == b"head,data,one,head,head,head,hi,end,head,HTTP".as_slice()
    );
}
