//! A body in pieces, and a copy of its decoder.
use bytes::BytesMut;
use h1_payload::{DecodeError, PayloadDecoder, PayloadItem};
use std::alloc::{AllocError, Global};
use std::test::Fail;

/// The most answers that are asked for behind a piece.
const MAX_ANSWERS: u32 = 256;

// What a body gives: `[bytes]` for a chunk, `name=value;` for each trailer, `.` for the end, `!` for a body that is broken,
// and then the bytes that are left.
fn told(
    alloc: Global,
    mut decoder: PayloadDecoder,
    pieces: &[&[u8]],
) -> Result<Vec<u8>, AllocError> {
    let mut log = Vec::new(alloc);
    let mut src = BytesMut::new(alloc);
    for piece in pieces {
        src.extend_from_slice(piece)?;
        for _ in 0..MAX_ANSWERS {
            match decoder.decode(&mut src) {
                Ok(Some(item)) => {
                    if log_item(&mut log, item)? {
                        break;
                    }
                }
                Ok(None) => break,
                Err(DecodeError::Invalid) => {
                    log.extend_from_slice(b"!")?;
                    break;
                }
                Err(DecodeError::NoMemory) => return Err(AllocError),
            }
        }
    }
    log.extend_from_slice(src.as_slice())?;
    Ok(log)
}

// Logs an item, and says whether it is the end.
fn log_item(log: &mut Vec<u8>, item: PayloadItem) -> Result<bool, AllocError> {
    match item {
        PayloadItem::Chunk(bytes) => {
            log.extend_from_slice(b"[")?;
            log.extend_from_slice(bytes.as_slice())?;
            log.extend_from_slice(b"]")?;
            Ok(false)
        }
        PayloadItem::Trailers(trailers) => {
            for (name, value) in &trailers {
                log.extend_from_slice(name.as_bytes())?;
                log.extend_from_slice(b"=")?;
                log.extend_from_slice(value.as_bytes())?;
                log.extend_from_slice(b";")?;
            }
            Ok(false)
        }
        PayloadItem::Eof => {
            log.extend_from_slice(b".")?;
            Ok(true)
        }
    }
}

#[test]
fn a_copy_reads_on_by_itself(rt: HostRuntime) -> Result<(), Fail> {
    let alloc = rt.alloc();
    let mut decoder = PayloadDecoder::chunked();
    let mut src = BytesMut::copy_from_slice(alloc, b"0\r\nx-su")?;
    match decoder.decode(&mut src) {
        Ok(None) => {}
        _ => assert!(rt; false),
    }
    let copy = decoder.clone()?;
    let log = told(alloc, copy, &[b"m: 9\r\n\r\n"])?;
    assert!(rt; log.as_slice() == b"x-sum=9;.".as_slice());
    let log = told(alloc, decoder, &[b"i:\r\n\r\n"])?;
    assert!(rt; log.as_slice() == b"x-sui=;.".as_slice());
    Ok(())
}
