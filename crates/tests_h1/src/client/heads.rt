//! What answers mean to a request by HEAD.
use h1_client::{BodyKind, body_to, closes_after, fault_by, is_interim, read_answer};
use http_types::NoMemory;
use std::alloc::Global;
use std::test::Fail;

// What becomes of the connection where this head answers a request that is HEAD or isn't.
#[derive(Clone, Copy, PartialEq, Eq)]
enum Meaning {
    Interim,
    Stays(BodyKind),
    Closes(BodyKind),
    Fault,
}

fn meaning_of(alloc: Global, head: &[u8], is_head: bool) -> Result<Meaning, NoMemory> {
    match read_answer(alloc, head, 0, head.len(), 8192) {
        Ok(item) if is_interim(&item) => Ok(Meaning::Interim),
        Ok(item) if closes_after(false, is_head, &item) => {
            Ok(Meaning::Closes(body_to(is_head, &item)))
        }
        Ok(item) => Ok(Meaning::Stays(body_to(is_head, &item))),
        Err(error) => {
            fault_by(error)?;
            Ok(Meaning::Fault)
        }
    }
}

#[test]
fn answers_to_head(rt: HostRuntime) -> Result<(), Fail> {
    let alloc = rt.alloc();
    let length = b"HTTP/1.1 200 OK\r\ncontent-length: 2\r\n\r\n";
    assert!(rt; meaning_of(alloc, length, true)? == Meaning::Stays(BodyKind::None));
    let open = b"HTTP/1.1 200 OK\r\n\r\n";
    assert!(rt; meaning_of(alloc, open, true)? == Meaning::Stays(BodyKind::None));
    let last = b"HTTP/1.1 200 OK\r\nconnection: Close\r\n\r\n";
    assert!(rt; meaning_of(alloc, last, true)? == Meaning::Closes(BodyKind::None));
    Ok(())
}
