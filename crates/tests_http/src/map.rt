//! A map, asked by each kind of key.
use http_map::{ACCEPT, HOST, HeaderMap, HeaderName, SET_COOKIE, value_of_str};
use std::alloc::Global;
use std::test::Fail;

// A map to which this line is appended.
fn append(alloc: Global, map: &mut HeaderMap, name: &[u8], value: &str) -> Result<(), Fail> {
    let name = HeaderName::from_bytes(alloc, name)?;
    let value = value_of_str(alloc, value)?;
    Ok(map.append(name, value)?)
}

// Two cookies, with a line of another name between them.
fn cookies(alloc: Global) -> Result<HeaderMap, Fail> {
    let mut map = HeaderMap::new(alloc);
    append(alloc, &mut map, b"set-cookie", "one=1")?;
    append(alloc, &mut map, b"accept", "text/plain")?;
    append(alloc, &mut map, b"set-cookie", "two=2")?;
    Ok(map)
}

#[test]
fn looks_names_up_by_each_kind_of_key(rt: HostRuntime) -> Result<(), Fail> {
    let map = cookies(rt.alloc())?;
    let text = String::from_str(rt.alloc(), "Accept")?;
    match map.get(&text) {
        Some(value) => assert!(rt; value.as_bytes() == b"text/plain".as_slice()),
        None => assert!(rt; false),
    }
    assert!(rt; map.contains_key(text) && map.contains_key(&ACCEPT));
    assert!(rt; map.contains_key(SET_COOKIE) && !map.contains_key(HOST));
    Ok(())
}
