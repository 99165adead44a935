//! A response by its builder.
use http_types::header::SET_COOKIE;
use http_types::header::names::SERVER;
use http_types::{Response, ResponseHead, StatusCode};
use std::alloc::Global;
use std::test::Fail;

// The text as one that is owned.
fn text(alloc: Global, text: &str) -> Result<String, Fail> {
    Ok(String::from_str(alloc, text)?)
}

// The worked example of the crate's page.
fn worked(alloc: Global) -> Result<Response<&'static str>, Fail> {
    let server = text(alloc, "my-app/1.0")?;
    let first = text(alloc, "a=1")?;
    let second = text(alloc, "b=2")?;
    let response = Response::build(alloc, StatusCode::OK)
        .insert_header((SERVER, server))
        .append_header((SET_COOKIE, first))
        .append_header((SET_COOKIE, second))
        .body("1234")?;
    Ok(response)
}

// Whether the head's first value of this name is this text, and the name has so many.
fn has(head: &ResponseHead, name: &str, value: &str, count: usize) -> bool {
    let found = match head.headers().get(name) {
        Some(found) => found.as_bytes() == value.as_bytes(),
        None => false,
    };
    found && head.headers().get_all(name).len() == count
}

fn is_worked(head: &ResponseHead) -> bool {
    head.status == StatusCode::OK
        && has(head, "server", "my-app/1.0", 1)
        && has(head, "Set-Cookie", "a=1", 2)
}

#[test]
fn a_builder_makes_a_response(rt: HostRuntime) -> Result<(), Fail> {
    let response = worked(rt.alloc())?;
    assert!(rt; is_worked(response.head()) && *response.body() == "1234");
    Ok(())
}
