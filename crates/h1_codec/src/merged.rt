//! A shared head with headers beside it.
ghost use Rattle.std.specs.Prelude.{◌≡◌, OnOk, IfOk};
ghost use Rattle.http_map.specs.HeaderMap.{keys, pairs, append_all};
ghost use Rattle.h1_encoder.specs.RequestMeaning.{asked_head};
ghost use Rattle.h1_codec.specs.Writing.{merged, remove_all, with_headers};

use http_types::{HeaderMap, NoMemory, RequestHead};

/// The head that goes out for a shared one: headers beside it come last, and stand in place of its own of the same name.
/// It keeps no mark but that of camel case.
pub(crate) fn merged(head: &RequestHead, extra: &HeaderMap) -> Result<RequestHead, NoMemory>
    ensures head { IfOk result (λ goes_out. asked_head goes_out ≡ with_headers head.now (merged head.now.headers extra.now)) }
    ensures version { IfOk result (λ goes_out. goes_out.version ≡ head.now.version) }
{
    let method = head.method.clone()?;
    let uri = head.uri.clone()?;
    let headers = merged_headers(&head.headers, extra)?;
    let mut goes_out = RequestHead::from_parts(method, uri, head.version, headers);
    goes_out.set_camel_case_headers(head.camel_case_headers());
    Ok(goes_out)
}

fn merged_headers(own: &HeaderMap, extra: &HeaderMap) -> Result<HeaderMap, NoMemory>
    ensures { IfOk result (λ headers. headers ≡ merged own.now extra.now) }
{
    let mut headers = own.copy()?;
    remove_all(&mut headers, extra);
    append_all(&mut headers, extra)?;
    Ok(headers)
}

/// Removes the names that stand in the other map.
fn remove_all(headers: &mut HeaderMap, extra: &HeaderMap)
    ensures { headers.new ≡ remove_all headers.old (keys extra.now) }
{
    for name in extra.keys() {
        headers.remove(name);
    }
}

/// Appends all pairs of the other map.
fn append_all(headers: &mut HeaderMap, extra: &HeaderMap) -> Result<(), NoMemory>
    ensures { OnOk result (headers.new ≡ append_all headers.old (pairs extra.now)) }
{
    for (name, value) in extra.iter() {
        headers.append(name.clone()?, value.clone()?)?;
    }
    Ok(())
}
