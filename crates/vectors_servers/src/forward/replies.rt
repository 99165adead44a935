//! Replies that were noted.
use proxy::{BegunReply, RequestHead};
use std::alloc::Global;
use vectors::Report;

/// Of each reply the method and the target of its request, `-` where there is none, and the status; `none` where there are
/// no replies.
pub fn put_replies(alloc: Global, replies: &[BegunReply], found: &mut Report) {
    if replies.is_empty() {
        return found.put_text("none");
    }
    let mut between = "";
    for reply in replies {
        found.put_text(between);
        put_reply(alloc, reply, found);
        between = ", ";
    }
}

fn put_reply(alloc: Global, reply: &BegunReply, found: &mut Report) {
    match &reply.request {
        Some(head) => put_asked(alloc, head, found),
        None => found.put_text("-"),
    }
    found.put_text(" ");
    found.put_decimal(u64::from(reply.status.as_u16()));
}

fn put_asked(alloc: Global, head: &RequestHead, found: &mut Report) {
    found.put_text(head.method.as_str());
    found.put_text(" ");
    found.quote_printed(alloc, &head.uri);
}
