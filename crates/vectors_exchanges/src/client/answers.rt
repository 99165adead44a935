//! Heads of answers, and the connection's end.
use crate::client::MISPLACED;
use h1_client::{AnswerFault, ClientConnection, ClientEnd, NextAnswer, ResponseItem};
use http_types::Version;
use vectors::Report;

/// `next`: the next answer's head, why none comes, or the connection's end.
pub fn put_next(connection: &mut ClientConnection, found: &mut Report) {
    if !connection.can_next() {
        return found.put_text(MISPLACED);
    }
    match connection.next() {
        Ok(NextAnswer::Answer(item)) => put_answer(&item, found),
        Ok(NextAnswer::Fault(AnswerFault::Malformed)) => found.put_text("fault malformed"),
        Ok(NextAnswer::Fault(AnswerFault::TooLarge)) => found.put_text("fault too-large"),
        Ok(NextAnswer::Pending) => found.put_text("pending"),
        Ok(NextAnswer::Closed(end)) => {
            found.put_text("closed ");
            found.put_text(end_word(end));
        }
        Err(_) => found.lose(),
    }
}

// The version, the status, the reason and the lines.
fn put_answer(item: &ResponseItem, found: &mut Report) {
    let is_older = item.head.version < Version::HTTP_11;
    found.put_text(if is_older {
        "answer 1.0 "
    } else {
        "answer 1.1 "
    });
    found.put_decimal(u64::from(item.head.status.as_u16()));
    found.put_text(" ");
    found.put_quoted(item.reason.as_slice());
    found.put_fields(item.head.headers());
}

/// Why the connection ends, in a word.
pub fn end_word(end: ClientEnd) -> &'static str {
    match end {
        ClientEnd::BadAnswer => "bad-answer",
        ClientEnd::LargeAnswer => "large-answer",
        ClientEnd::BrokenAnswer => "broken-answer",
        ClientEnd::FailedRequest => "failed-request",
        ClientEnd::Asked => "asked",
        ClientEnd::Unasked => "unasked",
        ClientEnd::InputEnded => "input-ended",
    }
}
