//! The lines of a report.
use h1_connection::HandshakeError;
use http_types::{DispatchError, ParseError, Request};
use vectors::Report;

/// How a poll ended.
#[derive(Clone, Copy, Debug, PartialEq, Eq)]
pub enum Polled {
    /// It is pending, and the task was woken.
    Pending,

    /// It is pending, and nobody has woken the task.
    Asleep,

    /// The connection has ended.
    Ended,

    /// It broke off.
    Failed(DispatchError),
}

/// Puts how a poll ended.
pub fn put_polled(report: &mut Report, polled: Polled) {
    report.put_text(match polled {
        Polled::Pending => "pending\n",
        Polled::Asleep => "asleep\n",
        Polled::Ended => "ended\n",
        Polled::Failed(error) => text_of(error),
    });
}

fn text_of(error: DispatchError) -> &'static str {
    match error {
        DispatchError::Io => "io\n",
        DispatchError::Parse(ParseError::TooLarge) => "too-large\n",
        DispatchError::Parse(_) => "malformed\n",
        DispatchError::SlowRequestTimeout => "slow-request\n",
        DispatchError::DisconnectTimeout => "slow-disconnect\n",
        DispatchError::Body => "body\n",
        DispatchError::Upgrade => "upgrade\n",
        _ => "an error that never comes\n",
    }
}

/// Puts the requests that the service was called with.
pub fn put_asked(report: &mut Report, asked: &[u8]) {
    if asked.is_empty() {
        return;
    }
    report.put_text("asked");
    report.put_all(asked);
    report.put_text("\n");
}

/// Puts what the service took of bodies, and how these ended.
pub fn put_taken(report: &mut Report, taken: &[u8], ends: &[u8]) {
    if taken.is_empty() && ends.is_empty() {
        return;
    }
    report.put_text("took ");
    report.put_quoted(taken);
    report.put_all(ends);
    report.put_text("\n");
}

/// Puts a deadline in milliseconds, or that there is none.
pub fn put_deadline(report: &mut Report, deadline: Option<u64>) {
    report.put_text("deadline ");
    match deadline {
        Some(moment) => report.put_decimal(moment),
        None => report.put_text("-"),
    }
    report.put_text("\n");
}

/// Puts the request that was accepted, what waits to be written, and how many bytes are held behind it.
pub fn put_upgraded(report: &mut Report, request: &Request<(), ()>, waiting: &[u8], held: usize) {
    report.put_text("upgraded ");
    report.put_all(request.path().as_bytes());
    report.put_text(" ");
    report.put_quoted(waiting);
    report.put_text(" ");
    report.put_decimal(held as u64);
    report.put_text("\n");
}

/// Puts why an upgrade was refused.
pub fn put_refused(report: &mut Report, error: HandshakeError) {
    report.put_text(match error {
        HandshakeError::GetMethodRequired => "refused method\n",
        HandshakeError::NoWebsocketUpgrade => "refused upgrade\n",
        HandshakeError::NoConnectionUpgrade => "refused connection\n",
        HandshakeError::NoVersionHeader => "refused no-version\n",
        HandshakeError::UnsupportedVersion => "refused version\n",
        HandshakeError::BadWebsocketKey => "refused key\n",
    })
}

/// Puts all that was sent, and whether the transport was shut down.
pub fn put_sent(report: &mut Report, sent: &[u8], is_shut: bool) {
    report.put_text("sent ");
    report.put_quoted(sent);
    if is_shut {
        report.put_text(" shut");
    }
    report.put_text("\n");
}
