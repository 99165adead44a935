//! What is done with a dispatcher.
use http_types::StatusCode;
use vectors::Cursor;

/// One thing that is done with a dispatcher. Moments are milliseconds after the start of 1970.
#[derive(Clone, Copy, Debug)]
pub enum Step {
    /// It is polled once, at this moment.
    Poll(u64),

    /// It is polled at this moment until it is ready.
    PollUntilReady(u64),

    /// It is to end once no request is open.
    Drain,

    /// Its deadline is asked for.
    Deadline,

    /// Requests that ask for an upgrade are held back from the next head on.
    Hold,

    /// The request that is held back goes to the service.
    Decline,

    /// Requests whose clients wait to be told to go on are held back from the next head on.
    HoldExpects,

    /// The client that is held back may go on.
    LetOn,

    /// The request that is held back is turned away, with this status and no byte.
    TurnAway(StatusCode),

    /// The request that is held back is accepted, with this limit of payloads. Nothing is done after one that was; only the
    /// first such step does something.
    Accept(usize),
}

/// The step that these words say, where they say one.
pub fn step_of(word: &[u8], mut words: Cursor<'_>) -> Option<Step> {
    words.pass_blanks();
    match word {
        b"poll" => Some(Step::Poll(words.number()? as u64)),
        b"poll-until-ready" => Some(Step::PollUntilReady(words.number()? as u64)),
        b"drain" => Some(Step::Drain),
        b"deadline" => Some(Step::Deadline),
        b"hold" => Some(Step::Hold),
        b"decline" => Some(Step::Decline),
        b"hold-expects" => Some(Step::HoldExpects),
        b"let-on" => Some(Step::LetOn),
        b"turn-away" => Some(Step::TurnAway(status_of(words)?)),
        b"accept" => Some(Step::Accept(words.number()? as usize)),
        _ => None,
    }
}

// The status that these words say, where they say one.
fn status_of(mut words: Cursor<'_>) -> Option<StatusCode> {
    StatusCode::from_u16(u16::try_from(words.number()?).ok()?).ok()
}
