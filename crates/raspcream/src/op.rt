//! What may be asked of a connection.
ghost use Rattle.std.specs.Prelude.{◌≡◌, ◌<◌, IfSome, IsNone};
ghost use Rattle.raspcream.specs.Numbers.{number_of};

/// What is asked. The header gives each a name.
#[derive(Clone, Copy)]
pub enum Op {
    /// Bytes were read from the peer.
    Read,

    /// The peer sends no more.
    Eof,

    /// The next head.
    Next,

    /// More of the body.
    Pull,

    /// The rest of the body isn't wanted.
    DropBody,

    /// The client may send its body.
    Continue,

    /// An answer, or a request.
    Head,

    /// A piece of its body.
    Chunk,

    /// Its body is whole.
    End,

    /// Its body failed.
    Fail,

    /// What is to be written.
    Front,

    /// So many of these bytes were written.
    Advance,

    /// The time.
    Tick,

    /// No further request.
    Drain,

    /// An upgrade to WebSocket.
    Accept,

    /// The next frame.
    Frame,

    /// A message.
    Send,

    /// What may come next.
    State,

    /// The bytes that are held.
    Held,

    /// How many heads stand ahead.
    Ahead,
}

/// The one of this number.
pub fn op_of(number: u32) -> Option<Op>
    ensures some { IfSome result (λ op. number_of op ≡ number) }
    ensures none { IsNone result → 19 < number }
{
    match number {
        0 => Some(Op::Read),
        1 => Some(Op::Eof),
        2 => Some(Op::Next),
        3 => Some(Op::Pull),
        4 => Some(Op::DropBody),
        5 => Some(Op::Continue),
        6 => Some(Op::Head),
        7 => Some(Op::Chunk),
        8 => Some(Op::End),
        9 => Some(Op::Fail),
        10 => Some(Op::Front),
        11 => Some(Op::Advance),
        12 => Some(Op::Tick),
        13 => Some(Op::Drain),
        14 => Some(Op::Accept),
        15 => Some(Op::Frame),
        16 => Some(Op::Send),
        17 => Some(Op::State),
        18 => Some(Op::Held),
        19 => Some(Op::Ahead),
        _ => None,
    }
}
