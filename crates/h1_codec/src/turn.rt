//! A message goes on, turn by turn.
ghost use Rattle.std.specs.Prelude.{◌≡◌, ◌≤◌, None, true, length};
ghost use Rattle.futures.specs.Task.{IsArmed, Keeps};
ghost use Rattle.futures.specs.Poll.{OnPending};
ghost use Rattle.h1_codec.specs.View.{view_of};
ghost use Rattle.h1_codec.specs.Turns.{OnIdle, WaitSays, TurnSays, SpentSays, SendSays};

use crate::sending::{Fed, Sending};
use crate::{Message, SendError};
use futures::task::{Context, Poll};
use http_bodies::MessageBody;
use http_config::Failed;
use http_framing::{BodySize, Encoder};
use http_transport::Transport;

/// What a turn came to.
#[derive(Drop)]
pub(crate) enum Turn<E> {
    /// Another turn may do more.
    Goes,

    /// Nothing more can be done until the task is woken.
    Waits,

    /// All is sent, or it failed.
    Over(Result<(), SendError<E>>),
}

impl<T, U, H, B> Sending<T, U, H, B>
where
    T: Transport,
    U: Encoder<Message<(H, BodySize)>>,
    H: Drop,
    B: MessageBody,
{
    /// Sends what is left, by at most 64 turns, after the head.
    pub(crate) fn send(&mut self, cx: &mut Context<'_>) -> Poll<Result<(), SendError<U::Error>>>
        ensures says { SendSays U.writes U.refuses U.lacks U.leaves (view_of T.wiring B.gives self.old) (view_of T.wiring B.gives self.new) cx.new.is_woken result }
        ensures registered { OnPending result (IsArmed cx.new) }
        ensures kept { Keeps cx.old cx.new }
    {
        match self.begin() {
            Ok(()) => self.go_on(cx),
            Err(error) => Poll::Ready(Err(SendError::Codec(error))),
        }
    }

    /// Sends the body.
    fn go_on(&mut self, cx: &mut Context<'_>) -> Poll<Result<(), SendError<U::Error>>>
        requires begun { self.old.head ≡ None }
        ensures says { SendSays U.writes U.refuses U.lacks U.leaves (view_of T.wiring B.gives self.old) (view_of T.wiring B.gives self.new) cx.new.is_woken result }
        ensures registered { OnPending result (IsArmed cx.new) }
        ensures kept { Keeps cx.old cx.new }
    {
        for turn in 0..64_u32 {
            match self.turn(cx) {
                Turn::Goes => {}
                Turn::Waits => return Poll::Pending,
                Turn::Over(result) => return Poll::Ready(result),
            }
        }
        self.rest(cx)
    }

    /// Gives the transport what is buffered, once the turns are spent, and asks for another poll.
    fn rest(&mut self, cx: &mut Context<'_>) -> Poll<Result<(), SendError<U::Error>>>
        requires begun { self.old.head ≡ None }
        ensures says { SpentSays U.writes (view_of T.wiring B.gives self.old) (view_of T.wiring B.gives self.new) cx.new.is_woken result }
        ensures registered { OnPending result (IsArmed cx.new) }
        ensures kept { Keeps cx.old cx.new }
    {
        match self.framed.flush(cx) {
            Poll::Pending => cx.yield_now(),
            Poll::Ready(Ok(())) => cx.yield_now(),
            Poll::Ready(Err(Failed)) => Poll::Ready(Err(SendError::Transport)),
        }
    }

    /// One turn: what the body has next is written, or what is buffered is given to the transport, where the body has ended,
    /// the buffer is full, or the body is pending.
    fn turn(&mut self, cx: &mut Context<'_>) -> Turn<U::Error>
        requires begun { self.old.head ≡ None }
        ensures says { TurnSays U.writes U.refuses U.lacks U.leaves 1 (view_of T.wiring B.gives self.old) (view_of T.wiring B.gives self.new) cx.new.is_woken result }
        ensures registered { OnIdle result (IsArmed cx.new) }
        ensures kept { Keeps cx.old cx.new }
    {
        if self.is_ended {
            return self.finish(cx);
        }
        if self.framed.is_write_buf_full() {
            return self.relieve(cx);
        }
        match self.feed(cx) {
            Fed::Moved => Turn::Goes,
            Fed::Failed(error) => Turn::Over(Err(error)),
            Fed::Waits => self.wait(cx),
        }
    }

    /// Gives the transport all, after the end.
    fn finish(&mut self, cx: &mut Context<'_>) -> Turn<U::Error>
        requires begun { self.old.head ≡ None }
        requires ended { self.old.is_ended ≡ true }
        ensures says { TurnSays U.writes U.refuses U.lacks U.leaves 1 (view_of T.wiring B.gives self.old) (view_of T.wiring B.gives self.new) cx.new.is_woken result }
        ensures registered { OnIdle result (IsArmed cx.new) }
        ensures kept { Keeps cx.old cx.new }
    {
        match self.framed.flush(cx) {
            Poll::Pending => Turn::Waits,
            Poll::Ready(Ok(())) => Turn::Over(Ok(())),
            Poll::Ready(Err(Failed)) => Turn::Over(Err(SendError::Transport)),
        }
    }

    /// Gives the transport what fills the buffer. Where it took some of it, the body may go on.
    fn relieve(&mut self, cx: &mut Context<'_>) -> Turn<U::Error>
        requires begun { self.old.head ≡ None }
        requires full { 8192 ≤ length self.old.framed.unsent }
        ensures says { TurnSays U.writes U.refuses U.lacks U.leaves 1 (view_of T.wiring B.gives self.old) (view_of T.wiring B.gives self.new) cx.new.is_woken result }
        ensures registered { OnIdle result (IsArmed cx.new) }
        ensures kept { Keeps cx.old cx.new }
    {
        match self.framed.flush(cx) {
            Poll::Pending => {
                if self.framed.is_write_buf_full() {
                    return Turn::Waits;
                }
                Turn::Goes
            }
            Poll::Ready(Ok(())) => Turn::Goes,
            Poll::Ready(Err(Failed)) => Turn::Over(Err(SendError::Transport)),
        }
    }

    /// Gives the transport what is buffered, while the body is pending.
    fn wait(&mut self, cx: &mut Context<'_>) -> Turn<U::Error>
        requires begun { self.old.head ≡ None }
        requires armed { IsArmed cx.old }
        ensures says { WaitSays U.writes (view_of T.wiring B.gives self.old) (view_of T.wiring B.gives self.new) cx.new.is_woken result }
        ensures registered { IsArmed cx.new }
        ensures kept { Keeps cx.old cx.new }
    {
        match self.framed.flush(cx) {
            Poll::Pending => Turn::Waits,
            Poll::Ready(Ok(())) => Turn::Waits,
            Poll::Ready(Err(Failed)) => Turn::Over(Err(SendError::Transport)),
        }
    }
}
