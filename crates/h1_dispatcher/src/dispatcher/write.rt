// What is buffered is written, and a connection that closes is asked for its end.
ghost use Rattle.std.specs.Prelude.{◌≡◌, ◌<◌, ◌⊎◌, ℕ, Some, None, true, length};
ghost use Rattle.futures.specs.Task.{IsArmed, Keeps};
ghost use Rattle.model_state.specs.Local.{closing_by};
ghost use Rattle.model_h1.specs.Event as on;
ghost use Rattle.h1_connection.specs.EventMeaning.{setting_of, end_of};
ghost use Rattle.h1_dispatcher.specs.View.{view_of, MayBePolled, allows, allows_next, buffered, HasNoOutput};
ghost use Rattle.h1_dispatcher.specs.Polls.{OnIdle, TurnSays, AfterSays, EndSays};

use crate::dispatcher::read::wake;
use crate::dispatcher::{Dispatcher, DispatcherTurn, Ending};
use futures::task::{Context, Poll};
use h1_connection::End;
use h1_traced::Recorder;
use http_bodies::MessageBody;
use http_config::Failed;
use http_services::Service;
use http_services::h1::Payload;
use http_transport::Transport;
use http_types::{DispatchError, Request, Response};

impl<T, S, L, B> Dispatcher<T, S, S::Call, L, B>
where
    T: Transport,
    S: Service<Request<(), ()>, Response = Response<B>, Error = Response<B>, Lent = Payload>,
    B: MessageBody,
    L: Recorder,
{
    /// Writes what waits, and goes on where nothing does or the transport takes none of it.
    pub(super) fn write(&mut self, cx: &mut Context<'_>) -> DispatcherTurn
        requires open { MayBePolled S.calling self.old }
        requires running { self.old.ending ≡ None }
        ensures says { TurnSays (view_of T.wiring S.served S.calling B.gives L.noted L.is_listening self.old) (view_of T.wiring S.served S.calling B.gives L.noted L.is_listening self.new) result }
        ensures open { MayBePolled S.calling self.new }
        ensures registered { OnIdle result (IsArmed cx.new) }
        ensures kept { Keeps cx.old cx.new }
    {
        if self.traced.connection().buffered() == 0 {
            return self.go_on(cx);
        }
        if !self.traced.connection().can_write() {
            return self.go_on(cx);
        }
        self.give(cx)
    }

    /// Gives the transport what waits.
    fn give(&mut self, cx: &mut Context<'_>) -> DispatcherTurn
        requires open { MayBePolled S.calling self.old }
        requires running { self.old.ending ≡ None }
        requires some { 0 < length (buffered (view_of T.wiring S.served S.calling B.gives L.noted L.is_listening self.old)) }
        requires allowed { (count : ℕ) → allows (view_of T.wiring S.served S.calling B.gives L.noted L.is_listening self.old) (on.write count) ≡ true }
        ensures says { TurnSays (view_of T.wiring S.served S.calling B.gives L.noted L.is_listening self.old) (view_of T.wiring S.served S.calling B.gives L.noted L.is_listening self.new) result }
        ensures open { MayBePolled S.calling self.new }
        ensures registered { OnIdle result (IsArmed cx.new) }
        ensures kept { Keeps cx.old cx.new }
    {
        match self
            .transport
            .poll_write(self.traced.connection().stretch(), cx)
        {
            Poll::Pending => self.go_on(cx),
            Poll::Ready(Err(Failed)) => DispatcherTurn::Over(Err(DispatchError::Io)),
            Poll::Ready(Ok(count)) => match self.traced.advance(count) {
                Ok(()) => DispatcherTurn::Counted,
                Err(_) => {
                    self.ending = Some(Ending::Broken);
                    DispatcherTurn::Over(Err(DispatchError::NoMemory))
                }
            },
        }
    }

    /// Goes on with what is needed besides writing.
    fn go_on(&mut self, cx: &mut Context<'_>) -> DispatcherTurn
        requires open { MayBePolled S.calling self.old }
        requires running { self.old.ending ≡ None }
        requires armed { HasNoOutput (view_of T.wiring S.served S.calling B.gives L.noted L.is_listening self.old) ⊎ IsArmed cx.old }
        ensures says { AfterSays (view_of T.wiring S.served S.calling B.gives L.noted L.is_listening self.old) (view_of T.wiring S.served S.calling B.gives L.noted L.is_listening self.new) result }
        ensures open { MayBePolled S.calling self.new }
        ensures registered { OnIdle result (IsArmed cx.new) }
        ensures kept { Keeps cx.old cx.new }
    {
        match self.traced.connection().closing() {
            None => self.serve(cx),
            Some(end) => self.close(end, cx),
        }
    }

    /// Has a connection that closes tell its end, once all is written.
    fn close(&mut self, end: End, cx: &mut Context<'_>) -> DispatcherTurn
        requires open { MayBePolled S.calling self.old }
        requires running { self.old.ending ≡ None }
        requires closing { closing_by (setting_of (view_of T.wiring S.served S.calling B.gives L.noted L.is_listening self.old).traced.state.settings) (view_of T.wiring S.served S.calling B.gives L.noted L.is_listening self.old).traced.state.kept ≡ Some (end_of end) }
        requires armed { HasNoOutput (view_of T.wiring S.served S.calling B.gives L.noted L.is_listening self.old) ⊎ IsArmed cx.old }
        ensures says { AfterSays (view_of T.wiring S.served S.calling B.gives L.noted L.is_listening self.old) (view_of T.wiring S.served S.calling B.gives L.noted L.is_listening self.new) result }
        ensures open { MayBePolled S.calling self.new }
        ensures registered { OnIdle result (IsArmed cx.new) }
        ensures kept { Keeps cx.old cx.new }
    {
        if self.traced.connection().can_next() {
            return self.tell_end(end);
        }
        if self.traced.connection().can_write() {
            return DispatcherTurn::Idle;
        }
        wake(cx)
    }

    /// The connection tells its end.
    fn tell_end(&mut self, end: End) -> DispatcherTurn
        requires open { MayBePolled S.calling self.old }
        requires running { self.old.ending ≡ None }
        requires closing { closing_by (setting_of (view_of T.wiring S.served S.calling B.gives L.noted L.is_listening self.old).traced.state.settings) (view_of T.wiring S.served S.calling B.gives L.noted L.is_listening self.old).traced.state.kept ≡ Some (end_of end) }
        requires allowed { allows_next (view_of T.wiring S.served S.calling B.gives L.noted L.is_listening self.old) ≡ true }
        ensures says { EndSays 1 (view_of T.wiring S.served S.calling B.gives L.noted L.is_listening self.old) (view_of T.wiring S.served S.calling B.gives L.noted L.is_listening self.new) result }
        ensures open { MayBePolled S.calling self.new }
    {
        match self.traced.next() {
            Ok(_) => {
                self.ending = Some(Ending::Closed(end));
                DispatcherTurn::Counted
            }
            Err(_) => {
                self.ending = Some(Ending::Broken);
                DispatcherTurn::Over(Err(DispatchError::NoMemory))
            }
        }
    }
}
