// What a poll begins with: the moment, and the drain where it was asked for.
ghost use Rattle.h1_dispatcher.specs.View.{view_of, MayBePolled};
ghost use Rattle.h1_dispatcher.specs.Polls.{TickSays, DrainSays, BeginSays};

use crate::dispatcher::{Dispatcher, Ending};
use h1_connection::{Expiry, NoMemory};
use h1_traced::Recorder;
use http_bodies::MessageBody;
use http_services::Service;
use http_services::h1::Payload;
use http_transport::Transport;
use http_types::{Request, Response};

impl<T, S, L, B> Dispatcher<T, S, S::Call, L, B>
where
    T: Transport,
    S: Service<Request<(), ()>, Response = Response<B>, Error = Response<B>, Lent = Payload>,
    B: MessageBody,
    L: Recorder,
{
    /// Tells the connection the moment, and that it is to be drained.
    pub(super) fn begin(&mut self, moment: u64) -> Result<(), NoMemory>
        requires open { MayBePolled S.calling self.old }
        ensures says { BeginSays (view_of T.wiring S.served S.calling B.gives L.noted L.is_listening self.old) moment (view_of T.wiring S.served S.calling B.gives L.noted L.is_listening self.new) result }
        ensures open { MayBePolled S.calling self.new }
    {
        match self.tick(moment) {
            Ok(()) => self.tell_drain(),
            Err(error) => Err(error),
        }
    }

    fn tick(&mut self, moment: u64) -> Result<(), NoMemory>
        requires open { MayBePolled S.calling self.old }
        ensures says { TickSays (view_of T.wiring S.served S.calling B.gives L.noted L.is_listening self.old) moment (view_of T.wiring S.served S.calling B.gives L.noted L.is_listening self.new) result }
        ensures open { MayBePolled S.calling self.new }
    {
        if !self.traced.connection().can_tick(moment) {
            return Ok(());
        }
        match self.traced.tick(moment) {
            Ok(Expiry::Abandoned) => {
                self.ending = Some(Ending::Abandoned);
                Ok(())
            }
            Ok(Expiry::Expired(_)) => Ok(()),
            Ok(Expiry::None) => Ok(()),
            Err(error) => {
                self.ending = Some(Ending::Broken);
                Err(error)
            }
        }
    }

    fn tell_drain(&mut self) -> Result<(), NoMemory>
        requires open { MayBePolled S.calling self.old }
        ensures says { DrainSays (view_of T.wiring S.served S.calling B.gives L.noted L.is_listening self.old) (view_of T.wiring S.served S.calling B.gives L.noted L.is_listening self.new) result }
        ensures open { MayBePolled S.calling self.new }
    {
        if !self.is_draining {
            return Ok(());
        }
        if !self.traced.connection().can_drain() {
            return Ok(());
        }
        match self.traced.drain() {
            Ok(()) => Ok(()),
            Err(error) => {
                self.ending = Some(Ending::Broken);
                Err(error)
            }
        }
    }
}
