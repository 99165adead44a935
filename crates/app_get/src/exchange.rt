//! One request and its answer over a connection: a client's whole loop.
ghost use Rattle.std.specs.Prelude.{◌≡◌, ◌≢◌, ◌⊎◌, false, None, Some, IsTrue, OnOk, IfOk, IfErr};
ghost use Rattle.app_get.specs.Exchange.{Ends, file_left, faults_of_file, is_unwanted, Goes, IsWhole, IsPending, IsWaiting};
ghost use Rattle.app_get.specs.Failure.{Stops, IsEndless};

use crate::answer::{Taken, Wanted};
use crate::error::GetError;
use crate::patience::Patience;
use crate::transport::Sent;
use h1_client::ClientConnection;
use http_types::{HeaderValue, Sink, Source};
use net_sockets::{TimedSink, TimedSource};
use std::alloc::Global;
use std::marker::Model;

/// How many milliseconds a read waits while bytes are to be written that the server doesn't take now.
const GLANCE: u64 = 5;

/// A request that was asked, whose body is sent and whose answer is taken at the same time. The bytes of the request go to
/// a sink and those of the answer come from a source: the two directions of one socket. The request's body comes out of
/// another source, and the answer's body goes to another sink.
#[derive(Drop)]
pub struct Exchange<S: TimedSource, K: TimedSink, B: Source, O: Sink> {
    pub(crate) alloc: Global,
    pub(crate) connection: ClientConnection,
    pub(crate) input: S,
    pub(crate) output: K,

    // What is left of the request's body, where it has one that wasn't handed in whole.
    pub(crate) body: Option<B>,
    pub(crate) out: O,

    pub(crate) wanted: Wanted,

    // The answer's status, once its head came.
    pub(crate) status: Option<u16>,

    // A byte of the answer came.
    pub(crate) has_begun: bool,

    // Where the last head leads, where it names that.
    pub(crate) location: Option<HeaderValue>,
}

impl<S: TimedSource, K: TimedSink, B: Source, O: Sink> Model for Exchange<S, K, B, O> {
    ghost use Rattle.app_get.specs.Exchange.{Ends, file_left, faults_of_file};

    ghost Value = { Ends };

    ghost view = { λ e. record {
      state = e.connection;
      came = S.left e.input;
      sent = K.given e.output;
      file = file_left B.left e.body;
      out = O.given e.out;
      wanted = e.wanted;
      status = e.status;
      location = e.location;
      begun = e.has_begun;
      came_faults = S.faults e.input;
      sent_faults = K.faults e.output;
      file_faults = faults_of_file B.faults e.body;
      out_faults = O.faults e.out;
    } };
}

impl<S: TimedSource + Drop, K: TimedSink + Drop, B: Source + Drop, O: Sink + Drop> Exchange<
    S,
    K,
    B,
    O,
> {
    /// The exchange of the request that was asked last over this connection. What is wanted of the answer is written out.
    pub fn new(
        alloc: Global,
        connection: ClientConnection,
        input: S,
        output: K,
        body: Option<B>,
        out: O,
        wanted: Wanted,
    ) -> Exchange<S, K, B, O>
        ensures { result ≡ record {
          state = connection;
          came = S.left input;
          sent = K.given output;
          file = file_left B.left body;
          out = O.given out;
          wanted = wanted;
          status = None;
          location = None;
          begun = false;
          came_faults = S.faults input;
          sent_faults = K.faults output;
          file_faults = faults_of_file B.faults body;
          out_faults = O.faults out;
        } }
    {
        Exchange {
            alloc,
            connection,
            input,
            output,
            body,
            out,
            wanted,
            status: None,
            has_begun: false,
            location: None,
        }
    }

    /// The connection, which may be used again where it says so, the sink of the answer's body, and where the answer leads.
    pub fn into_parts(self) -> (ClientConnection, O, Option<HeaderValue>)
        ensures connection { result.0 ≡ self.state }
        ensures out { O.given result.1 ≡ self.out }
        ensures location { result.2 ≡ self.location }
    {
        let Exchange {
            alloc: _,
            connection,
            input: _,
            output: _,
            body: _,
            out,
            wanted: _,
            status: _,
            has_begun: _,
            location,
        } = self;
        (connection, out, location)
    }

    /// Runs the exchange, and gives the answer's status and whether it was taken to its end: what is left of one that isn't wanted
    /// isn't read.
    pub fn answer(&mut self, wait: u64) -> Result<(u16, bool), GetError>
        ensures goes { OnOk result (Goes self.old self.new) }
        ensures status { IfOk result (λ x. self.new.status ≡ Some x.0) }
        ensures whole { IfOk result (λ x. IsTrue x.1 → IsWhole self.new.state) }
    {
        match self.run(wait) {
            Ok(status) => Ok((status, true)),
            Err(GetError::Unwanted) => match self.status {
                Some(status) => Ok((status, false)),
                None => Err(GetError::Unwanted),
            },
            Err(error) => Err(error),
        }
    }

    /// Sends the request and takes its answer, until the answer is whole, and gives its status. Nothing may move for at most
    /// so many milliseconds.
    ///
    /// Both directions are tried in turn, since a server may answer before it has read all, and may not read on before its
    /// answer is taken.
    pub fn run(&mut self, wait: u64) -> Result<u16, GetError>
        ensures goes { OnOk result (Goes self.old self.new) }
        ensures whole { OnOk result (IsWhole self.new.state) }
        ensures status { IfOk result (λ status. self.new.status ≡ Some status) }
        ensures protocol { IfOk result (λ status. status ≢ 101) }
        ensures wanted { IfOk result (λ status. is_unwanted self.new.wanted status ≡ false) }
        ensures stops { IfErr result (λ error. Stops self.old self.new error ⊎ IsEndless self.old self.new error) }
    {
        let mut patience = Patience::begin(&self.input, wait);
        for _turn in 0..u64::MAX {
            self.fill()?;
            match self.take()? {
                Taken::Whole(status) => return Ok(status),
                Taken::Part => self.send_on(&mut patience),
                Taken::Nothing => self.listen(&mut patience)?,
            }
        }
        Err(GetError::Late)
    }

    // Sends what waits. That something is sent is a move.
    fn send_on(&mut self, patience: &mut Patience)
        ensures { Goes self.old self.new }
    {
        if self.send() == Sent::Some {
            patience.renew(&self.input);
        }
    }

    // Sends what waits, and reads what has come. Where nothing else can be done it waits.
    fn listen(&mut self, patience: &mut Patience) -> Result<(), GetError>
        requires { IsPending self.old }
        ensures goes { OnOk result (Goes self.old self.new) }
        ensures stops { IfErr result (λ error. Stops self.old self.new error) }
    {
        let wait = self.send_before(patience)?;
        if self.read_more(wait)? {
            patience.renew(&self.input);
        }
        Ok(())
    }

    // Sends what waits, and says for how many milliseconds a read may then wait.
    fn send_before(&mut self, patience: &mut Patience) -> Result<u64, GetError>
        requires { IsPending self.old }
        ensures goes { OnOk result (Goes self.old self.new) }
        ensures waiting { OnOk result (IsWaiting self.new) }
        ensures stops { IfErr result (λ error. Stops self.old self.new error) }
    {
        match self.send() {
            Sent::Some => {
                patience.renew(&self.input);
                Ok(0)
            }
            Sent::NotNow => Ok(patience.left(&self.input)?.min(GLANCE)),
            Sent::Nothing => Ok(patience.left(&self.input)?),
        }
    }
}
