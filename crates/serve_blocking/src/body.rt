//! The body of the open request, and the connection that it comes over.
ghost use Rattle.std.specs.Prelude.{◌≡◌, ◌⊎◌, [], true, false, IfOk, IfErr, OnOk, OnErr, IfSome, IfNone};
ghost use Rattle.model_h1.specs.Event as on;
ghost use Rattle.h1_encoder.specs.Meaning.{answer_of};
ghost use Rattle.h1_connection.specs.State.{fresh_state, IsAllowed};
ghost use Rattle.serve_blocking.specs.Acts.{Does, Drops, DropsAll, Gives, GivesNone, PassesOver, Reads, ReadsNone, Says, Waits, is_loss, leave, may};
ghost use Rattle.serve_blocking.specs.Fails.{IsLeft};
ghost use Rattle.serve_blocking.specs.Served.{Line, Follows, IsServed};

use crate::clock::Start;
use crate::pace::Pace;
use crate::{HandleError, Limits};
use bytes::Bytes;
use h1_connection::{Connection, Pulled};
use http_framing::BodyKind;
use http_types::{ConnectionType, HeaderMap, ResponseHead, ServiceConfig};
use net_sockets::{TimedSink, TimedSource};
use std::alloc::Global;
use std::marker::Model;

/// For how many milliseconds a body that isn't wanted is waited for.
const PATIENCE: u64 = 1000;

/// What comes next of a request's body.
#[derive(Debug, Drop)]
pub enum Piece {
    /// These bytes, of which there is one at least.
    Bytes(Bytes),

    /// The trailers, with which the body ends (RFC 7230, section 4.1.2).
    Trailers(HeaderMap),

    /// The body has ended.
    End,
}

/// The body of the open request, and the connection that it comes over.
#[derive(Drop)]
pub struct Body<S: TimedSource, K: TimedSink> {
    pub(crate) connection: Connection,
    pub(crate) source: S,
    pub(crate) sink: K,
    pub(crate) limits: Limits,

    // How many milliseconds the source was told to wait, where it was told.
    pub(crate) waits: Option<u64>,

    // When the connection began, where the source knows it.
    pub(crate) start: Option<Start>,

    // How many bytes were read.
    pub(crate) taken: u64,

    // How fast bytes are read, and written.
    pub(crate) reads: Pace,
    pub(crate) writes: Pace,

    // Where the open request's body ends.
    pub(crate) kind: BodyKind,

    // The last request has no body, or its body was given to its end.
    pub(crate) has_ended: bool,

    // The handler reads the open request's body.
    pub(crate) is_wanted: bool,

    // The connection ends with the open request's answer.
    pub(crate) closes: bool,
}

impl<S: TimedSource, K: TimedSink> Model for Body<S, K> {
    ghost use Rattle.serve_blocking.specs.Served.{Line};

    ghost Value = { Line };

    ghost view = { λ b. record {
      state = b.connection;
      left = S.left b.source;
      given = K.given b.sink;
      judges = b.limits.judges_heads;
      ended = b.has_ended;
      wanted = b.is_wanted;
      closes = b.closes;
    } };
}

impl<S: TimedSource, K: TimedSink> Body<S, K> {
    /// A connection over this source and this sink, to which nothing has come yet.
    pub fn new(
        alloc: Global,
        config: ServiceConfig,
        limits: Limits,
        source: S,
        sink: K,
    ) -> Body<S, K>
        ensures value { result ≡ record { state = fresh_state config; left = S.left source; given = K.given sink; judges = limits.judges_heads; ended = true; wanted = false; closes = false } }
        ensures begins { IsServed (record { left = S.left source; given = K.given sink; judges = limits.judges_heads; handed = [] }) result }
    {
        let connection = Connection::new(alloc, config);
        let start = Start::of(&source);
        Body {
            connection,
            source,
            sink,
            limits,
            waits: None,
            start,
            taken: 0,
            reads: Pace::new(),
            writes: Pace::new(),
            kind: BodyKind::None,
            has_ended: true,
            is_wanted: false,
            closes: false,
        }
    }

    /// The source and the sink.
    pub fn into_parts(self) -> (S, K)
        ensures left { S.left result.0 ≡ self.left }
        ensures given { K.given result.1 ≡ self.given }
    {
        let Body {
            connection: _,
            source,
            sink,
            limits: _,
            waits: _,
            start: _,
            taken: _,
            reads: _,
            writes: _,
            kind: _,
            has_ended: _,
            is_wanted: _,
            closes: _,
        } = self;
        (source, sink)
    }

    /// The handler will read the body, also once its answer has begun: where the client waits for leave to send it, it
    /// gets leave (RFC 7231, section 5.1.1). `read` says the same, so this is for a handler that begins its answer first.
    ///
    /// `NoMemory` alone: then no leave was given.
    pub fn want(&mut self) -> Result<(), HandleError>
        ensures follows { Follows self.old self.new }
        ensures leave { OnOk result (Does (leave self.old.state) self.old self.new) }
        ensures none { OnErr result (Does [] self.old self.new) }
        ensures memory { IfErr result (λ e. e ≡ HandleError.NoMemory) }
        ensures wanted { self.new.wanted ≡ true }
    {
        self.is_wanted = true;
        if !self.connection.can_continue() {
            return Ok(());
        }
        self.send_continue()?;
        Ok(())
    }

    /// What comes next of the body. It waits for it; all that waits to be written is written before. Where the request
    /// has no body, or its end or its trailers were given, it is `End`.
    ///
    /// `BrokenBody` where the body breaks the grammar of chunks, and where the input, or the connection, ends before the
    /// body does: then also each time that it is asked again. `Stalled` where nothing comes for too long, `Lost` and
    /// `NoMemory`: then nothing of the body was taken.
    pub fn read(&mut self) -> Result<Piece, HandleError>
        ensures follows { Follows self.old self.new }
        ensures reads { IfOk result (λ piece. Reads piece self.old self.new) }
        ensures none { IfErr result (λ e. ReadsNone e self.old self.new) }
        ensures wanted { self.new.wanted ≡ true }
    {
        self.want()?;
        self.next_piece()
    }

    // What comes next of the body, which is waited for.
    fn next_piece(&mut self) -> Result<Piece, HandleError>
        ensures gives { IfOk result (λ piece. Gives piece self.old self.new) }
        ensures none { IfErr result (λ e. GivesNone e self.old self.new) }
        ensures wanted { self.new.wanted ≡ self.old.wanted }
    {
        for _ in 0..u64::MAX {
            if !self.connection.can_pull() {
                return self.told_end();
            }
            match self.ask()? {
                Some(piece) => return Ok(piece),
                None => self.wait_for_more()?,
            }
        }
        Err(HandleError::Stalled)
    }

    // Writes what waits, and waits for what comes.
    fn wait_for_more(&mut self) -> Result<(), HandleError>
        ensures waits { Waits self.old self.new }
        ensures lost { IfErr result (λ e. is_loss e ≡ true) }
    {
        self.flush()?;
        let _came = self.fill()?;
        Ok(())
    }

    // Pulls once: what is there of the body, or that nothing is.
    fn ask(&mut self) -> Result<Option<Piece>, HandleError>
        requires can_pull { IsAllowed self.old.state on.pull }
        requires can_drop { IsAllowed self.old.state on.drop_body }
        ensures gives { IfOk result (λ piece. IfSome piece (λ p. Gives p self.old self.new)) }
        ensures waits { IfOk result (λ piece. IfNone piece (Waits self.old self.new)) }
        ensures none { IfErr result (λ e. GivesNone e self.old self.new) }
        ensures wanted { self.new.wanted ≡ self.old.wanted }
    {
        match self.pull()? {
            Pulled::Bytes(bytes) => Ok(Some(Piece::Bytes(bytes))),
            Pulled::Trailers(trailers) => Ok(Some(Piece::Trailers(trailers))),
            Pulled::End => Ok(Some(Piece::End)),
            Pulled::Broken(_) => Err(HandleError::BrokenBody),
            Pulled::Pending => Ok(None),
        }
    }

    // Nothing more can be asked for: the body has ended, or the connection ends before it has.
    fn told_end(&self) -> Result<Piece, HandleError>
        ensures end { IfOk result (λ piece. (piece ≡ Piece.End) × (self.now.ended ≡ true)) }
        ensures broken { IfErr result (λ e. (e ≡ HandleError.BrokenBody) × (self.now.ended ≡ false)) }
    {
        if self.has_ended {
            return Ok(Piece::End);
        }
        Err(HandleError::BrokenBody)
    }

    // A request was handed out, whose body ends so, and with whose answer the connection ends or not. The body's bytes
    // are waited for from now on.
    pub(crate) fn begin_request(&mut self, kind: BodyKind, closes: bool)
        ensures { self.new ≡ record self.old { wanted = false; closes = closes } }
    {
        self.kind = kind;
        self.closes = closes;
        self.is_wanted = false;
        self.reads = Pace::new();
    }

    // Passes over a body that the handler doesn't read, where it is small enough and comes soon. Else the answer says
    // that the connection ends with it: a client that isn't told so would send its next request into it. A raw body ends
    // with the connection alone, and of a client that waits for leave none comes. Where the connection ends with the
    // answer anyway, no body is waited for.
    pub(crate) fn settle(&mut self, head: &mut ResponseHead) -> Result<(), HandleError>
        ensures drops { Drops self.old self.new }
        ensures kept { self.old.wanted ≡ true → self.new ≡ self.old }
        ensures says { OnOk result (Says self.old (answer_of head.old) (answer_of head.new)) }
        ensures status { head.new.status ≡ head.old.status }
        ensures passed { OnOk result (head.new.flags.close ≡ false → PassesOver self.old self.new) }
        ensures lost { IfErr result (λ e. is_loss e ≡ true) }
        ensures left { OnErr result (IsLeft self.old) }
    {
        if !self.has_to_close()? {
            return Ok(());
        }
        head.set_connection_type(ConnectionType::Close);
        Ok(())
    }

    // Whether the answer says that the connection ends with it.
    fn has_to_close(&mut self) -> Result<bool, HandleError>
        ensures drops { Drops self.old self.new }
        ensures kept { self.old.wanted ≡ true → self.new ≡ self.old }
        ensures closes { self.old.closes ≡ true → IfOk result (λ b. b ≡ true) }
        ensures stays { self.old.closes ≡ false → (self.old.wanted ≡ true) ⊎ (may self.old.state on.drop_body ≡ false) → IfOk result (λ b. b ≡ false) }
        ensures passed { IfOk result (λ b. b ≡ false → PassesOver self.old self.new) }
        ensures lost { IfErr result (λ e. is_loss e ≡ true) }
        ensures left { OnErr result (IsLeft self.old) }
    {
        if self.closes {
            return Ok(true);
        }
        if self.is_wanted {
            return Ok(false);
        }
        if !self.connection.can_pull() {
            return Ok(false);
        }
        Ok(!self.pass_over_if_it_ends()?)
    }

    // Whether the body was passed over; where it can't end, it isn't.
    fn pass_over_if_it_ends(&mut self) -> Result<bool, HandleError>
        ensures drops { Drops self.old self.new }
        ensures passed { IfOk result (λ b. b ≡ true → DropsAll self.old self.new) }
        ensures lost { IfErr result (λ e. is_loss e ≡ true) }
    {
        if self.kind == BodyKind::Raw {
            return Ok(false);
        }
        if self.connection.can_continue() {
            return Ok(false);
        }
        self.pass_over()
    }

    // Whether the body was passed over. Its bytes are counted, and those that were read for it, as of chunks with long
    // extensions.
    fn pass_over(&mut self) -> Result<bool, HandleError>
        ensures drops { Drops self.old self.new }
        ensures passed { IfOk result (λ b. b ≡ true → DropsAll self.old self.new) }
        ensures lost { IfErr result (λ e. is_loss e ≡ true) }
    {
        let mut left = self.limits.drop;
        let (first, begin) = (self.taken, self.source.uptime());
        for _ in 0..u64::MAX {
            if !self.connection.can_pull() {
                return Ok(false);
            }
            match self.pull()? {
                Pulled::Bytes(bytes) => {
                    let count = bytes.len() as u64;
                    if count > left {
                        return Ok(false);
                    }
                    left -= count;
                }
                Pulled::Trailers(_) => return Ok(true),
                Pulled::End => return Ok(true),
                Pulled::Broken(_) => return Ok(false),
                Pulled::Pending => {
                    let count = self.taken.saturating_sub(first);
                    if count > self.limits.drop || self.time_since(begin) >= PATIENCE {
                        return Ok(false);
                    }
                    self.flush()?;
                    if !self.fill()? {
                        return Ok(false);
                    }
                }
            }
        }
        Ok(false)
    }
}
