//! The answer to the open request.
ghost use Rattle.std.specs.Prelude.{◌≡◌, [], ◌∷◌, true, false, IfErr, IsOk, OnOk, OnErr};
ghost use Rattle.model_h1.specs.Answer as answers;
ghost use Rattle.model_h1.specs.Event as on;
ghost use Rattle.h1_encoder.specs.Meaning.{answer_of, size_of};
ghost use Rattle.serve_blocking.specs.Acts.{Answers, AnswersPart, Begins, Does, Drops, IsFlushed, Sends, SendsSome, Waits, is_loss, may, where_may};
ghost use Rattle.serve_blocking.specs.Fails.{Fails, IsFull, NoChunk, NotBegun, NotSent, NotWhole};
ghost use Rattle.serve_blocking.specs.Served.{Follows};

use crate::{Body, HandleError};
use http_framing::BodySize;
use http_types::ResponseHead;
use net_sockets::{TimedSink, TimedSource};

/// The most bytes that are handed to the connection at once.
const PIECE: usize = 16_384;

/// Leave to answer the open request, once.
#[derive(Drop)]
pub struct Answer {
    _once: (),
}

/// An answer's body that is being sent. It is ended by `end` or by `fail`; the compiler refuses a handler that does
/// neither. After an error nothing more can be sent, and there is no writer any more.
pub struct Writer {
    _open: (),
}

impl Answer {
    pub(crate) fn new() -> Answer {
        Answer { _once: () }
    }

    /// Answers with a head and a whole body. A small answer goes out in one write. After an error at most a part of the
    /// answer was handed in: nothing, or its head and the first bytes of its body.
    ///
    /// `Misplaced` where no answer may begin, or no piece of its body may come. `Lost` and `Stalled` as `sized` and `write`
    /// give them. Else `NoMemory`.
    pub fn whole<S: TimedSource, K: TimedSink>(
        self,
        body: &mut Body<S, K>,
        head: ResponseHead,
        bytes: &[u8],
    ) -> Result<(), HandleError>
        ensures follows { Follows body.old body.new }
        ensures answers { OnOk result (Answers (answer_of head) bytes.now body.old body.new) }
        ensures part { OnErr result (AnswersPart (answer_of head) bytes.now body.old body.new) }
        ensures fails { IfErr result (λ e. NotWhole (answer_of head) bytes.now e body.old body.new) }
    {
        let writer = self.sized(body, head, bytes.len() as u64)?;
        let writer = writer.write(body, bytes)?;
        writer.end(body)?;
        Ok(())
    }

    /// Begins an answer whose body has so many bytes (RFC 7230, section 3.3.2). After an error nothing of it was handed in.
    ///
    /// `Misplaced` where no answer may begin. `Lost` and `Stalled` where a body is waited for that isn't wanted, and
    /// `Stalled` where a limit of the config's times has passed. Else `NoMemory`.
    pub fn sized<S: TimedSource, K: TimedSink>(
        self,
        body: &mut Body<S, K>,
        head: ResponseHead,
        length: u64,
    ) -> Result<Writer, HandleError>
        ensures follows { Follows body.old body.new }
        ensures begins { OnOk result (Begins (answer_of head) (answers.size_of length) body.old body.new) }
        ensures none { OnErr result (Drops body.old body.new) }
        ensures fails { IfErr result (λ e. NotBegun e body.old body.new) }
    {
        self.begin(body, head, BodySize::Sized(length))
    }

    /// Begins an answer whose body's length isn't known: it is sent in chunks to a client that knows them, and else ends
    /// with the connection (RFC 7230, section 4.1). After an error nothing of it was handed in.
    ///
    /// The errors are those of `sized`.
    pub fn stream<S: TimedSource, K: TimedSink>(
        self,
        body: &mut Body<S, K>,
        head: ResponseHead,
    ) -> Result<Writer, HandleError>
        ensures follows { Follows body.old body.new }
        ensures begins { OnOk result (Begins (answer_of head) answers.size_stream body.old body.new) }
        ensures none { OnErr result (Drops body.old body.new) }
        ensures fails { IfErr result (λ e. NotBegun e body.old body.new) }
    {
        self.begin(body, head, BodySize::Stream)
    }

    /// Answers with a head alone, as 304 is (RFC 7232, section 4.1). After an error at most the head was handed in.
    ///
    /// The errors are those of `sized`.
    pub fn empty<S: TimedSource, K: TimedSink>(
        self,
        body: &mut Body<S, K>,
        head: ResponseHead,
    ) -> Result<(), HandleError>
        ensures follows { Follows body.old body.new }
        ensures answers { OnOk result (Answers (answer_of head) [] body.old body.new) }
        ensures part { OnErr result (AnswersPart (answer_of head) [] body.old body.new) }
        ensures fails { IfErr result (λ e. NotBegun e body.old body.new) }
    {
        let writer = self.begin(body, head, BodySize::ZERO)?;
        writer.end(body)?;
        Ok(())
    }

    // Begins an answer, for which the request's body may be passed over.
    fn begin<S: TimedSource, K: TimedSink>(
        self,
        body: &mut Body<S, K>,
        mut head: ResponseHead,
        size: BodySize,
    ) -> Result<Writer, HandleError>
        ensures follows { Follows body.old body.new }
        ensures begins { OnOk result (Begins (answer_of head) (size_of size) body.old body.new) }
        ensures none { OnErr result (Drops body.old body.new) }
        ensures fails { IfErr result (λ e. NotBegun e body.old body.new) }
    {
        body.settle(&mut head)?;
        body.tick()?;
        if !body.connection.can_answer() {
            return Err(HandleError::Misplaced);
        }
        body.begin_answer(&head, size)?;
        Ok(Writer { _open: () })
    }
}

impl Writer {
    /// Sends the next bytes of the body. They are gathered, and written once there is no more room. After an error the
    /// first of them may have been handed in.
    ///
    /// `Misplaced` where no piece of the body may come. `Lost` and `Stalled` where there was no more room. Else `NoMemory`.
    pub fn write<S: TimedSource, K: TimedSink>(
        self,
        body: &mut Body<S, K>,
        bytes: &[u8],
    ) -> Result<Writer, HandleError>
        ensures follows { Follows body.old body.new }
        ensures sends { OnOk result (Sends bytes.now body.old body.new) }
        ensures some { OnErr result (SendsSome bytes.now body.old body.new) }
        ensures fails { IfErr result (λ e. NotSent bytes.now e body.old body.new) }
    {
        match body.send(bytes) {
            Ok(()) => Ok(self),
            Err(error) => {
                let Writer { _open: () } = self;
                Err(error)
            }
        }
    }

    /// Writes what was gathered now, as a client that waits for each piece wants it. `Lost`, `Stalled` or `NoMemory`, where
    /// something was gathered.
    pub fn flush<S: TimedSource, K: TimedSink>(
        self,
        body: &mut Body<S, K>,
    ) -> Result<Writer, HandleError>
        ensures follows { Follows body.old body.new }
        ensures waits { Waits body.old body.new }
        ensures flushed { OnOk result (IsFlushed body.new.state) }
        ensures lost { IfErr result (λ e. is_loss e ≡ true) }
        ensures idle { IsFlushed body.old.state → IsOk result }
    {
        match body.flush() {
            Ok(()) => Ok(self),
            Err(error) => {
                let Writer { _open: () } = self;
                Err(error)
            }
        }
    }

    /// The body is whole. `NoMemory`: then its end wasn't handed in.
    pub fn end<S: TimedSource, K: TimedSink>(self, body: &mut Body<S, K>) -> Result<(), HandleError>
        ensures follows { Follows body.old body.new }
        ensures ends { OnOk result (Does (where_may body.old.state on.body_end) body.old body.new) }
        ensures whole { OnOk result (may body.old.state on.body_end ≡ false → body.new ≡ body.old) }
        ensures none { OnErr result (body.new ≡ body.old) }
        ensures memory { IfErr result (λ e. e ≡ HandleError.NoMemory) }
    {
        let Writer { _open: () } = self;
        if !body.connection.can_end_answer() {
            return Ok(());
        }
        body.end_answer()?;
        Ok(())
    }

    /// The body can't be completed: the connection ends, and the client sees that bytes are missing.
    pub fn fail<S: TimedSource, K: TimedSink>(self, body: &mut Body<S, K>)
        ensures follows { Follows body.old body.new }
        ensures fails { Does (where_may body.old.state on.body_error) body.old body.new }
    {
        let Writer { _open: () } = self;
        body.fail_answer();
    }
}

impl<S: TimedSource, K: TimedSink> Body<S, K> {
    // Hands in bytes of the answer's body, piece by piece.
    fn send(&mut self, bytes: &[u8]) -> Result<(), HandleError>
        ensures follows { Follows self.old self.new }
        ensures sends { OnOk result (Sends bytes.now self.old self.new) }
        ensures some { OnErr result (SendsSome bytes.now self.old self.new) }
        ensures fails { IfErr result (λ e. NotSent bytes.now e self.old self.new) }
    {
        for piece in bytes.chunks(PIECE) {
            self.send_piece(piece)?;
        }
        Ok(())
    }

    // Hands in one piece, once there is room for it.
    fn send_piece(&mut self, piece: &[u8]) -> Result<(), HandleError>
        ensures sends { OnOk result (Sends piece.now self.old self.new) }
        ensures none { OnErr result (Waits self.old self.new) }
        ensures fails { IfErr result (λ e. Fails (NoChunk self.new.state) (IsFull self.old.state) e) }
    {
        self.make_room()?;
        if !self.connection.can_chunk() {
            return Err(HandleError::Misplaced);
        }
        self.hand_in(piece)?;
        Ok(())
    }

    // Writes what waits, where there is no room for a piece behind it.
    fn make_room(&mut self) -> Result<(), HandleError>
        ensures waits { Waits self.old self.new }
        ensures lost { IfErr result (λ e. is_loss e ≡ true) }
        ensures full { OnErr result (IsFull self.old.state) }
    {
        if self.connection.write_room() == 0 {
            return self.flush();
        }
        Ok(())
    }

    // The answer's body can't be completed, where one is being sent.
    pub(crate) fn fail_answer(&mut self)
        ensures follows { Follows self.old self.new }
        ensures fails { Does (where_may self.old.state on.body_error) self.old self.new }
    {
        if !self.connection.can_end_answer() {
            return;
        }
        self.break_answer();
    }
}
