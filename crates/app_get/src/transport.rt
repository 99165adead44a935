// Both directions of the connection's socket.
ghost use Rattle.std.specs.Prelude.{◌<◌, ℕ, List, length, OnOk, IfErr};
ghost use Rattle.h1_client.specs.State.{IsAllowed};
ghost use Rattle.model_client.specs.ClientEvent as on;
ghost use Rattle.app_get.specs.Exchange.{Goes, IsSent, IsWaiting};
ghost use Rattle.app_get.specs.Failure.{Stops};

use crate::error::GetError;
use crate::exchange::Exchange;
use h1_client::ClientEnd;
use http_types::{Sink, Source};
use net_sockets::{TimedSink, TimedSource};

/// How many bytes are read at once.
const PIECE: usize = 16_384;

/// What became of the bytes that were to be written.
#[derive(Clone, Copy, PartialEq, Eq)]
pub enum Sent {
    /// Some were written.
    Some,

    /// There are none, or the server takes none any more.
    Nothing,

    /// None could be written now.
    NotNow,
}

impl<S: TimedSource + Drop, K: TimedSink + Drop, B: Source + Drop, O: Sink + Drop> Exchange<
    S,
    K,
    B,
    O,
> {
    /// Writes what is to be written, as far as that goes without waiting.
    pub(crate) fn send(&mut self) -> Sent
        ensures { IsSent result self.old self.new }
    {
        if self.connection.front().is_empty() {
            return Sent::Nothing;
        }
        // Both directions of a socket wait, or neither does.
        self.input.wait_at_most(0);
        if self.connection.can_write() {
            return self.write_front();
        }
        Sent::Nothing
    }

    // Writes the first bytes that are to be written.
    fn write_front(&mut self) -> Sent
        requires can_write { (count : ℕ) → IsAllowed self.old.state (on.write count) }
        requires some { 0 < length self.old.state.kept.buffered }
        ensures { IsSent result self.old self.new }
    {
        match self.output.write(self.connection.front()) {
            Ok(count) => {
                self.connection.advance(count);
                Sent::Some
            }
            Err(_) if self.output.is_not_now() => Sent::NotNow,
            // The answer may have come all the same.
            Err(_) => Sent::Nothing,
        }
    }

    /// Reads what has come, or that nothing more does, for which it waits for at most so many milliseconds. It says whether
    /// something has.
    #[tactic(auto, using(crate::proofs::Going::goes_none, crate::proofs::Going::goes_then))]
    pub(crate) fn read_more(&mut self, wait: u64) -> Result<bool, GetError>
        requires { IsWaiting self.old }
        ensures goes { OnOk result (Goes self.old self.new) }
        ensures stops { IfErr result (λ error. Stops self.old self.new error) }
    {
        if !self.connection.can_read() {
            return Err(GetError::Lost);
        }
        let mut piece = [0_u8; PIECE];
        let room = self.connection.read_room().min(PIECE);
        if room == 0 {
            return Err(GetError::Lost);
        }
        self.input.wait_at_most(wait);
        self.read_into(&mut piece[..room])
    }

    // Reads the next bytes, or the end.
    fn read_into(&mut self, piece: &mut [u8]) -> Result<bool, GetError>
        requires can_read { (bytes : List ℕ) → IsAllowed self.old.state (on.read bytes) }
        requires can_end { IsAllowed self.old.state on.eof }
        requires room { 0 < length piece.old }
        requires waiting { IsWaiting self.old }
        ensures goes { OnOk result (Goes self.old self.new) }
        ensures stops { IfErr result (λ error. Stops self.old self.new error) }
    {
        match self.input.read(piece) {
            Ok(0) => {
                self.connection.eof();
                Ok(true)
            }
            Ok(count) => {
                self.has_begun = true;
                if self.connection.read(&piece[..count])? != count {
                    return Err(GetError::Lost);
                }
                Ok(true)
            }
            Err(_) if self.input.is_not_now() => Ok(false),
            Err(_) => Err(self.error_of(ClientEnd::InputEnded)),
        }
    }
}
