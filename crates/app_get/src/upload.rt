// The body of the request.
ghost use Rattle.std.specs.Prelude.{◌≡◌, false, ℕ, List, [], IfOk, IfErr, OnOk};
ghost use Rattle.std.specs.Io.{ReadsAtMost};
ghost use Rattle.std.specs.Io.KnownBytes.{IsAtEnd, ReadConsumes};
ghost use Rattle.http_config.specs.Causes.{Rose};
ghost use Rattle.h1_client.specs.State.{IsAllowed};
ghost use Rattle.model_client.specs.ClientEvent as on;
ghost use Rattle.app_get.specs.Exchange.{Goes, Acts, file_left, faults_of_file};
ghost use Rattle.app_get.specs.Failure.{Stops};

use crate::error::GetError;
use crate::exchange::Exchange;
use http_types::{Sink, Source};
use net_sockets::{TimedSink, TimedSource};

/// How many bytes of a file are handed in at once.
const PIECE: usize = 16_384;

impl<S: TimedSource + Drop, K: TimedSink + Drop, B: Source + Drop, O: Sink + Drop> Exchange<
    S,
    K,
    B,
    O,
> {
    /// Hands the next piece of the body in, where there is one and room for it, or says that the body is whole.
    #[tactic(auto, using(crate::proofs::Going::goes_none))]
    pub(crate) fn fill(&mut self) -> Result<(), GetError>
        ensures goes { OnOk result (Goes self.old self.new) }
        ensures acts { OnOk result (IsAllowed self.old.state (on.chunk []) → Acts self.old self.new) }
        ensures stops { IfErr result (λ error. Stops self.old self.new error) }
    {
        if !self.connection.can_chunk() {
            return Ok(());
        }
        self.fill_room()
    }

    fn fill_room(&mut self) -> Result<(), GetError>
        requires can_chunk { (bytes : List ℕ) → IsAllowed self.old.state (on.chunk bytes) }
        ensures acts { OnOk result (Acts self.old self.new) }
        ensures stops { IfErr result (λ error. Stops self.old self.new error) }
    {
        if self.hand_in()? {
            return Ok(());
        }
        self.end_body()
    }

    // Hands the next piece in, and says whether there was one. Of a piece without bytes nothing goes out.
    fn hand_in(&mut self) -> Result<bool, GetError>
        requires can_chunk { (bytes : List ℕ) → IsAllowed self.old.state (on.chunk bytes) }
        ensures acts { OnOk result (Acts self.old self.new) }
        ensures end { IfOk result (λ more. more ≡ false → IsAtEnd self.new.file) }
        ensures stops { IfErr result (λ error. Stops self.old self.new error) }
    {
        let mut piece = [0_u8; PIECE];
        let count = read_file(&mut self.body, &mut piece)?;
        self.connection.chunk(&piece[..count])?;
        Ok(count > 0)
    }

    // The body was handed in whole.
    #[tactic(auto, using(crate::proofs::Going::goes_none))]
    fn end_body(&mut self) -> Result<(), GetError>
        requires end { IsAtEnd self.old.file }
        ensures goes { OnOk result (Goes self.old self.new) }
        ensures stops { IfErr result (λ error. Stops self.old self.new error) }
    {
        if self.connection.can_end_body() {
            return self.close_body();
        }
        Ok(())
    }

    fn close_body(&mut self) -> Result<(), GetError>
        requires can_end { IsAllowed self.old.state on.body_end }
        requires end { IsAtEnd self.old.file }
        ensures goes { OnOk result (Goes self.old self.new) }
        ensures stops { IfErr result (λ error. Stops self.old self.new error) }
    {
        self.connection.end_body()?;
        self.body = None;
        Ok(())
    }
}

// Reads what is left of a file: nothing, where there is none.
fn read_file<B: Source>(body: &mut Option<B>, piece: &mut [u8]) -> Result<usize, GetError>
    ensures bound { ReadsAtMost result piece.new }
    ensures bytes { ReadConsumes (file_left B.left body.old) (file_left B.left body.new) result piece.new }
    ensures cause { IfErr result (λ error. (error ≡ GetError.File) × Rose (faults_of_file B.faults body.old) (faults_of_file B.faults body.new)) }
{
    match body {
        Some(source) => match source.read(piece) {
            Ok(count) => Ok(count),
            Err(_) => Err(GetError::File),
        },
        None => Ok(0),
    }
}
