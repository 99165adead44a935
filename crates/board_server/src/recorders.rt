//! Who notes the steps of each connection.
ghost use Rattle.std.specs.Prelude.{◌≡◌, ◌⊎◌, None, Some, []};

use h1_traced::{NoRecord, Recorder};

/// Gives each connection who notes its steps.
pub trait Recorders: Drop {
    /// Who notes them.
    type Rec: Recorder + Send;

    /// One that has noted nothing.
    fn make(&mut self) -> Self::Rec
        ensures { (Self.Rec.noted result ≡ None) ⊎ (Self.Rec.noted result ≡ Some []) };
}

/// No step is noted.
#[derive(Debug, Drop)]
pub struct NoRecords;

impl Recorders for NoRecords {
    type Rec = NoRecord;

    fn make(&mut self) -> NoRecord {
        NoRecord
    }
}
