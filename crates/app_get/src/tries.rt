//! Over a connection that was kept, or over a new one.
ghost use Rattle.std.specs.Prelude.{◌≡◌, Option, List, [], ◌∷◌, false, IsTrue, IfSome, IfOk};
ghost use Rattle.app_get.specs.Fetching.{Tried, kept_gave, new_gave, Notes, IsTried};

use crate::error::GetError;
use crate::follow::{Reply, Stage};

/// What asks over connections.
pub trait Tries {
    ghost use Rattle.app_get.specs.declared.follow.Reply.{Reply};
    ghost use Rattle.app_get.specs.declared.follow.Stage.{Stage};

    /// What was tried so far, the last first, where that is told.
    ghost tried: { Self → Option (List Tried) };

    /// What answers a request for a stage.
    ghost gives: { Self → Stage → Reply → Type 0 };

    /// Asks over the connection that was kept, where there is one that may be used.
    fn over_kept(&mut self, stage: &Stage) -> Option<Result<Reply, GetError>>
        ensures noted { Notes (tried self.old) (kept_gave result ∷ []) (tried self.new) }
        ensures given { IfSome result (λ done. IfOk done (gives self.new stage.now)) };

    /// Asks over a new one.
    fn over_new(&mut self, stage: &Stage) -> Result<Reply, GetError>
        ensures noted { Notes (tried self.old) (new_gave result ∷ []) (tried self.new) }
        ensures given { IfOk result (gives self.new stage.now) };
}

/// Asks there, over the connection that was kept where that may be.
///
/// A server may close such a connection at any time. What does nothing when it is asked twice is asked once more (RFC 9112,
/// section 9.3.1).
pub fn try_twice<T: Tries>(tries: &mut T, stage: &Stage, is_once: bool) -> Result<Reply, GetError>
    ensures tried { IsTried (T.tried tries.old) is_once (T.tried tries.new) result }
    ensures given { IfOk result (T.gives tries.new stage.now) }
{
    match tries.over_kept(stage) {
        None => tries.over_new(stage),
        Some(done) => {
            if !may_be_repeated(&done, is_once) {
                return done;
            }
            tries.over_new(stage)
        }
    }
}

// Whether what came to this may be asked once more: the server didn't answer, and nothing is done twice.
fn may_be_repeated(done: &Result<Reply, GetError>, is_once: bool) -> bool
    ensures { IsTrue result → (done.now ≡ Err GetError.Unanswered) × (is_once ≡ false) }
{
    match done {
        Err(GetError::Unanswered) => !is_once,
        _ => false,
    }
}
