//! Redirect after redirect.
ghost use Rattle.std.specs.Prelude.{◌≡◌, ◌⊎◌, true, Option, List, [], ◌∷◌, IfOk, IfErr};
ghost use Rattle.app_get.specs.Fetching.{Notes};
ghost use Rattle.app_get.specs.Following.{Asked, came, is_followed, IsFirst, IsRefused, Leads, IsBarred, IsTurn, Follows};
ghost use Rattle.app_get.specs.Places.{IsTargetOf, HasNoTarget};

use crate::error::GetError;
use crate::redirect::{Hop, is_redirect, is_same_place, read_url, resolve};
use crate::target::Target;
use http_types::HeaderValue;
use std::alloc::Global;
use url::Url;

/// How many redirects of a URL are followed.
const MOST_REDIRECTS: usize = 10;

/// Where a URL is asked for, and what redirects have changed of the request.
#[derive(Drop)]
pub struct Stage {
    pub url: Url,
    pub target: Target,
    pub hop: Hop,
}

/// What an answer says: its status, and where it leads, where its head names that.
#[derive(Drop)]
pub struct Reply {
    pub status: u16,
    pub location: Option<HeaderValue>,
}

/// What asks for URLs.
pub trait Asks {
    ghost use Rattle.app_get.specs.declared.follow.Reply.{Reply};
    ghost use Rattle.app_get.specs.declared.follow.Stage.{Stage};

    /// What was asked so far, the last first, where that is told.
    ghost asked: { Self → Option (List Asked) };

    /// What answers a request for a stage.
    ghost answers: { Self → Stage → Reply → Type 0 };

    /// Asks there.
    fn ask_at(&mut self, stage: &Stage) -> Result<Reply, GetError>
        ensures noted { Notes (asked self.old) (came stage.now result ∷ []) (asked self.new) }
        ensures answered { IfOk result (answers self.new stage.now) };
}

/// What comes of asking once.
#[derive(Drop)]
pub enum Turn {
    /// The status of an answer that isn't followed.
    Last(u16),

    /// Where a redirect leads.
    On(Stage),
}

/// Asks for a URL by this method, and, where redirects are followed, for what they name: ten of them at most. It gives the status
/// of the last answer.
pub fn follow<A: Asks>(
    alloc: Global,
    asks: &mut A,
    url: &str,
    method: &[u8],
    follows: bool,
) -> Result<u16, GetError>
    ensures { Follows (A.asked asks.old) url.now method.now follows (A.asked asks.new) result }
{
    let mut stage = Stage::first(alloc, url)?;
    for _turn in 0..MOST_REDIRECTS + 1 {
        match ask_once(alloc, asks, &stage, method, follows)? {
            Turn::Last(status) => return Ok(status),
            Turn::On(next) => stage = next,
        }
    }
    Err(GetError::Redirects)
}

fn ask_once<A: Asks>(
    alloc: Global,
    asks: &mut A,
    stage: &Stage,
    method: &[u8],
    follows: bool,
) -> Result<Turn, GetError>
    ensures { IsTurn (A.asked asks.old) stage.now method.now follows (A.asked asks.new) result }
{
    let reply = asks.ask_at(stage)?;
    if !reply.is_followed(follows) {
        return Ok(Turn::Last(reply.status));
    }
    Ok(Turn::On(stage.after(alloc, method, &reply)?))
}

impl Reply {
    // Whether it is a redirect that is followed.
    fn is_followed(&self, follows: bool) -> bool
        ensures { result ≡ is_followed follows self.now }
    {
        follows && is_redirect(self.status)
    }
}

impl Stage {
    // Of the URL itself. What a URL can't hold is escaped.
    fn first(alloc: Global, text: &str) -> Result<Stage, GetError>
        ensures ok { IfOk result (IsFirst text.now) }
        ensures err { IfErr result (IsRefused text.now) }
    {
        let url = read_url(alloc, text)?;
        let target = Target::of(alloc, &url)?;
        Ok(Stage {
            url,
            target,
            hop: Hop::first(),
        })
    }

    // Where a redirect leads.
    fn after(&self, alloc: Global, method: &[u8], reply: &Reply) -> Result<Stage, GetError>
        ensures ok { IfOk result (Leads method.now self.now reply.now) }
        ensures err { IfErr result (IsBarred self.now reply.now) }
    {
        let Some(location) = &reply.location else {
            return Err(GetError::Location);
        };
        let url = resolve(&self.url, location)?;
        let target = redirected(alloc, &url)?;
        let is_same = is_same_place(&self.target, &target);
        let hop = self
            .hop
            .after(reply.status, self.hop.method(method), is_same);
        Ok(Stage { url, target, hop })
    }
}

// What the URL of a redirect leads to.
fn redirected(alloc: Global, url: &Url) -> Result<Target, GetError>
    ensures ok { IfOk result (IsTargetOf url.now) }
    ensures err { IfErr result (λ error. (error ≡ GetError.NoMemory) ⊎ ((error ≡ GetError.Elsewhere) × HasNoTarget url.now)) }
{
    match Target::of(alloc, url) {
        Ok(target) => Ok(target),
        Err(GetError::NoMemory) => Err(GetError::NoMemory),
        Err(_) => Err(GetError::Elsewhere),
    }
}
