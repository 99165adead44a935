// Why a client connection closes, and whether another request may be asked on it.
ghost use Rattle.std.specs.Prelude.{◌≡◌, ◌&&◌, not, None, option_map};
ghost use Rattle.model_client.specs.ClientKept.{client_closing, is_free, is_waited_for, has_bytes, is_reusable};
ghost use Rattle.h1_client.specs.Closing.{closing_if_free};
ghost use Rattle.h1_client.specs.ClientMeaning.{end_of};
ghost use Rattle.h1_client.specs.Parts.{kept_of};

use crate::ClientEnd;
use crate::connection::parts::Parts;

impl Parts {
    /// Why the connection closes, if it does: the first reason that holds.
    pub fn closing(&self) -> Option<ClientEnd>
        ensures { option_map end_of result ≡ client_closing (kept_of self.now) }
    {
        if self.failed.is_some() {
            return self.failed;
        }
        if !self.is_free() {
            return None;
        }
        self.closing_if_free()
    }

    // The same, where nothing has failed and no answer is read.
    fn closing_if_free(&self) -> Option<ClientEnd>
        ensures { option_map end_of result ≡ closing_if_free (kept_of self.now) }
    {
        if self.closes {
            return Some(ClientEnd::Asked);
        }
        if self.is_unasked() {
            return Some(ClientEnd::Unasked);
        }
        if self.has_ended && !self.input.is_coming() {
            return Some(ClientEnd::InputEnded);
        }
        None
    }

    // Bytes are there that no request asked for.
    fn is_unasked(&self) -> bool
        ensures { result ≡ (not (is_waited_for self.now.waiting) && has_bytes self.now.input.unread) }
    {
        self.waiting.is_empty() && self.input.len() > 0
    }

    /// Whether another request may be asked once all is done.
    pub fn is_reusable(&self) -> bool
        ensures { result ≡ is_reusable (kept_of self.now) }
    {
        if self.closing().is_some() || !self.is_free() || self.has_ended {
            return false;
        }
        if !self.waiting.is_empty() || self.sending.is_some() {
            return false;
        }
        self.input.len() == 0 && self.output.len() == 0
    }
}
