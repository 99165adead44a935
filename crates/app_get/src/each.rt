//! URL after URL.
ghost use Rattle.std.specs.Prelude.{Option, List, [], ◌∷◌, length};
ghost use Rattle.app_get.specs.Fetching.{Done, fetched, told_status, told_error, Notes, FetchesEach, FetchesOne};

use crate::error::GetError;

/// What fetches URLs, and tells the user what is wrong with one.
pub trait Fetches {
    /// What was done so far, the last first, where that is told.
    ghost done: { Self → Option (List Done) };

    /// Fetches a URL, and gives the status of its answer.
    fn fetch(&mut self, url: &str) -> Result<u16, GetError>
        ensures { Notes (done self.old) (fetched result ∷ []) (done self.new) };

    /// Tells by which status it was answered.
    fn tell_status(&mut self, url: &str, status: u16)
        ensures { Notes (done self.old) (told_status status ∷ []) (done self.new) };

    /// Tells why it wasn't fetched.
    fn tell_error(&mut self, url: &str, error: GetError)
        ensures { Notes (done self.old) (told_error error ∷ []) (done self.new) };
}

/// Fetches all, one after another, until one can't be had, and gives the status of the program: `refused` after an answer that
/// says that it isn't what was asked for.
pub fn fetch_each<F: Fetches>(fetcher: &mut F, urls: &[&str], refused: u8) -> u8
    ensures { FetchesEach (F.done fetcher.old) (length urls.now) refused (F.done fetcher.new) result }
{
    let mut status = 0;
    for url in urls {
        match fetch_one(fetcher, url, refused, status) {
            Ok(next) => status = next,
            Err(exit) => return exit,
        }
    }
    status
}

// Fetches one. It gives the status of the program so far, or the one that it ends with.
fn fetch_one<F: Fetches>(fetcher: &mut F, url: &str, refused: u8, status: u8) -> Result<u8, u8>
    ensures { FetchesOne (F.done fetcher.old) refused status (F.done fetcher.new) result }
{
    match fetcher.fetch(url) {
        Ok(said) => {
            if said < 400 {
                return Ok(status);
            }
            fetcher.tell_status(url, said);
            Ok(refused)
        }
        Err(error) => {
            fetcher.tell_error(url, error);
            Err(error.status())
        }
    }
}
