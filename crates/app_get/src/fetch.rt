//! How a URL is fetched.
ghost use Rattle.std.specs.Prelude.{◌≡◌, None, IfOk};
ghost use Rattle.app_get.specs.Answering.{IsAskedAt, IsReplyOver, IsReplyAt};

use crate::answer::Wanted;
use crate::each::{Fetches, fetch_each};
use crate::error::GetError;
use crate::exchange::Exchange;
use crate::follow::{Asks, Reply, Stage, follow};
use crate::link::Link;
use crate::options::Options;
use crate::output::OutputFile;
use crate::redirect::Hop;
use crate::request::{ask, head_for, is_repeatable, method_for};
use crate::tries::{Tries, try_twice};
use bytes::Bytes;
use http_framing::BodySize;
use http_types::{ReadSource, Sink, Source, StdSink, SureSource};
use net_sockets::{SocketSink, SocketSource, moment};
use std::fs::File;
use std::io::ErrorKind;

/// The status of the program where an answer says that it isn't what was asked for.
const NO_SUCCESS: u8 = 8;

/// Fetches all, and gives the status of the program.
pub fn fetch_all(rt: HostRuntime, options: &Options<'_>) -> u8 {
    let mut fetcher = Fetcher {
        rt,
        options,
        kept: None,
        has_written: false,
    };
    let refused = if options.is_failing {
        GetError::Unwanted.status()
    } else {
        NO_SUCCESS
    };
    fetch_each(&mut fetcher, &options.urls, refused)
}

// What fetches URLs as the options say, over a connection that is kept where that may be.
#[derive(Drop)]
struct Fetcher<'a, 'w> {
    rt: HostRuntime,
    options: &'a Options<'w>,
    kept: Option<Link>,

    // Something was written to the file for bodies.
    has_written: bool,
}

impl<'a, 'w> Fetcher<'a, 'w> {
    // Over this connection, or over a new one, which is kept.
    fn over(&mut self, stage: &Stage, kept: Option<Link>) -> Result<Reply, GetError>
        ensures { IfOk result (IsReplyAt self.new.options.now stage.now) }
    {
        if stage.hop.by_get {
            return self.send::<SureSource>(stage, kept, None, BodySize::None);
        }
        match self.options.text {
            Some(text) => self.send_text(stage, kept, text),
            None => self.send_file(stage, kept),
        }
    }

    fn send_text(
        &mut self,
        stage: &Stage,
        kept: Option<Link>,
        text: &str,
    ) -> Result<Reply, GetError>
        ensures { IfOk result (IsReplyAt self.new.options.now stage.now) }
    {
        let Ok(bytes) = Bytes::copy_from_slice(self.rt.alloc(), text.as_bytes()) else {
            return Err(GetError::NoMemory);
        };
        let size = if self.options.is_chunked {
            BodySize::Stream
        } else {
            BodySize::Sized(text.len() as u64)
        };
        self.send(stage, kept, Some(SureSource::new(bytes)), size)
    }

    fn send_file(&mut self, stage: &Stage, kept: Option<Link>) -> Result<Reply, GetError>
        ensures { IfOk result (IsReplyAt self.new.options.now stage.now) }
    {
        let (file, size) = open(self.rt, self.options)?;
        self.send(stage, kept, file, size)
    }

    // The same, where this is what is sent.
    fn send<B: Source + Drop>(
        &mut self,
        stage: &Stage,
        kept: Option<Link>,
        body: Option<B>,
        size: BodySize,
    ) -> Result<Reply, GetError>
        ensures { IfOk result (IsReplyAt self.new.options.now stage.now) }
    {
        let link = ask_over(self.rt, self.options, stage, kept, size)?;
        let Answer { reply, link } = self.take_answer(link, body)?;
        self.kept = link;
        Ok(reply)
    }

    // Takes the answer, and writes it where it is to be written.
    fn take_answer<B: Source + Drop>(
        &mut self,
        link: Link,
        body: Option<B>,
    ) -> Result<Answer, GetError>
        ensures reply { IfOk result (λ answer. IsReplyOver link.connection answer.reply) }
        ensures options { self.new.options.now ≡ self.old.options.now }
    {
        match self.options.output {
            Some(path) => {
                let out = OutputFile::new(self.rt, path, self.has_written);
                let (answer, out) = exchange_over(self.rt, self.options, link, body, out)?;
                self.has_written = out.end(answer.link.is_some())?;
                Ok(answer)
            }
            None => {
                let out = StdSink::new(self.rt.stdout());
                let (answer, _) = exchange_over(self.rt, self.options, link, body, out)?;
                Ok(answer)
            }
        }
    }
}

// What came of an exchange: what the answer says, and the connection, if the answer was taken to its end.
#[derive(Drop)]
struct Answer {
    reply: Reply,
    link: Option<Link>,
}

impl<'a, 'w> Fetches for Fetcher<'a, 'w> {
    // What is done isn't kept.
    ghost done = { λ _. None };

    fn fetch(&mut self, url: &str) -> Result<u16, GetError> {
        let method = method_for(self.options, Hop::first())?;
        let alloc = self.rt.alloc();
        let follows = self.options.follows;
        follow(alloc, self, url, method.as_str().as_bytes(), follows)
    }

    fn tell_status(&mut self, url: &str, status: u16) {
        let rt = self.rt;
        let _ = eprintln!(rt; "app_get: {url}: the server answers with status {status}");
    }

    fn tell_error(&mut self, url: &str, error: GetError) {
        let rt = self.rt;
        let about = about_of(self.options, error).unwrap_or(url);
        let _ = eprintln!(rt; "app_get: {about}: {error}");
    }
}

impl<'a, 'w> Asks for Fetcher<'a, 'w> {
    // Nor is what is asked.
    ghost asked = { λ _. None };

    ghost answers = { λ f. IsReplyAt f.options.now };

    fn ask_at(&mut self, stage: &Stage) -> Result<Reply, GetError> {
        let is_once = !is_repeatable(self.options);
        try_twice(self, stage, is_once)
    }
}

// The file that an error is about.
fn about_of<'w>(options: &Options<'w>, error: GetError) -> Option<&'w str> {
    if error.is_of_file() {
        return options.file;
    }
    match error {
        GetError::Output => options.output,
        _ => None,
    }
}

impl<'a, 'w> Tries for Fetcher<'a, 'w> {
    // Nor are tries.
    ghost tried = { λ _. None };

    ghost gives = { λ f. IsReplyAt f.options.now };

    fn over_kept(&mut self, stage: &Stage) -> Option<Result<Reply, GetError>> {
        let link = self.kept.take()?;
        if link.serves(&self.rt, &stage.target) {
            Some(self.over(stage, Some(link)))
        } else {
            None
        }
    }

    fn over_new(&mut self, stage: &Stage) -> Result<Reply, GetError> {
        self.over(stage, None)
    }
}

// Takes the answer to what was asked over this connection.
fn exchange_over<B: Source + Drop, O: Sink + Drop>(
    rt: HostRuntime,
    options: &Options<'_>,
    link: Link,
    body: Option<B>,
    out: O,
) -> Result<(Answer, O), GetError>
    ensures { IfOk result (λ x. IsReplyOver link.connection x.0.reply) }
{
    let Link {
        stream,
        connection,
        place,
    } = link;
    let mut exchange = Exchange::new(
        rt.alloc(),
        connection,
        SocketSource::new(&rt, &stream),
        SocketSink::new(&stream),
        body,
        out,
        wanted_of(options),
    );
    let (status, is_whole) = exchange.answer(options.wait)?;
    let (connection, out, location) = exchange.into_parts();
    let link = if is_whole {
        Some(Link {
            stream,
            connection,
            place,
        })
    } else {
        None
    };
    let reply = Reply { status, location };
    Ok((Answer { reply, link }, out))
}

// Asks over this connection, or over a new one.
fn ask_over(
    rt: HostRuntime,
    options: &Options<'_>,
    stage: &Stage,
    kept: Option<Link>,
    size: BodySize,
) -> Result<Link, GetError>
    ensures { IfOk result (λ link. IsAskedAt options.now stage.now link.connection) }
{
    let alloc = rt.alloc();
    let head = head_for(alloc, options, stage)?;
    let mut link = match kept {
        Some(link) => link,
        None => Link::open(&rt, alloc, &stage.target, options.wait)?,
    };
    ask(&mut link.connection, moment(&rt).unwrap_or(0), &head, size)?;
    Ok(link)
}

fn wanted_of(options: &Options<'_>) -> Wanted {
    Wanted {
        head: options.is_head,
        no_refusal: options.is_failing,
        no_redirect: options.follows,
    }
}

// What is sent, where something is, and how long it is, where that is to be said.
fn open(
    rt: HostRuntime,
    options: &Options<'_>,
) -> Result<(Option<ReadSource<File>>, BodySize), GetError> {
    let Some(path) = options.file else {
        return Ok((None, BodySize::None));
    };
    let file = match File::open(&rt, path) {
        Ok(file) => file,
        Err(error) if error.kind() == ErrorKind::NotFound => return Err(GetError::NoFile),
        Err(error) if error.kind() == ErrorKind::OutOfMemory => return Err(GetError::NoMemory),
        Err(_) => return Err(GetError::File),
    };
    let size = size_of(&file, options.is_chunked)?;
    Ok((Some(ReadSource::new(file)), size))
}

// Only a file that is none of a device or a pipe has a length. Of some the system doesn't know it, and says 0.
fn size_of(file: &File, is_chunked: bool) -> Result<BodySize, GetError> {
    match file.metadata() {
        Ok(found) if found.is_dir() => Err(GetError::Folder),
        Ok(found) if found.is_file() && found.len() > 0 && !is_chunked => {
            Ok(BodySize::Sized(found.len()))
        }
        Ok(_) => Ok(BodySize::Stream),
        Err(_) => Err(GetError::File),
    }
}
