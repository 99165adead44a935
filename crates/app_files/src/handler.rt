//! What is answered to which request.
ghost use Rattle.std.specs.Prelude.{None};
ghost use Rattle.serve_blocking.specs.Served.{Follows};

use crate::access::tell;
use crate::asked::{NO_TAG, bytes_of, conditions_of};
use crate::found::{Found, open};
use crate::listed::Listed;
use crate::lookup::{Unread, is_file, look};
use crate::reply::{Sent, add, add_range, add_type, file_head, listed_head, page_head};
use crate::shared::Shared;
use http_files::{Asked, FilePath, PathError, Verdict, content_type, message_page, place_of};
use http_types::header::names::{ALLOW, LOCATION};
use http_types::{Method, NoMemory, RequestHead, ResponseHead, StatusCode};
use net_sockets::{TimedSink, TimedSource};
use serve_blocking::{Answer, Body, HandleError, Handler, Handlers, Incoming};
use std::alloc::Global;
use std::fs::File;
use std::io::{Read, Seek, SeekFrom};
use std::net::SocketAddr;
use std::sync::Arc;
use std::time::Instant;

/// How many bytes of a file are held at once.
const PIECE: usize = 65_536;

/// Makes the handlers of a server.
#[derive(Drop)]
pub struct FileHandlers {
    rt: HostRuntime,
    shared: Arc<Shared>,
}

/// Answers the requests of one connection.
#[derive(Drop)]
pub struct FileHandler {
    rt: HostRuntime,
    alloc: Global,
    shared: Arc<Shared>,

    // A piece of a file. It takes no memory before the first one.
    piece: Vec<u8>,
}

impl FileHandlers {
    pub fn new(rt: HostRuntime, shared: Arc<Shared>) -> FileHandlers {
        FileHandlers { rt, shared }
    }
}

impl Handlers for FileHandlers {
    type Handler = FileHandler;

    fn handler(&mut self, _peer: SocketAddr) -> Result<FileHandler, NoMemory> {
        let alloc = self.rt.alloc();
        Ok(FileHandler {
            rt: self.rt,
            alloc,
            shared: Arc::try_clone(&self.shared)?,
            piece: Vec::new(alloc),
        })
    }

    fn is_ending(&self) -> bool {
        self.shared.is_ending()
    }
}

impl Handler for FileHandler {
    // It keeps no list of its requests.
    ghost handled = { λ _. None };

    #[tactic(auto, using(serve_blocking::proofs::Followed::follows_none, serve_blocking::proofs::Followed::follows_then))]
    fn handle<S: TimedSource, K: TimedSink>(
        &mut self,
        request: &Incoming<'_>,
        body: &mut Body<S, K>,
        answer: Answer,
    ) -> Result<(), HandleError> {
        let begun = Instant::now(&self.rt).ok();
        let sent = self.answer(request, body, answer);
        self.shared.count();
        tell(self.rt, self.shared.lines(), request, sent?, begun)?;
        Ok(())
    }

    fn is_ending(&self) -> bool {
        self.shared.is_ending()
    }
}

impl FileHandler {
    #[tactic(auto, using(serve_blocking::proofs::Followed::follows_none, serve_blocking::proofs::Followed::follows_then))]
    fn answer<S: TimedSource, K: TimedSink>(
        &mut self,
        request: &Incoming<'_>,
        body: &mut Body<S, K>,
        answer: Answer,
    ) -> Result<Sent, HandleError>
        ensures follows { Follows body.old body.new }
    {
        let head = request.head();
        if head.method != Method::GET && head.method != Method::HEAD {
            return self.refuse(StatusCode::METHOD_NOT_ALLOWED, body, answer);
        }
        let target = head.uri.path();
        let path = match self.shared.folder().file(self.alloc, target) {
            Ok(path) if path.is_hidden() && !self.shared.shows_dots() => {
                return self.refuse(StatusCode::NOT_FOUND, body, answer);
            }
            Ok(path) => path,
            Err(PathError::Malformed) => return self.refuse(StatusCode::BAD_REQUEST, body, answer),
            Err(PathError::Outside) => return self.refuse(StatusCode::NOT_FOUND, body, answer),
            Err(PathError::NoMemory) => return Err(HandleError::NoMemory),
        };
        match look(&self.rt, &path) {
            Ok(metadata) if metadata.is_dir() && target.ends_with('/') => {
                self.folder(request, &path, body, answer)
            }
            Ok(metadata) if metadata.is_dir() => self.redirect(head, body, answer),
            Ok(metadata) if metadata.is_file() && !target.ends_with('/') => {
                self.file(head, &path, body, answer)
            }
            Ok(_) => self.refuse(StatusCode::NOT_FOUND, body, answer),
            Err(unread) => self.refuse(unread.status(), body, answer),
        }
    }

    // Answers with a status and a page that says it.
    #[tactic(auto, using(serve_blocking::proofs::Followed::follows_none, serve_blocking::proofs::Followed::follows_then))]
    fn refuse<S: TimedSource, K: TimedSink>(
        &mut self,
        status: StatusCode,
        body: &mut Body<S, K>,
        answer: Answer,
    ) -> Result<Sent, HandleError>
        ensures follows { Follows body.old body.new }
    {
        let mut head = page_head(self.alloc, status)?;
        if status == StatusCode::METHOD_NOT_ALLOWED {
            add(self.alloc, &mut head, ALLOW, "GET, HEAD")?;
        }
        let page = message_page(self.alloc, status.canonical_reason().unwrap_or(""))?;
        send_page(head, status, page.as_str(), body, answer)
    }

    // Sends the client to a folder's place with a slash at its end, since the links of its page start there.
    #[tactic(auto, using(serve_blocking::proofs::Followed::follows_none, serve_blocking::proofs::Followed::follows_then))]
    fn redirect<S: TimedSource, K: TimedSink>(
        &mut self,
        request: &RequestHead,
        body: &mut Body<S, K>,
        answer: Answer,
    ) -> Result<Sent, HandleError>
        ensures follows { Follows body.old body.new }
    {
        let alloc = self.alloc;
        let place = match place_of(alloc, request.uri.path(), request.uri.query()) {
            Ok(place) => place,
            Err(PathError::NoMemory) => return Err(HandleError::NoMemory),
            Err(_) => return self.refuse(StatusCode::BAD_REQUEST, body, answer),
        };
        let status = StatusCode::MOVED_PERMANENTLY;
        let mut head = page_head(alloc, status)?;
        add(alloc, &mut head, LOCATION, place.as_str())?;
        let page = message_page(alloc, "Moved permanently")?;
        send_page(head, status, page.as_str(), body, answer)
    }

    // Answers with a folder's index.html, or with a page of its names.
    #[tactic(auto, using(serve_blocking::proofs::Followed::follows_none, serve_blocking::proofs::Followed::follows_then))]
    fn folder<S: TimedSource, K: TimedSink>(
        &mut self,
        request: &Incoming<'_>,
        path: &FilePath,
        body: &mut Body<S, K>,
        answer: Answer,
    ) -> Result<Sent, HandleError>
        ensures follows { Follows body.old body.new }
    {
        let Ok(index) = path.child("index.html") else {
            return Err(HandleError::NoMemory);
        };
        if is_file(&self.rt, &index) {
            return self.file(request.head(), &index, body, answer);
        }
        match Listed::new(&self.rt, &self.shared, path, request.moment()) {
            Ok(listed) => self.listed(request.head(), &listed, body, answer),
            Err(Unread::NoMemory) => Err(HandleError::NoMemory),
            Err(unread) => self.refuse(unread.status(), body, answer),
        }
    }

    // Answers with a page of names, or as its conditions say. It has no tag.
    #[tactic(auto, using(serve_blocking::proofs::Followed::follows_none, serve_blocking::proofs::Followed::follows_then))]
    fn listed<S: TimedSource, K: TimedSink>(
        &mut self,
        request: &RequestHead,
        listed: &Listed,
        body: &mut Body<S, K>,
        answer: Answer,
    ) -> Result<Sent, HandleError>
        ensures follows { Follows body.old body.new }
    {
        let status = match conditions_of(&request.headers, NO_TAG, listed.changed).verdict() {
            Verdict::Served => StatusCode::OK,
            Verdict::Unmodified => StatusCode::NOT_MODIFIED,
            Verdict::Failed => return self.refuse(StatusCode::PRECONDITION_FAILED, body, answer),
        };
        let head = listed_head(
            self.alloc,
            status,
            listed.changed,
            self.shared.cache_control(),
        )?;
        if status == StatusCode::OK {
            return send_page(head, status, listed.page.as_str(), body, answer);
        }
        answer.empty(body, head)?;
        Ok(Sent { status, length: 0 })
    }

    // Answers with a file, or a part of it, or as its conditions say.
    #[tactic(auto, using(serve_blocking::proofs::Followed::follows_none, serve_blocking::proofs::Followed::follows_then))]
    fn file<S: TimedSource, K: TimedSink>(
        &mut self,
        request: &RequestHead,
        path: &FilePath,
        body: &mut Body<S, K>,
        answer: Answer,
    ) -> Result<Sent, HandleError>
        ensures follows { Follows body.old body.new }
    {
        let (mut file, found) = match open(&self.rt, self.shared.folder(), request, path) {
            Ok(opened) => opened,
            Err(Unread::NoMemory) => return Err(HandleError::NoMemory),
            Err(unread) => return self.refuse(unread.status(), body, answer),
        };
        let changed = Some(found.changed);
        match conditions_of(&request.headers, &found.tag, changed).verdict() {
            Verdict::Served => self.send_file(request, path, &mut file, &found, body, answer),
            Verdict::Unmodified => {
                let status = StatusCode::NOT_MODIFIED;
                let cache = self.shared.cache_control();
                answer.empty(body, file_head(self.alloc, status, &found, cache)?)?;
                Ok(Sent { status, length: 0 })
            }
            Verdict::Failed => self.refuse(StatusCode::PRECONDITION_FAILED, body, answer),
        }
    }

    // Answers with a file, or with a part of it.
    #[tactic(auto, using(serve_blocking::proofs::Followed::follows_none, serve_blocking::proofs::Followed::follows_then))]
    fn send_file<S: TimedSource, K: TimedSink>(
        &mut self,
        request: &RequestHead,
        path: &FilePath,
        file: &mut File,
        found: &Found,
        body: &mut Body<S, K>,
        answer: Answer,
    ) -> Result<Sent, HandleError>
        ensures follows { Follows body.old body.new }
    {
        let alloc = self.alloc;
        let (status, first, last) = match bytes_of(request, found) {
            Asked::Whole => (StatusCode::OK, 0, found.length.saturating_sub(1)),
            Asked::Part(first, last) => (StatusCode::PARTIAL_CONTENT, first, last),
            Asked::Unsatisfiable => return self.unsatisfiable(found, body, answer),
        };
        let mut head = file_head(alloc, status, found, self.shared.cache_control())?;
        add_type(alloc, &mut head, content_type(path.as_str()), found)?;
        let mut length = found.length;
        if status == StatusCode::PARTIAL_CONTENT {
            add_range(alloc, &mut head, Some((first, last)), found.length)?;
            length = last.saturating_sub(first).saturating_add(1);
        }
        let is_head = request.method == Method::HEAD;
        self.send(file, is_head, first, length, head, body, answer)?;
        Ok(Sent { status, length })
    }

    // Says that the bytes that are asked for aren't there, and how many there are.
    #[tactic(auto, using(serve_blocking::proofs::Followed::follows_none, serve_blocking::proofs::Followed::follows_then))]
    fn unsatisfiable<S: TimedSource, K: TimedSink>(
        &mut self,
        found: &Found,
        body: &mut Body<S, K>,
        answer: Answer,
    ) -> Result<Sent, HandleError>
        ensures follows { Follows body.old body.new }
    {
        let status = StatusCode::RANGE_NOT_SATISFIABLE;
        let mut head = page_head(self.alloc, status)?;
        add_range(self.alloc, &mut head, None, found.length)?;
        let page = message_page(self.alloc, "Range Not Satisfiable")?;
        send_page(head, status, page.as_str(), body, answer)
    }

    // Sends so many bytes of a file, piece by piece.
    #[tactic(auto, using(serve_blocking::proofs::Followed::follows_none, serve_blocking::proofs::Followed::follows_then))]
    fn send<S: TimedSource, K: TimedSink>(
        &mut self,
        file: &mut File,
        is_head: bool,
        first: u64,
        length: u64,
        head: ResponseHead,
        body: &mut Body<S, K>,
        answer: Answer,
    ) -> Result<(), HandleError>
        ensures follows { Follows body.old body.new }
    {
        if self.piece.is_empty() {
            self.piece.resize(PIECE, 0)?;
        }
        if first > 0 && file.seek(SeekFrom::Start(first)).is_err() {
            return Err(HandleError::Failed);
        }
        let mut writer = answer.sized(body, head, length)?;
        let mut left = if is_head { 0 } else { length };
        for _ in 0..length {
            if left == 0 {
                return writer.end(body);
            }
            let limit = usize::try_from(left)
                .unwrap_or(usize::MAX)
                .min(self.piece.len());
            match file.read(&mut self.piece[..limit]) {
                Ok(count) if count > 0 => {
                    writer = writer.write(body, &self.piece[..count])?;
                    left = left.saturating_sub(count as u64);
                }
                // The file became shorter.
                _ => {
                    writer.fail(body);
                    return Ok(());
                }
            }
        }
        writer.end(body)
    }
}

#[tactic(auto, using(serve_blocking::proofs::Followed::follows_none, serve_blocking::proofs::Followed::follows_then))]
fn send_page<S: TimedSource, K: TimedSink>(
    head: ResponseHead,
    status: StatusCode,
    page: &str,
    body: &mut Body<S, K>,
    answer: Answer,
) -> Result<Sent, HandleError>
    ensures follows { Follows body.old body.new }
{
    answer.whole(body, head, page.as_bytes())?;
    Ok(Sent {
        status,
        length: page.len() as u64,
    })
}
