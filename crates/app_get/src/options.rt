//! The words that the program is started with.
ghost use Rattle.std.specs.Prelude.{◌≡◌, ◌<◌, ◌≤◌, ◌||◌, true, false, is_some, vec_len, IfOk, OnOk};

use crate::fields::add_field;
use http::method::MethodError;
use http_types::{HeaderMap, Method};
use std::alloc::Global;
use thiserror::Error;

pub const VERSION: &str = "app_get 0.1.0";

pub const HELP: &str = "app_get [OPTIONS] URL... [FILE]

Asks for each URL by HTTP/1.1, and writes the bodies of the answers to the standard output, one after another.

  URL                   http://HOST[:PORT][/PATH][?QUERY]; HOST is a name, an IPv4 address, or an IPv6 address in brackets
  FILE                  a word without ://; its bytes are sent with each request, by POST; without it the method is GET
  -d, --data TEXT       send TEXT, or with @NAME the bytes of that file, by POST as a form's (application/x-www-form-urlencoded)
  -f, --fail            don't write the body of an answer of a status of 400 or above
  -H, --header FIELD    send the field 'NAME: VALUE' too, in place of the program's own of that name; any number of them
  -I, --head            ask by HEAD, and write the head of each answer
  -L, --location        follow redirects, at most ten; another host isn't sent the user's Host, Authorization and Cookie
  -o, --output NAME     write to this file, which is made anew when its first byte comes
  -X, --request METHOD  ask by this method; such a request is asked only once
  --chunked             send what is sent in chunks, as if nobody knew its length
  --wait SECONDS        for how long nothing may move before the server is given up, 1 to 86400; 30 by default
  --help                print this and end
  --version             print the version and end

URLs of one host and port share a connection as long as the server keeps it.

It ends with status 0; 1 where the output can't be written; 2 for words out of form; 3 where FILE can't be read; 4 where
no connection can be made; 5 where memory runs out; 6 where the connection or the answer breaks off or is none of
HTTP/1; 7 where the server takes too long; 8 where an answer's status is 400 or above: its body is written all the
same; with --fail it isn't, and the status is 22; 64 for a method or a field that can't be sent. What is wrong is said
in one line on standard error, and the URLs after it aren't asked for; after a status of 400 or above they are.";

/// For how long nothing may move, in seconds.
const USUAL_WAIT: u64 = 30;

/// What the program is to do.
#[derive(Drop)]
pub enum Command<'a> {
    Help,
    Version,
    Fetch(Options<'a>),
}

/// What is asked for, and how.
#[derive(Drop)]
pub struct Options<'a> {
    pub urls: Vec<&'a str>,

    /// The file that is sent.
    pub file: Option<&'a str>,

    /// The text that is sent.
    pub text: Option<&'a str>,

    /// What is sent is a form's.
    pub is_form: bool,

    /// The method, where it is another one than usual.
    pub method: Option<Method>,

    /// The user's own fields of the request.
    pub fields: HeaderMap,

    /// The file that is written.
    pub output: Option<&'a str>,

    /// Only heads are asked for.
    pub is_head: bool,

    /// The body of an answer of a status of 400 or above isn't written.
    pub is_failing: bool,

    /// Redirects are followed.
    pub follows: bool,

    /// The body is sent in chunks.
    pub is_chunked: bool,

    /// For how many milliseconds nothing may move.
    pub wait: u64,
}

/// What is wrong with the words.
#[derive(Clone, Copy, Debug, PartialEq, Eq, Error)]
pub enum UsageError {
    #[error("a URL is wanted, as http://HOST/PATH")]
    NoUrl,

    #[error("only one file or text can be sent")]
    TwoFiles,

    #[error("--wait wants a number of seconds, 1 to 86400")]
    Wait,

    #[error("a value is wanted after the last option")]
    NoValue,

    #[error("a request by HEAD takes no body")]
    HeadWithFile,

    #[error("--head is a method of its own")]
    HeadWithMethod,

    #[error("--chunked wants something to send")]
    ChunkedAlone,

    #[error("there is no such option")]
    Option,

    #[error("this is no method")]
    Method,

    #[error("a field has the form 'NAME: VALUE'")]
    Field,

    #[error("the program itself writes Connection, Content-Length and Transfer-Encoding")]
    OwnField,

    #[error("a request has one Host")]
    TwoHosts,

    #[error("no memory is left")]
    NoMemory,
}

impl UsageError {
    /// The status that the program ends with: never 0.
    pub fn status(&self) -> u8
        ensures { 0 < result }
    {
        match self {
            UsageError::NoMemory => 5,
            UsageError::Method => 64,
            UsageError::Field | UsageError::OwnField | UsageError::TwoHosts => 64,
            _ => 2,
        }
    }
}

/// Reads the words, without the program's name.
pub fn read(alloc: Global, words: &[String]) -> Result<Command<'_>, UsageError> {
    let mut options = Options::new(alloc);
    let mut rest = words.iter();
    while let Some(word) = rest.next() {
        match word.as_str() {
            "--help" | "-h" => return Ok(Command::Help),
            "--version" => return Ok(Command::Version),
            flag if options.set_flag(flag) => {}
            option if takes_value(option) => {
                let value = rest.next().ok_or(UsageError::NoValue)?;
                options.set(alloc, option, value.as_str())?;
            }
            option if option.starts_with('-') => return Err(UsageError::Option),
            word => options.add(word)?,
        }
    }
    judge(&options)?;
    Ok(Command::Fetch(options))
}

impl<'a> Options<'a> {
    fn new(alloc: Global) -> Options<'a> {
        Options {
            urls: Vec::new(alloc),
            file: None,
            text: None,
            is_form: false,
            method: None,
            fields: HeaderMap::new(alloc),
            output: None,
            is_head: false,
            is_failing: false,
            follows: false,
            is_chunked: false,
            wait: USUAL_WAIT * 1000,
        }
    }

    /// Whether something is sent.
    pub fn has_body(&self) -> bool
        ensures { result ≡ (is_some self.now.file || is_some self.now.text) }
    {
        self.file.is_some() || self.text.is_some()
    }

    // Sets an option without a value, where this is one.
    fn set_flag(&mut self, word: &str) -> bool {
        match word {
            "--head" | "-I" => self.is_head = true,
            "--fail" | "-f" => self.is_failing = true,
            "--location" | "-L" => self.follows = true,
            "--chunked" => self.is_chunked = true,
            _ => return false,
        }
        true
    }

    // Sets one with a value.
    fn set(&mut self, alloc: Global, word: &str, value: &'a str) -> Result<(), UsageError> {
        match word {
            "--data" | "-d" => self.send(value)?,
            "--output" | "-o" => self.output = Some(value),
            "--request" | "-X" => self.method = Some(method_of(alloc, value)?),
            "--header" | "-H" => add_field(alloc, &mut self.fields, value)?,
            _ => self.wait = milliseconds(value)?,
        }
        Ok(())
    }

    // A URL, or a file to send.
    fn add(&mut self, word: &'a str) -> Result<(), UsageError> {
        if word.contains("://") {
            return match self.urls.push(word) {
                Ok(()) => Ok(()),
                Err(_) => Err(UsageError::NoMemory),
            };
        }
        if self.has_body() {
            return Err(UsageError::TwoFiles);
        }
        self.file = Some(word);
        Ok(())
    }

    // A form's text, or the name of the file that it is in.
    fn send(&mut self, value: &'a str) -> Result<(), UsageError> {
        if self.has_body() {
            return Err(UsageError::TwoFiles);
        }
        self.is_form = true;
        match value.strip_prefix('@') {
            Some(file) => self.file = Some(file),
            None => self.text = Some(value),
        }
        Ok(())
    }
}

fn takes_value(word: &str) -> bool {
    matches!(
        word,
        "--wait" | "--data" | "-d" | "--output" | "-o" | "--request" | "-X" | "--header" | "-H"
    )
}

fn judge(options: &Options<'_>) -> Result<(), UsageError>
    ensures urls { OnOk result (0 < vec_len options.now.urls) }
    ensures head { OnOk result (options.now.is_head ≡ true → ((is_some options.now.file || is_some options.now.text) ≡ false) × (is_some options.now.method ≡ false)) }
    ensures chunked { OnOk result (options.now.is_chunked ≡ true → (is_some options.now.file || is_some options.now.text) ≡ true) }
{
    if options.urls.is_empty() {
        return Err(UsageError::NoUrl);
    }
    if options.is_head && options.has_body() {
        return Err(UsageError::HeadWithFile);
    }
    if options.is_head && options.method.is_some() {
        return Err(UsageError::HeadWithMethod);
    }
    if options.is_chunked && !options.has_body() {
        return Err(UsageError::ChunkedAlone);
    }
    Ok(())
}

fn milliseconds(word: &str) -> Result<u64, UsageError>
    ensures { IfOk result (λ wait. (1000 ≤ wait) × (wait ≤ 86400000)) }
{
    match word.parse::<u64>() {
        Ok(seconds) if 1 <= seconds && seconds <= 86_400 => Ok(seconds * 1000),
        _ => Err(UsageError::Wait),
    }
}

fn method_of(alloc: Global, word: &str) -> Result<Method, UsageError>
    ensures { IfOk result (λ method. method ≡ word.now) }
{
    match Method::from_bytes(alloc, word.as_bytes()) {
        Ok(method) => Ok(method),
        Err(MethodError::Invalid) => Err(UsageError::Method),
        Err(_) => Err(UsageError::NoMemory),
    }
}
