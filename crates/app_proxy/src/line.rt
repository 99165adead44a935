//! A line of the log.
ghost use Rattle.std.specs.Prelude.{◌≡◌, IfOk};
ghost use Rattle.std.specs.String.{string_bytes};
ghost use Rattle.std.specs.Option.{option_copied};
ghost use Rattle.app_proxy.specs.Line.{asked_text, asked_of, reply_line};

use http_files::line_text;
use proxy_loop::{NoMemory, RequestHead};
use std::alloc::Global;
use std::net::SocketAddr;

/// The line for a reply: who asked and when, what was asked, and the status.
pub fn line(
    alloc: Global,
    peer: SocketAddr,
    date: &str,
    asked: &str,
    status: u16,
) -> Result<String, NoMemory>
    ensures { IfOk result (λ text. string_bytes text ≡ reply_line peer date.now asked.now status) }
{
    format!(in alloc; "{peer} [{date}] {asked} {status}\n")
}

/// The method and the target of a request, or `-` where no head could be read. Neither holds a blank, and nothing of them can
/// end the line.
pub fn asked(alloc: Global, request: Option<&RequestHead>) -> Result<String, NoMemory>
    ensures { IfOk result (λ text. string_bytes text ≡ asked_text (option_copied request.entry)) }
{
    match request {
        Some(head) => asked_of(alloc, head),
        None => String::from_str(alloc, "-"),
    }
}

fn asked_of(alloc: Global, head: &RequestHead) -> Result<String, NoMemory>
    ensures { IfOk result (λ text. string_bytes text ≡ asked_of head.now) }
{
    let mut text = line_text(alloc, head.method.as_str().as_bytes())?;
    text.push_str(" ")?;
    let target = head.uri.to_string(alloc)?;
    let shown = line_text(alloc, target.as_bytes())?;
    text.push_str(&shown)?;
    Ok(text)
}
