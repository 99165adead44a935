//! The program over sources and sinks in memory.
use bytes::Bytes;
use h1_replay::run;
use http_types::{MemSink, MemSource, Sink, Source, SureSink, SureSource};
use std::alloc::{AllocError, Global};
use std::test::Fail;

const CONFIG: &str = "config 5000 5000 0 1 32768\n";

fn bytes(alloc: Global, text: &str) -> Result<Bytes, AllocError> {
    Bytes::copy_from_slice(alloc, text.as_bytes())
}

// The words of a command line, between blanks.
fn strings(alloc: Global, line: &str) -> Result<Vec<String>, AllocError> {
    let mut words = Vec::new(alloc);
    for word in line.split_whitespace() {
        words.push(String::from_str(alloc, word)?)?;
    }
    Ok(words)
}

// The status that the program ends with, given the words of a command line.
fn ends<S: Source, K: Sink>(
    alloc: Global,
    line: &str,
    input: &mut S,
    output: &mut K,
) -> Result<u8, AllocError> {
    let words = strings(alloc, line)?;
    Ok(run(alloc, &words, input, output))
}

// Runs `replay` on a script: whether its status and its text are these.
fn replays(alloc: Global, script: &str, status: u8, text: &str) -> Result<bool, AllocError> {
    let mut input = SureSource::new(bytes(alloc, script)?);
    let mut output = SureSink::new(alloc);
    let ended = ends(alloc, "replay", &mut input, &mut output)?;
    Ok(ended == status && output.given() == text.as_bytes())
}

// The same, of event lines behind the usual config.
fn runs(alloc: Global, events: &str, status: u8, text: &str) -> Result<bool, AllocError> {
    let script = format!(in alloc; "{CONFIG}{events}")?;
    replays(alloc, script.as_str(), status, text)
}

// Events behind the usual config, and the status and the text that they end with.
static REPORTS: [(&str, u8, &str); 7] = [
    ("", 0, "buffered -\nstate open\n"),
    (
        "tick 0\nread 474554202f20485454502f312e310d0a686f73743a20610d0a0d0a\nnext\nanswer 200 0 -\nwrite 200\n",
        0,
        "done\ntook 27\nhead GET / 1.1 none keep-alive - host=61\ndone\ngave 485454502f312e3120323030204f4b0d0a636f6e74656e742d6c656e6774683a20300d0a646174653a205468752c203031204a616e20313937302030303a30303a303020474d540d0a0d0a\nbuffered -\nstate open\n",
    ),
    (
        "read 474554202f20485454502f312e310d0a486f73743a206c6f63616c686f73743a383038300d0a557365722d4167656e743a206375726c2f382e352e300d0a4163636570743a202a2f2a0d0a0d0a\nnext",
        0,
        "took 77\nhead GET / 1.1 none keep-alive - host=6c6f63616c686f73743a38303830 user-agent=6375726c2f382e352e30 accept=2a2f2a\nbuffered -\nstate open\n",
    ),
    (
        "read 47\neof\nnext\n",
        0,
        "took 1\ndone\nclosed input-ended\nbuffered -\nstate input-ended\n",
    ),
    (
        "read 47\neof\nnext\nread 47\n",
        3,
        "took 1\ndone\nclosed input-ended\nbuffered -\nstate input-ended\nmisplaced 3\n",
    ),
    // Two requests in one read: the second is handed out once the first is answered.
    (
        "tick 0\nread 474554202f6120485454502f312e310d0a686f73743a20610d0a0d0a474554202f6220485454502f312e310d0a686f73743a20610d0a0d0a\nnext\nanswer 200 0 -\nnext\nanswer 404 0 -\nwrite 200\nnext\n",
        0,
        "done\ntook 56\nhead GET /a 1.1 none keep-alive - host=61\ndone\nhead GET /b 1.1 none keep-alive - host=61\ndone\ngave 485454502f312e3120323030204f4b0d0a636f6e74656e742d6c656e6774683a20300d0a646174653a205468752c203031204a616e20313937302030303a30303a303020474d540d0a0d0a485454502f312e3120343034204e6f7420466f756e640d0a636f6e74656e742d6c656e6774683a20300d0a646174653a205468752c203031204a616e20313937302030303a30303a303020474d540d0a0d0a\npending\nbuffered -\nstate open\n",
    ),
    (
        "write 5\nread -\n",
        0,
        "gave -\ntook 0\nbuffered -\nstate open\n",
    ),
];

#[test]
fn reports_what_comes_of_events(rt: HostRuntime) -> Result<(), Fail> {
    for (events, status, text) in REPORTS.iter() {
        assert!(rt; runs(rt.alloc(), events, *status, text)?, "at {events:?}");
    }
    Ok(())
}

// Whether a source that fails at this read is told.
fn is_read_fault(alloc: Global, failing: usize) -> Result<bool, AllocError> {
    let mut input = MemSource::new(bytes(alloc, CONFIG)?, vec![in alloc; failing]?);
    let mut output = SureSink::new(alloc);
    let ended = ends(alloc, "replay", &mut input, &mut output)?;
    Ok(ended == 4 && output.given() == b"read fault\n".as_slice())
}

#[test]
fn tells_a_failed_read(rt: HostRuntime) -> Result<(), Fail> {
    for failing in 0..2usize {
        assert!(rt; is_read_fault(rt.alloc(), failing)?, "at read {failing}");
    }
    Ok(())
}

// Whether a sink that fails at its first write is told, and is given nothing.
fn is_write_fault(alloc: Global) -> Result<bool, AllocError> {
    let mut input = SureSource::new(bytes(alloc, CONFIG)?);
    let mut output = MemSink::new(alloc, vec![in alloc; 0]?);
    let ended = ends(alloc, "replay", &mut input, &mut output)?;
    Ok(ended == 5 && output.given().is_empty())
}

#[test]
fn tells_a_failed_write(rt: HostRuntime) -> Result<(), Fail> {
    assert!(rt; is_write_fault(rt.alloc())?);
    Ok(())
}
