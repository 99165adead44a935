//! Sources and sinks over readers and writers, through their traits.
ghost use Rattle.std.specs.Prelude.{◌≤◌, IfOk};

use http_types::{Failed, ReadSource, Sink, Source, StdSink, StdSource, WriteSink};
use std::io::{Error, ErrorKind, Read, Write};

// What comes in is the runner's, so nothing is taken of it.
#[test]
fn standard_input_is_a_source(rt: HostRuntime) {
    let mut source = StdSource::new(rt.stdin());
    assert_eq!(rt; source.read(&mut []), Ok(0));
}

#[test]
fn standard_output_is_a_sink(rt: HostRuntime) {
    let mut sink = StdSink::new(rt.stdout());
    assert_eq!(rt; sink.write(b""), Ok(0));
    assert_eq!(rt; sink.write(b"written by a test\n"), Ok(18));
}

// A reader and a writer that answer each of these in turn, and then that nothing moved.
#[derive(Drop)]
struct Script {
    answers: [Result<usize, ErrorKind>; 4],
    at: usize,
}

impl Script {
    fn next(&mut self, room: usize) -> std::io::Result<usize>
        ensures { IfOk result (λ count. count ≤ room) }
    {
        let at = self.at;
        self.at = at.saturating_add(1);
        match self.answers.get(at) {
            Some(Ok(count)) => Ok(room.min(*count)),
            Some(Err(kind)) => Err(Error::from(*kind)),
            None => Ok(0),
        }
    }
}

impl Read for Script {
    fn read(&mut self, buf: &mut [u8]) -> std::io::Result<usize> {
        self.next(buf.len())
    }
}

impl Write for Script {
    fn write(&mut self, buf: &[u8]) -> std::io::Result<usize> {
        self.next(buf.len())
    }

    fn flush(&mut self) -> std::io::Result<()> {
        Ok(())
    }
}

// Calls that signals cut short before one that moves a byte, and one that is refused.
fn cut_short_then_refused() -> Script {
    Script {
        answers: [
            Err(ErrorKind::Interrupted),
            Err(ErrorKind::Interrupted),
            Ok(1),
            Err(ErrorKind::BrokenPipe),
        ],
        at: 0,
    }
}

#[test]
fn a_read_that_a_signal_cut_short_is_tried_again(rt: HostRuntime) {
    let mut source = ReadSource::new(cut_short_then_refused());
    assert!(rt; source.read(&mut [0, 0]) == Ok(1));
    assert!(rt; source.read(&mut [0, 0]) == Err(Failed));
    assert!(rt; source.read(&mut [0, 0]) == Ok(0));
}

#[test]
fn a_write_that_a_signal_cut_short_is_tried_again(rt: HostRuntime) {
    let mut sink = WriteSink::new(cut_short_then_refused());
    assert!(rt; sink.write(b"ab") == Ok(1));
    assert!(rt; sink.write(b"b") == Err(Failed));
    assert!(rt; sink.write(b"") == Ok(0));
}

// The writer that takes nothing of a piece takes nothing the next time either.
#[test]
fn a_write_that_takes_nothing_has_failed(rt: HostRuntime) {
    let mut sink = WriteSink::new(Script {
        answers: [Ok(0), Ok(0), Ok(2), Ok(0)],
        at: 0,
    });
    assert!(rt; sink.write(b"ab") == Err(Failed));
    assert!(rt; sink.write(b"") == Ok(0));
    assert!(rt; sink.write(b"ab") == Ok(2));
}
