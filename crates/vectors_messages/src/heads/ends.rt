//! Sources and sinks in memory.
use bytes::Bytes;
use http_types::{Failed, MemSink, MemSource, NoMemory, Sink, Source, SureSink, SureSource};
use std::alloc::Global;
use vectors::{Case, Report};

/// The most reads of a source.
const MAX_READS: usize = 64;

// The numbers that the case names from this argument on; none where one is no number.
fn numbers_of(alloc: Global, case: &Case<'_>, from: usize) -> Result<Option<Vec<usize>>, NoMemory> {
    let mut numbers = Vec::new(alloc);
    for index in from..case.arguments.len() {
        let Some(number) = case.number(index) else {
            return Ok(None);
        };
        numbers.push(number)?;
    }
    Ok(Some(numbers))
}

/// `source BYTES CALL ..`: what reads into four bytes give of a source in memory that fails at the listed calls, up to the
/// first that gives nothing.
pub fn source(alloc: Global, case: &Case<'_>, found: &mut Report) -> Result<bool, NoMemory> {
    let Some(fails) = numbers_of(alloc, case, 1)? else {
        return Ok(false);
    };
    let bytes = Bytes::copy_from_slice(alloc, case.argument(0))?;
    put_reads(&mut MemSource::new(bytes, fails), found);
    Ok(true)
}

/// `sure-source BYTES`: the same of a source that never fails.
pub fn sure_source(alloc: Global, case: &Case<'_>, found: &mut Report) -> Result<bool, NoMemory> {
    let bytes = Bytes::copy_from_slice(alloc, case.argument(0))?;
    put_reads(&mut SureSource::new(bytes), found);
    Ok(true)
}

fn put_reads<S: Source>(source: &mut S, found: &mut Report) {
    for index in 0..MAX_READS {
        if index > 0 {
            found.put_text(" ");
        }
        if put_read(source, found) {
            break;
        }
    }
}

// What one read gives, and whether it is nothing.
fn put_read<S: Source>(source: &mut S, found: &mut Report) -> bool {
    let mut buf = [b'.'; 4];
    match source.read(&mut buf) {
        Ok(count) => {
            found.put_quoted(&buf[..count]);
            count == 0
        }
        Err(Failed) => {
            found.put_text("failed");
            false
        }
    }
}

/// `sink CALL ..`: what writes of `ab`, nothing, `cd` and `ef` answer of a sink in memory that fails at the listed calls,
/// and what it was given.
pub fn sink(alloc: Global, case: &Case<'_>, found: &mut Report) -> Result<bool, NoMemory> {
    let Some(fails) = numbers_of(alloc, case, 0)? else {
        return Ok(false);
    };
    let mut sink = MemSink::new(alloc, fails);
    put_writes(&mut sink, found);
    found.put_quoted(sink.given());
    Ok(true)
}

/// `sure-sink`: the same of a sink that never fails.
pub fn sure_sink(alloc: Global, found: &mut Report) -> Result<bool, NoMemory> {
    let mut sink = SureSink::new(alloc);
    put_writes(&mut sink, found);
    found.put_quoted(sink.given());
    Ok(true)
}

fn put_writes<K: Sink>(sink: &mut K, found: &mut Report) {
    put_write(sink, b"ab", found);
    put_write(sink, b"", found);
    put_write(sink, b"cd", found);
    put_write(sink, b"ef", found)
}

// What a write answers, with a blank after it.
fn put_write<K: Sink>(sink: &mut K, piece: &[u8], found: &mut Report) {
    match sink.write(piece) {
        Ok(count) => found.put_decimal(count as u64),
        Err(Failed) => found.put_text("failed"),
    }
    found.put_text(" ");
}
