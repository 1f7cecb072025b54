//! Sources that are read whole, and sinks that are written whole.
ghost use Rattle.std.specs.Prelude.{◌≤◌, ◌<◌, ◌^◌};

use std::alloc::{AllocError, Global};
use std::test::Fail;
use vq_port::{
    MemorySink, MemorySource, ReadFault, Source, StdSink, StdSource, SteadySink, SteadySource,
    read_whole, write_whole,
};

// A fault at call number 0 never comes, since calls are numbered from 1.
const NEVER: u32 = 0;

/// The most bytes of a script.
const MOST: usize = 4_194_304;

/// The bytes for which a sink has room.
const ROOM: usize = 8_388_608;

/// A source of so many bytes, with a fault at one call.
fn source(alloc: Global, length: usize, piece: usize, fail: u32) -> Result<MemorySource, AllocError>
    requires { 1 ≤ piece }
{
    let fails = vec![in alloc; fail]?;
    let bytes = vec![in alloc; 7; length]?;
    Ok(MemorySource::new(bytes, piece, fails))
}

/// How many bytes are read of a source.
fn count_read(alloc: Global, source: &mut MemorySource, limit: usize) -> Result<usize, ReadFault>
    requires { limit < 2 ^ 31 }
{
    match read_whole(alloc, source, limit) {
        Ok(bytes) => Ok(bytes.len()),
        Err(fault) => Err(fault),
    }
}

/// How many bytes are read of a source of so many, with a fault at one call; none where no source is.
fn read(
    alloc: Global,
    length: usize,
    limit: usize,
    piece: usize,
    fail: u32,
) -> Option<Result<usize, ReadFault>> {
    if piece == 0 || limit > MOST {
        return None;
    }
    match source(alloc, length, piece, fail) {
        Ok(mut source) => Some(count_read(alloc, &mut source, limit)),
        Err(_) => None,
    }
}

/// Lengths, limits, pieces and calls that fail, and what is read.
const READS: [(usize, usize, usize, u32, Result<usize, ReadFault>); 4] = [
    (MOST, MOST, 65_536, NEVER, Ok(MOST)),
    (MOST + 1, MOST, 65_536, NEVER, Err(ReadFault::TooLong)),
    (10, 10, 3, 5, Err(ReadFault::Failed)),
    (10, 10, 3, 6, Ok(10)),
];

/// Whether so much is read.
fn are_read(alloc: Global, rows: &[(usize, usize, usize, u32, Result<usize, ReadFault>)]) -> bool {
    for (length, limit, piece, fail, want) in rows {
        if read(alloc, *length, *limit, *piece, *fail) != Some(*want) {
            return false;
        }
    }
    true
}

#[test]
fn a_source_is_read_whole(rt: HostRuntime) {
    assert!(rt; are_read(rt.alloc(), &READS));
}

/// Whether writing so many bytes succeeds or fails as is said, and so many are written.
fn writes(sink: &mut MemorySink, bytes: &[u8], is_whole: bool, count: usize) -> bool {
    write_whole(sink, bytes).is_ok() == is_whole && sink.written().len() == count
}

/// A sink that takes so many bytes at a time, with a fault at one call.
fn sink(alloc: Global, piece: usize, fail: u32) -> Result<MemorySink, AllocError>
    requires { 1 ≤ piece }
{
    let fails = vec![in alloc; fail]?;
    MemorySink::new(alloc, piece, fails)
}

/// Whether writing these bytes to a sink with a fault at one call does.
fn sink_writes(
    alloc: Global,
    bytes: &[u8],
    piece: usize,
    fail: u32,
    is_whole: bool,
    count: usize,
) -> bool {
    if piece == 0 {
        return false;
    }
    match sink(alloc, piece, fail) {
        Ok(mut sink) => writes(&mut sink, bytes, is_whole, count),
        Err(_) => false,
    }
}

/// Whether writing so many bytes to a sink with a fault at one call does.
fn written(
    alloc: Global,
    length: usize,
    piece: usize,
    fail: u32,
    is_whole: bool,
    count: usize,
) -> bool {
    match vec![in alloc; 7; length] {
        Ok(bytes) => sink_writes(alloc, &bytes, piece, fail, is_whole, count),
        Err(_) => false,
    }
}

/// Lengths, pieces and calls that fail, whether all is written, and how much is.
const WRITES: [(usize, usize, u32, bool, usize); 4] = [
    (20, 8, NEVER, true, 20),
    (20, 8, 2, false, 8),
    (ROOM, 65_536, NEVER, true, ROOM),
    (ROOM + 1, 65_536, NEVER, false, ROOM),
];

/// Whether so much is written.
fn are_written(alloc: Global, rows: &[(usize, usize, u32, bool, usize)]) -> bool {
    for (length, piece, fail, is_whole, count) in rows {
        if !written(alloc, *length, *piece, *fail, *is_whole, *count) {
            return false;
        }
    }
    true
}

#[test]
fn a_sink_is_written_whole(rt: HostRuntime) {
    assert!(rt; are_written(rt.alloc(), &WRITES));
}

/// Whether what is read of a steady source and written to a steady sink is the same.
fn is_passed_on(alloc: Global, sink: &mut SteadySink) -> Result<bool, ReadFault> {
    let mut source = SteadySource::new([1, 2, 3, 4].to_vec(alloc)?);
    let bytes = read_whole(alloc, &mut source, 4)?;
    Ok(write_whole(sink, &bytes).is_ok() && sink.written() == Some([1, 2, 3, 4].as_slice()))
}

/// The same to a sink of its own.
fn passes_on(alloc: Global) -> bool {
    match SteadySink::new(alloc) {
        Ok(mut sink) => is_passed_on(alloc, &mut sink) == Ok(true),
        Err(_) => false,
    }
}

#[test]
fn bytes_are_passed_on(rt: HostRuntime) {
    assert!(rt; passes_on(rt.alloc()));
}

#[test]
fn the_standard_streams_are_read_and_written(rt: HostRuntime) -> Result<(), Fail> {
    let mut source = StdSource::new(rt.stdin());
    assert!(rt; source.read(&mut [])? == 0);
    let mut sink = StdSink::new(rt.stdout());
    write_whole(&mut sink, b"written\n")?;
    Ok(())
}
