//! Runs over ports that fail, and over ports that never do.
use crate::cases::{FILL, FILLED, each_fault_ends};
use std::alloc::{AllocError, Global};
use std::marker::Sync;
use std::sync::Wait;
use std::thread::Threads;
use vq_port::{SteadySink, SteadySource};
use vq_rings::OpenGate;
use vq_run::{Status, run};

/// A fault at one read and at one write, and the text and the end of the run.
const FAULTS: &[(u32, u32, &str, Status)] = &[
    (1, 0, "", Status::ReadFault),
    (2, 0, "", Status::ReadFault),
    (3, 0, FILLED, Status::Done),
    (0, 1, "", Status::WriteFault),
    (0, 2, "buffer X", Status::WriteFault),
    (0, 5, FILLED, Status::Done),
];

#[test]
fn faults_of_reading_and_writing_end_a_run(rt: HostRuntime) {
    each_fault_ends(&rt, rt.alloc(), 4096, FAULTS);
}

/// Whether a run into this sink is done and leaves this.
fn tells<R: Threads + Wait + Sync>(
    rt: &R,
    alloc: Global,
    source: &mut SteadySource,
    sink: &mut SteadySink,
    told: Option<&[u8]>,
) -> bool {
    let ended = run(rt, alloc, &[], source, sink, &OpenGate);
    ended == Status::Done && sink.written() == told
}

/// A steady source of a script.
fn steady_source(alloc: Global) -> Result<SteadySource, AllocError> {
    let bytes = Vec::from_slice(alloc, FILL.as_bytes())?;
    Ok(SteadySource::new(bytes))
}

/// Whether a run from this source, into a steady sink with this room, is done and leaves this.
fn is_told_from<R: Threads + Wait + Sync>(
    rt: &R,
    alloc: Global,
    source: &mut SteadySource,
    room: usize,
    told: Option<&[u8]>,
) -> bool {
    match SteadySink::with_room(alloc, room) {
        Ok(mut sink) => tells(rt, alloc, source, &mut sink, told),
        Err(_) => false,
    }
}

/// Whether a run over steady ports, with this room, is done and leaves this.
fn is_told<R: Threads + Wait + Sync>(
    rt: &R,
    alloc: Global,
    room: usize,
    told: Option<&[u8]>,
) -> bool {
    match steady_source(alloc) {
        Ok(mut source) => is_told_from(rt, alloc, &mut source, room, told),
        Err(_) => false,
    }
}

#[test]
fn steady_ports_never_fail_a_run(rt: HostRuntime) {
    let room = FILLED.len();
    let told = Some(FILLED.as_bytes());
    assert!(rt; is_told(&rt, rt.alloc(), 8_388_608, told));
    // A room that the text fills, and one that it overflows.
    assert!(rt; is_told(&rt, rt.alloc(), room, told));
    assert!(rt; is_told(&rt, rt.alloc(), room - 1, None));
}
