use std::alloc::Global;
use vq_layer::{Blocked, CloseFault, LiveLayer, ResetFault, SubmitFault, TakeBackFault, Wanted};
use vq_live::Found;

fn at(timeline: u32, value: u64) -> Wanted {
    Wanted { timeline, value }
}

// A batch that waits for what another queue signals later is held back until that batch is released.
fn is_held_back(alloc: Global) -> Option<bool> {
    let mut layer = LiveLayer::new(alloc);
    let t = layer.open_timeline(alloc, 0).ok()?;
    let q = layer.open_queue(alloc).ok()?;
    let r = layer.open_queue(alloc).ok()?;
    layer.submit(alloc, r, 20, &[at(t, 2)], &[]).ok()?;
    let waits = layer.blocked(r) == Some(Blocked::Waits { wanted: at(t, 2) })
        && layer.stuck(r) == Some(at(t, 2));
    layer
        .submit(alloc, q, 10, &[], &[at(t, 1), at(t, 3), at(t, 2)])
        .ok()?;
    let ready = layer.stuck(r) == None && layer.next() == Some(q);
    let released = layer.release(q) == Ok(())
        && layer.next() == Some(r)
        && layer.release(r) == Ok(());
    let found = layer.find(t, 1) == layer.find(t, 3) && layer.find(t, 4) == Found::NotYet;
    let done = layer.finish(q) == Some(10)
        && layer.finish(r) == Some(20)
        && layer.finish(q) == None;
    let reached = layer.complete(t).is_some()
        && layer.value(t) == Some(3)
        && layer.complete(t) == None;
    Some(waits && ready && released && found && done && reached)
}

// A wait takes the signal of a binary semaphore; a fence is reset when its signal is reached.
fn is_counted(alloc: Global) -> Option<bool> {
    let mut layer = LiveLayer::new(alloc);
    let b = layer.open_binary(alloc, false).ok()?;
    let q = layer.open_queue(alloc).ok()?;
    let r = layer.open_queue(alloc).ok()?;
    let none = layer.submit(alloc, q, 1, &[at(b, 0)], &[])
        == Err(SubmitFault::Unsignaled { timeline: b });
    layer.submit(alloc, q, 2, &[], &[at(b, 0)]).ok()?;
    let twice = layer.submit(alloc, r, 3, &[], &[at(b, 0)])
        == Err(SubmitFault::Signaled { timeline: b });
    layer.submit(alloc, r, 4, &[at(b, 0)], &[at(b, 0)]).ok()?;
    let used = layer.take_back(q) == Err(TakeBackFault::Used { timeline: b });
    let back = layer.take_back(r) == Ok(4) && layer.untaken(b) == Some(1);
    let in_use = layer.reset(b) == Err(ResetFault::InUse);
    let released = layer.release(q) == Ok(()) && layer.complete(b).is_some();
    let reset = layer.reset(b) == Ok(()) && layer.untaken(b) == None;
    let named = layer.close(alloc, b) == Err(CloseFault::Named { queue: q });
    let closed = layer.finish(q) == Some(2) && layer.close(alloc, b) == Ok(());
    let again = layer.open_timeline(alloc, 5).ok()? == b && layer.value(b) == Some(5);
    Some(none && twice && used && back && in_use && released && reset && named && closed && again)
}

#[test]
fn batches_are_held_back(rt: HostRuntime) {
    assert!(rt; is_held_back(rt.alloc()) == Some(true));
}

#[test]
fn binaries_are_counted(rt: HostRuntime) {
    assert!(rt; is_counted(rt.alloc()) == Some(true));
}
