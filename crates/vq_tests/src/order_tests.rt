//! The order of a plan of two queues and two timelines, and waits on immediate queues.
use crate::plan_tests::lowered;
use std::alloc::Global;
use vq_order::{OrderFault, Ordered, check};

/// P signals A in two batches; the first batch of Q waits for the first of them and signals B, the
/// second waits for the second. So there are four jobs, three signal operations and two chains.
const SCRIPT: &[u8] = b"timeline A 0
timeline B 0
queue P threaded
queue Q threaded
submit P
signal A 2
end
submit P
signal A 7
end
submit Q
wait A 1
signal B 4
end
submit Q
wait A 5
end
";

/// What a check says of a text that has a plan.
fn checked(alloc: Global, text: &[u8]) -> Option<Result<Ordered, OrderFault>> {
    match lowered(alloc, text) {
        Some(Ok(plan)) => Some(check(alloc, plan)),
        _ => None,
    }
}

/// Whether one job of a plan happens before another.
fn is_before(ordered: &Ordered, first: u32, second: u32) -> Option<bool> {
    let jobs = ordered.plan().jobs();
    if first >= jobs || second >= jobs {
        return None;
    }
    Some(ordered.before(first, second))
}

/// Which job happens before which, and which doesn't.
const JOBS: [(u32, u32, bool); 4] = [(0, 2, true), (2, 3, true), (1, 2, false), (3, 3, false)];

/// Whether jobs are in this order.
fn are_before(ordered: &Ordered, rows: &[(u32, u32, bool)]) -> bool {
    for (first, second, want) in rows {
        if is_before(ordered, *first, *second) != Some(*want) {
            return false;
        }
    }
    true
}

/// Whether a chain of a plan has at least and at most so much when a job starts and while it runs.
fn is_between(ordered: &Ordered, job: u32, chain: u32, floor: u64, ceiling: u64) -> bool {
    if job >= ordered.plan().jobs() || chain >= ordered.plan().chains() {
        return false;
    }
    ordered.floor(job, chain) == floor && ordered.ceiling(job, chain) == ceiling
}

/// What a job finds in a chain, at least and at most.
const CHAINS: [(u32, u32, u64, u64); 3] = [(2, 0, 2, 7), (3, 0, 7, 7), (1, 1, 0, 4)];

/// Whether chains are between these bounds.
fn are_between(ordered: &Ordered, rows: &[(u32, u32, u64, u64)]) -> bool {
    for (job, chain, floor, ceiling) in rows {
        if !is_between(ordered, *job, *chain, *floor, *ceiling) {
            return false;
        }
    }
    true
}

/// Whether the order of a plan is that of the script.
fn is_of_script(ordered: &Ordered) -> bool {
    are_before(ordered, &JOBS) && are_between(ordered, &CHAINS)
}

/// Whether the script is lawful, and its order is right.
fn is_ordered(alloc: Global) -> bool {
    match checked(alloc, SCRIPT) {
        Some(Ok(ordered)) => is_of_script(&ordered),
        _ => false,
    }
}

#[test]
fn jobs_and_chains_are_in_order(rt: HostRuntime) {
    assert!(rt; is_ordered(rt.alloc()));
}

/// Whether a text that has a plan has this fault, or is lawful where that is none.
fn has_fault(alloc: Global, text: &[u8], want: Option<OrderFault>) -> bool {
    match checked(alloc, text) {
        Some(Ok(_ordered)) => want.is_none(),
        Some(Err(fault)) => want == Some(fault),
        None => false,
    }
}

/// Whether texts have these faults, or none.
fn have_faults(alloc: Global, rows: &[(&[u8], Option<OrderFault>)]) -> bool {
    for (text, fault) in rows {
        if !has_fault(alloc, text, *fault) {
            return false;
        }
    }
    true
}

#[test]
fn immediate_batches_wait_for_pending_signals(rt: HostRuntime) {
    let rows = [
        // a thread may submit the signal late
        (
            b"timeline A 0
queue P immediate
queue Q threaded
submit Q
signal A 1
end
submit P
wait A 1
end
"
                .as_slice(),
            Some(OrderFault::NotPending { line: 8 }),
        ),
        // the host waits for it between them
        (
            b"timeline A 0
queue P immediate
queue Q threaded
submit Q
signal A 1
end
host wait all A 1
submit P
wait A 1
end
",
            None,
        ),
    ];
    assert!(rt; have_faults(rt.alloc(), &rows));
}
