//! Plans of small scripts: the slow run, the text of buffers, and the faults of uses.
use std::alloc::Global;
use vq_script::{Form, is_short, parse};
use vq_spec::{Plan, PlanFault, buffers_text, slow_order, slow_run};

/// Q waits for the first batch of P, whose second batch waits for Q.
const SCRIPT: &[u8] = b"buffer X 17
timeline A 3
timeline B 0
queue P threaded
queue Q threaded
submit Q
wait A 4
fill X 4 4 2
signal B 1
end
submit P
fill X 0 4 1
signal A 5
end
submit P
wait B 1
fill X 8 4 3
signal A 9
end
";

/// The text of the buffer after the script.
const BUFFERS: &[u8] = b"buffer X 17\n01000000020000000300000000000000\n00\nend\n";

/// The plan of a text that stands for a script, or why it has none.
pub(crate) fn lowered(alloc: Global, text: &[u8]) -> Option<Result<Plan, PlanFault>> {
    if !is_short(text) {
        return None;
    }
    match parse(alloc, text, Form::Plain) {
        Ok(script) => Some(Plan::lower(alloc, script)),
        Err(_) => None,
    }
}

/// Whether the slow order does all jobs in this order, and leaves these payloads.
fn runs(alloc: Global, plan: &Plan, order: &[u32], payloads: &[u64]) -> bool {
    match slow_order(alloc, plan) {
        Ok(run) => {
            run.order.as_slice() == order
                && run.stuck.len() == 0
                && run.payloads.as_slice() == payloads
        }
        Err(_) => false,
    }
}

/// The text of the buffers after the slow run of a plan.
fn text_of(alloc: Global, plan: &Plan) -> Option<Vec<u8>> {
    match slow_run(alloc, plan) {
        Ok(run) => buffers_text(alloc, plan, &run.buffers).ok(),
        Err(_) => None,
    }
}

/// Whether the slow run of a plan leaves buffers with this text.
fn leaves(alloc: Global, plan: &Plan, want: &[u8]) -> bool {
    match text_of(alloc, plan) {
        Some(text) => text.as_slice() == want,
        None => false,
    }
}

/// Whether a plan is that of the script: the lowest job that is ready is done first.
fn is_of_script(alloc: Global, plan: &Plan) -> bool {
    runs(alloc, plan, &[1, 0, 2], &[9, 1]) && leaves(alloc, plan, BUFFERS)
}

/// Whether the script has its plan.
fn is_planned(alloc: Global) -> bool {
    match lowered(alloc, SCRIPT) {
        Some(Ok(plan)) => is_of_script(alloc, &plan),
        _ => false,
    }
}

#[test]
fn jobs_are_done(rt: HostRuntime) {
    assert!(rt; is_planned(rt.alloc()));
}

/// Whether a script has no plan for this fault.
fn has_fault(alloc: Global, text: &[u8], want: PlanFault) -> bool {
    match lowered(alloc, text) {
        Some(Err(fault)) => fault == want,
        _ => false,
    }
}

/// Whether scripts have no plan for these faults.
fn have_faults(alloc: Global, rows: &[(&[u8], PlanFault)]) -> bool {
    for (text, fault) in rows {
        if !has_fault(alloc, text, *fault) {
            return false;
        }
    }
    true
}

#[test]
fn faulty_uses_are_found(rt: HostRuntime) {
    let rows = [
        (
            b"binary S\nqueue Q threaded\nsubmit Q\nwait S\nend\n".as_slice(),
            PlanFault::NoSignal { line: 4 },
        ),
        (
            b"binary S\nqueue Q threaded\nsubmit Q\nsignal S\nend\nsubmit Q\nsignal S\nend\n",
            PlanFault::SignaledTwice { line: 7 },
        ),
        (
            b"fence F\nqueue Q threaded\nsubmit Q\nfence F\nend\nsubmit Q\nfence F\nend\n",
            PlanFault::FenceUsed { line: 7 },
        ),
    ];
    assert!(rt; have_faults(rt.alloc(), &rows));
}
