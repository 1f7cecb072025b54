//! Calls of a timeline, each with the answer that is wanted.
use vq_live::{CancelFault, Found, Given, InstallFault, LiveTimeline, SignalFault, TakeFault};

/// A call, and its answer.
#[derive(Clone, Copy)]
pub(crate) enum Step {
    Take(u64, Result<Given, TakeFault>),
    Install(Given, Result<(), InstallFault>),
    Cancel(Given, Result<(), CancelFault>),
    Signal(u64, Result<(), SignalFault>),
    Complete(Option<Given>),
    LeastTaken(Option<Given>),
    First(Option<Given>),
    Find(u64, Found),
    Value(u64),
}

/// Whether a question is answered as wanted.
fn is_answered(timeline: &LiveTimeline, step: &Step) -> bool {
    match step {
        Step::LeastTaken(want) => timeline.least_taken() == *want,
        Step::First(want) => timeline.first() == *want,
        Step::Find(value, want) => timeline.find(*value) == *want,
        Step::Value(want) => timeline.value() == *want,
        _ => false,
    }
}

/// Whether a call is answered as wanted.
fn goes(timeline: &mut LiveTimeline, step: &Step) -> bool {
    match step {
        Step::Take(value, want) => timeline.take(*value) == *want,
        Step::Install(given, want) => timeline.install(*given) == *want,
        Step::Cancel(given, want) => timeline.cancel(*given) == *want,
        Step::Signal(value, want) => timeline.signal(*value) == *want,
        Step::Complete(want) => timeline.complete() == *want,
        _ => is_answered(timeline, step),
    }
}

/// Whether calls one after another are.
pub(crate) fn go(timeline: &mut LiveTimeline, steps: &[Step]) -> bool {
    for step in steps {
        if !goes(timeline, step) {
            return false;
        }
    }
    true
}
