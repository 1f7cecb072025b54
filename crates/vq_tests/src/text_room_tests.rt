//! The text of a run, written into room that was taken before.
use crate::plan_tests::lowered;
use std::alloc::Global;
use vq_spec::{Answer, AnswerLine, Plan, TextRoom, asking, slow_run};

/// Two steps of the host ask something, and one doesn't.
const SCRIPT: &[u8] = b"buffer X 17
buffer Y 16
timeline A 3
queue Q immediate
host read A
host signal A 5
host poll all A 5
submit Q
fill X 0 16 0x01020304
end
";

/// The bytes of both buffers after the script.
const BUFFERS: &[u8] = b"buffer X 17
04030201040302010403020104030201
00
buffer Y 16
00000000000000000000000000000000
end
";

/// What a room for a plan is filled with, for these answers and the bytes of the slow run; none where
/// there are more answers than steps that ask something.
fn filled(alloc: Global, plan: &Plan, answers: &[AnswerLine]) -> Option<Vec<u8>> {
    if answers.len() > asking(plan) {
        return None;
    }
    let run = slow_run(alloc, plan).ok()?;
    let room = TextRoom::new(alloc, plan).ok()?;
    Some(room.fill(plan, answers, &run.buffers))
}

/// Whether a text is these answers, and then the bytes of the buffers.
fn is_text(text: &[u8], answers: &[u8]) -> bool {
    let (front, back) = text.split_at(answers.len().min(text.len()));
    front == answers && back == BUFFERS
}

/// Whether a room for a plan is filled with the text of these answers, and then that of the buffers.
fn fills(alloc: Global, plan: &Plan, answers: &[AnswerLine], want: &[u8]) -> bool {
    match filled(alloc, plan, answers) {
        Some(text) => is_text(text.as_slice(), want),
        None => false,
    }
}

const LONGEST: AnswerLine = AnswerLine {
    line: 4_294_967_295,
    answer: Answer::Value(18_446_744_073_709_551_615),
};

/// The text of two longest answers.
const LONGEST_TWICE: &[u8] =
    b"4294967295 value 18446744073709551615\n4294967295 value 18446744073709551615\n";

/// Whether rooms for a plan hold no answer, and two longest ones.
fn holds_answers(alloc: Global, plan: &Plan) -> bool {
    fills(alloc, plan, &[], b"") && fills(alloc, plan, &[LONGEST, LONGEST], LONGEST_TWICE)
}

/// Whether rooms for the plan of the script do.
fn is_held(alloc: Global) -> bool {
    match lowered(alloc, SCRIPT) {
        Some(Ok(plan)) => holds_answers(alloc, &plan),
        _ => false,
    }
}

#[test]
fn rooms_hold_answers_and_buffers(rt: HostRuntime) {
    assert!(rt; is_held(rt.alloc()));
}
