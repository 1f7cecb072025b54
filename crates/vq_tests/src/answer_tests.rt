//! The text of answers.
use std::alloc::Global;
use vq_spec::{Answer, AnswerLine, answer_text};

/// Four answers, one of each kind.
const LINES: [AnswerLine; 4] = [
    AnswerLine {
        line: 8,
        answer: Answer::Reached,
    },
    AnswerLine {
        line: 9,
        answer: Answer::Value(0),
    },
    AnswerLine {
        line: 4,
        answer: Answer::NotReady,
    },
    AnswerLine {
        line: 5,
        answer: Answer::Timeout,
    },
];

/// Whether this is the text of answers.
fn is_text(alloc: Global, lines: &[AnswerLine], want: &[u8]) -> bool {
    match answer_text(alloc, lines) {
        Ok(text) => text.as_slice() == want,
        Err(_) => false,
    }
}

#[test]
fn answers_stand_line_by_line(rt: HostRuntime) {
    let want = b"8 ok\n9 value 0\n4 not-ready\n5 timeout\n";
    assert!(rt; is_text(rt.alloc(), &LINES, want));
}
