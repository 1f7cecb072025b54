//! Words of points.
use vq_point::{PointWord, unpack};

/// Words, with what each says.
const WORDS: [(u64, PointWord); 3] = [
    (
        0,
        PointWord {
            op: 0,
            refs: 0,
            signaled: false,
            held: false,
        },
    ),
    (
        844_429_225_099_264,
        PointWord {
            op: 0,
            refs: 1,
            signaled: true,
            held: true,
        },
    ),
    (
        562_949_953_421_314,
        PointWord {
            op: 2,
            refs: 0,
            signaled: false,
            held: true,
        },
    ),
];

/// Whether a word has these parts, and is packed of them.
fn is_of(word: u64, parts: PointWord) -> bool {
    match unpack(word) {
        Some(found) => found == parts && found.pack() == word,
        None => false,
    }
}

/// Whether words have these parts.
fn are_of(rows: &[(u64, PointWord)]) -> bool {
    for (word, parts) in rows {
        if !is_of(*word, *parts) {
            return false;
        }
    }
    true
}

#[test]
fn words_have_parts(rt: HostRuntime) {
    assert!(rt; are_of(&WORDS));
}

#[test]
fn other_words_have_none(rt: HostRuntime) {
    assert!(rt; unpack(5).is_none());
    assert!(rt; unpack(1 << 50).is_none());
    assert!(rt; unpack(1 << 49 | 1 << 63).is_none());
}
