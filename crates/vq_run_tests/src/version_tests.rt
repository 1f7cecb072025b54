//! Scripts of the second version: waits that hold back a part of their batch, and larger limits.
use crate::pieces::{Piece, Row, each_script_ends};
use vq_run::Status;

/// A batch that fills a buffer of its own and copies once another batch is done, up to the place from which its wait
/// holds it back.
const HELD: Piece = Piece::Once(
    "buffer X 8\nbuffer Y 8\ntimeline A 0\nqueue P threaded\nqueue Q threaded\nsubmit P\nwait A 1 from ",
);

/// What follows that place.
const COPIED: Piece = Piece::Once(
    "\nfill Y 0 8 5\ncopy X 0 Y 0 4\nend\nsubmit Q\nfill X 0 8 9\nsignal A 1\nend\n",
);

const SECOND: Piece = Piece::Once("version 2\n");

const ORDERED: &[Row] = &[
    (
        &[SECOND, HELD, Piece::Once("2"), COPIED],
        "buffer X 8\n0900000009000000\nbuffer Y 8\n0900000005000000\nend\n",
        Status::Done,
    ),
    (
        &[SECOND, HELD, Piece::Once("3"), COPIED],
        "error: race: lines 10 and 13\n",
        Status::Refused,
    ),
    (
        &[SECOND, HELD, Piece::Once("4"), COPIED],
        "error: range: line 11\n",
        Status::Refused,
    ),
    (
        &[SECOND, HELD, Piece::Once("0"), COPIED],
        "error: range: line 8\n",
        Status::Refused,
    ),
    (
        &[HELD, Piece::Once("2"), COPIED],
        "error: syntax: line 7\n",
        Status::Refused,
    ),
    (
        &[
            Piece::Once("# first\n\nversion 2 # the second\n"),
            HELD,
            Piece::Once("3"),
            COPIED,
        ],
        "error: race: lines 12 and 15\n",
        Status::Refused,
    ),
];

#[test]
fn held_waits_order_what_they_hold_back(rt: HostRuntime) {
    each_script_ends(&rt, rt.alloc(), &[], ORDERED);
}

const REPLAYED: &[Row] = &[(
    &[
        SECOND,
        HELD,
        Piece::Once("2"),
        COPIED,
        Piece::Once("schedule\nhost 2\nS:Q 3\nS:P\nR:P 4\n"),
    ],
    "1 host submit 7\n2 host submit 12\n3 S:Q take A 1 fresh 0\n4 S:Q release 12\n5 S:Q bind A 1 0\n\
     6 S:P release 7\n7 R:P start 7\n8 R:P apply 9\n9 R:P refer 0 A 1\n10 R:P -\nunfinished 2\n",
    Status::Done,
)];

#[test]
fn held_waits_are_replayed(rt: HostRuntime) {
    each_script_ends(&rt, rt.alloc(), &["--replay"], REPLAYED);
}

/// 16 queues.
const QUEUES: Piece = Piece::Numbers(0, 16, "queue Q", " threaded\n");

const COUNTED_QUEUES: &[Row] = &[
    (&[SECOND, QUEUES], "end\n", Status::Done),
    (
        &[SECOND, QUEUES, Piece::Once("queue Q threaded\n")],
        "error: limit: line 18\n",
        Status::Refused,
    ),
    (&[QUEUES], "error: limit: line 9\n", Status::Refused),
];

#[test]
fn queues_are_counted_by_the_version(rt: HostRuntime) {
    each_script_ends(&rt, rt.alloc(), &[], COUNTED_QUEUES);
}
