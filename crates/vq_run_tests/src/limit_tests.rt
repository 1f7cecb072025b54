//! Inputs that end early, ports that fail at each of their calls, and inputs at the limits of the language.
ghost use Rattle.std.specs.Prelude.{◌≤◌, length};

use crate::cases::{Case, FILLED, Moves, each_ends, each_fault_ends, ends, fills_at};
use crate::pieces::{Piece, Row, each_script_ends};
use std::alloc::Global;
use std::marker::Sync;
use std::sync::Wait;
use std::thread::Threads;
use vq_run::Status;

/// One queue copies what another fills.
const COPY: &[u8] = b"buffer X 8
buffer Y 8
timeline A 0
queue P threaded
queue Q threaded
submit P
wait A 1
copy X 0 Y 0 8
end
submit Q
fill X 0 8 0x0a0b0c0d
signal A 1
end
";

/// How many bytes so many lines have.
fn bytes_of_lines(text: &[u8], lines: u32) -> usize
    ensures { result ≤ length text.now }
{
    let mut seen = 0u32;
    for (place, byte) in text.iter().enumerate() {
        if seen == lines {
            return place;
        }
        if *byte == b'\n' {
            seen = seen.saturating_add(1);
        }
    }
    text.len()
}

/// Whether a check of so many of its lines writes this text and ends so.
fn ends_after<R: Threads + Wait + Sync>(
    rt: &R,
    alloc: Global,
    lines: u32,
    text: &str,
    status: Status,
) -> bool {
    let input = &COPY[..bytes_of_lines(COPY, lines)];
    ends(
        rt,
        alloc,
        &Case::new(&["--check"], input, text.as_bytes(), status),
    )
}

const EARLY_ENDS: &[(u32, &str, Status)] = &[
    (0, "lawful\n", Status::Done),
    (1, "lawful\n", Status::Done),
    (2, "lawful\n", Status::Done),
    (3, "lawful\n", Status::Done),
    (4, "lawful\n", Status::Done),
    (5, "lawful\n", Status::Done),
    (6, "error: syntax: line 7\n", Status::Refused),
    (7, "error: syntax: line 8\n", Status::Refused),
    (8, "error: syntax: line 9\n", Status::Refused),
    (9, "error: unreachable: line 7\n", Status::Refused),
    (10, "error: syntax: line 11\n", Status::Refused),
    (11, "error: syntax: line 12\n", Status::Refused),
    (12, "error: syntax: line 13\n", Status::Refused),
    (13, "lawful\n", Status::Done),
];

#[test]
fn inputs_end_early(rt: HostRuntime) {
    for (lines, text, status) in EARLY_ENDS {
        assert!(rt;
            ends_after(&rt, rt.alloc(), *lines, text, *status),
            "after line {lines}"
        );
    }
}

#[test]
fn each_read_may_fail(rt: HostRuntime) {
    // The input has 64 bytes, of which a read gives one; the last read finds its end.
    for fails in 1..66u32 {
        let reads = Moves { piece: 1, fails };
        let status = Status::ReadFault;
        assert!(rt;
            fills_at(&rt, rt.alloc(), reads, 0, "", status),
            "read {fails}"
        );
    }
    each_fault_ends(&rt, rt.alloc(), 1, &[(66, 0, FILLED, Status::Done)]);
}

/// The text has 32 bytes, of which a write takes eight.
const WRITES: &[(u32, u32, &str, Status)] = &[
    (0, 1, "", Status::WriteFault),
    (0, 2, "buffer X", Status::WriteFault),
    (0, 3, "buffer X 8\n04030", Status::WriteFault),
    (0, 4, "buffer X 8\n0403020104030", Status::WriteFault),
    (0, 5, FILLED, Status::Done),
];

#[test]
fn each_write_may_fail(rt: HostRuntime) {
    each_fault_ends(&rt, rt.alloc(), 1, WRITES);
}

/// The declarations for the batches that are counted.
const DECLARED: Piece = Piece::Once("buffer X 4\nqueue Q threaded\n");

/// 4,096 batches of two fills each.
const BATCHES: Piece = Piece::Numbers(1, 4097, "submit Q\nfill X 0 4 0\nfill X 0 4 ", "\nend\n");

const COUNTED_BATCHES: &[Row] = &[
    (
        &[DECLARED, BATCHES],
        "buffer X 4\n00100000\nend\n",
        Status::Done,
    ),
    (
        &[DECLARED, BATCHES, Piece::Once("submit Q\n")],
        "error: limit: line 16387\n",
        Status::Refused,
    ),
];

#[test]
fn batches_are_counted(rt: HostRuntime) {
    each_script_ends(&rt, rt.alloc(), &[], COUNTED_BATCHES);
}

const COUNTED_LINES: &[Row] = &[
    (
        &[
            Piece::Once("buffer X 4\nqueue Q immediate\nsubmit Q\n"),
            Piece::Times(65, "fill X 0 4 1\n"),
        ],
        "error: limit: line 68\n",
        Status::Refused,
    ),
    (
        &[
            Piece::Once("timeline A 0\nqueue Q threaded\nsubmit Q\n"),
            Piece::Times(17, "wait A 0\n"),
        ],
        "error: limit: line 20\n",
        Status::Refused,
    ),
];

#[test]
fn lines_of_a_batch_are_counted(rt: HostRuntime) {
    each_script_ends(&rt, rt.alloc(), &[], COUNTED_LINES);
}

#[test]
fn numbers_are_at_their_limits(rt: HostRuntime) {
    each_ends(
        &rt,
        rt.alloc(),
        &[],
        Status::Refused,
        &[
            ("buffer X 1048577\n", "error: limit: line 1\n"),
            ("buffer X 4\nbuffer X 0\n", "error: twice: line 2\n"),
            (
                "buffer X 4\nhost idle\nbuffer X 0\n",
                "error: order: line 3\n",
            ),
            ("buffer X 18446744073709551616\n", "error: number: line 1\n"),
            (
                "buffer X 000000000000000000004\n",
                "error: number: line 1\n",
            ),
        ],
    );
}

#[test]
fn schedules_are_at_their_limits(rt: HostRuntime) {
    let words = &["--replay"];
    each_ends(
        &rt,
        rt.alloc(),
        words,
        Status::Done,
        &[(
            "queue Q threaded\nschedule\nR:Q 2\nS:Q\nhost\n",
            "1 R:Q .\n2 R:Q .\n3 S:Q .\n4 host .\nfinished\nend\n",
        )],
    );
    each_ends(
        &rt,
        rt.alloc(),
        words,
        Status::Refused,
        &[("schedule\nhost 65537\n", "error: limit: line 2\n")],
    );
}
