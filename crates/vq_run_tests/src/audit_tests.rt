//! Traces that follow a script, and are judged.
use crate::cases::each_ends;
use crate::pieces::{Piece, Row, each_script_ends};
use vq_run::Status;

/// A script whose batches use a point again, its trace up to turn 16, and the rest of the trace.
const REUSED_POINT: &str = "\
buffer X 4\ntimeline A 0\nqueue P threaded\nqueue Q threaded\n\
submit P\nfill X 0 4 1\nsignal A 1\nend\n\
submit Q\nwait A 1\nend\n\
submit P\nsignal A 2\nend\n\
submit P\nsignal A 3\nend\n\
trace\n\
1 host submit 5\n2 S:P take A 1 fresh 0\n3 S:P release 5\n4 S:P bind A 1 0\n5 host submit 9\n6 S:Q release 9\n\
7 R:Q refer 0 A 1\n8 R:P start 5\n9 R:P apply 6\n10 R:P signal A 1\n11 R:P finish 5\n12 host submit 12\n\
13 S:P complete A 1\n14 S:P take A 2 fresh 1\n15 S:P release 12\n16 S:P bind A 2 1\n";

const ITS_END: &str = "\
17 R:Q look 0 A 1\n18 R:Q unref 0 A 1\n19 host submit 15\n20 S:P free 0\n21 S:P take A 3 reused 0\nunfinished 3\n";

/// As this, but the point is freed while it is referenced.
const FREED_EARLY: &str = "\
17 S:P free 0\n18 R:Q unref 0 A 1\n19 host submit 15\n20 S:P free 0\n21 S:P take A 3 reused 0\nunfinished 3\n";

#[test]
fn traces_are_judged(rt: HostRuntime) {
    each_ends(
        &rt,
        rt.alloc(),
        &["--audit"],
        Status::Done,
        &[
            (
                "queue Q threaded\nsubmit Q\nend\ntrace\n1 host submit 2\n2 S:Q release 2\n3 R:Q start 2\n\
                 6 R:Q finish 2\nfinished\nend\n",
                "lawful\n",
            ),
            // a batch starts that wasn't released
            (
                "queue Q threaded\nsubmit Q\nend\ntrace\n1 host submit 2\n2 R:Q start 2\nunfinished 1\n",
                "broken: line 6\n",
            ),
            // a job is left
            (
                "queue Q threaded\nsubmit Q\nend\ntrace\n1 host submit 2\nfinished\nend\n",
                "broken: line 6\n",
            ),
            // the buffer has other bytes, a line is missing, and one is too many
            (
                "buffer X 4\ntrace\nfinished\nbuffer X 4\n01000000\nend\n",
                "broken: line 5\n",
            ),
            (
                "buffer X 4\ntrace\nfinished\nbuffer  X 4 # X\n\n00000000\n",
                "broken: line 7\n",
            ),
            ("trace # here\nfinished\nend\nend\n", "broken: line 4\n"),
        ],
    );
}

const FREED: &[Row] = &[
    (
        &[Piece::Once(REUSED_POINT), Piece::Once(ITS_END)],
        "lawful\n",
        Status::Done,
    ),
    (
        &[Piece::Once(REUSED_POINT), Piece::Once(FREED_EARLY)],
        "broken: line 35\n",
        Status::Done,
    ),
];

#[test]
fn points_are_freed_without_references(rt: HostRuntime) {
    each_script_ends(&rt, rt.alloc(), &["--audit"], FREED);
}

#[test]
fn faulty_traces_are_refused(rt: HostRuntime) {
    each_ends(
        &rt,
        rt.alloc(),
        &["--audit"],
        Status::Refused,
        &[
            ("queue Q threaded\nsubmit Q\nend\n", "error: no trace\n"),
            // the line after the last says no end
            (
                "queue Q threaded\nsubmit Q\nend\ntrace\n1 host submit 2\n2 R:Q start 2\n",
                "error: trace: line 7\n",
            ),
            // a fault of the script comes first
            (
                "queue Q threaded\nsubmit Q\ntrace\n1 host\n",
                "error: syntax: line 3\n",
            ),
            (
                "timeline A 0\nqueue Q threaded\nsubmit Q\nwait A 1\nend\ntrace\n1 host\n",
                "error: unreachable: line 4\n",
            ),
            // numbers rise
            (
                "queue Q threaded\nsubmit Q\nend\ntrace\n1 host submit 2\n1 S:Q release 2\nunfinished 1\n",
                "error: trace: line 6\n",
            ),
        ],
    );
}
