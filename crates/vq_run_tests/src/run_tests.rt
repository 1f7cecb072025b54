//! Scripts, with what a run of each writes and how it ends.
use crate::cases::{FILL, FILLED, each_ends, each_is_refused};
use crate::pieces::{Piece, Row, each_script_ends, pieces_give};
use vq_run::Status;

#[test]
fn schedules_are_replayed(rt: HostRuntime) {
    each_ends(
        &rt,
        rt.alloc(),
        &["--replay"],
        Status::Done,
        &[
            (
                "queue Q threaded\nsubmit Q\nend\nschedule\nR:Q\n",
                "1 R:Q -\nunfinished 1\n",
            ),
            (
                "buffer X 4\nqueue Q immediate\nsubmit Q\nfill X 0 4 7\nend\nschedule\nhost 2\nR:Q 4\n",
                "1 host submit 3\n2 host release 3\n3 R:Q start 3\n4 R:Q apply 4\n5 R:Q finish 3\n6 R:Q .\n\
                 finished\nbuffer X 4\n07000000\nend\n",
            ),
        ],
    );
}

#[test]
fn scripts_are_run(rt: HostRuntime) {
    each_ends(
        &rt,
        rt.alloc(),
        &[],
        Status::Done,
        &[
            ("", "end\n"),
            (FILL, FILLED),
            // the ends of lines, comments and blanks
            (
                "buffer X 4\r\n\r\n# caf\u{e9}\r\n\t \n  buffer\tY  0x04#Y\r",
                "buffer X 4\n00000000\nbuffer Y 4\n00000000\nend\n",
            ),
            // a later batch sees what an earlier one wrote
            (
                "buffer X 20
queue Q immediate
submit Q
fill X 0 20 4294967295
end
submit Q
fill X 4 8 0xA1b2
end
submit Q
end",
                "buffer X 20\nffffffffb2a10000b2a10000ffffffff\nffffffff\nend\n",
            ),
        ],
    );
}

#[test]
fn commands_leave_bytes(rt: HostRuntime) {
    each_ends(
        &rt,
        rt.alloc(),
        &[],
        Status::Done,
        &[
            (
                "buffer X 7\nqueue Q immediate\nsubmit Q\nfill X 0 whole 0xffffffff\nend",
                "buffer X 7\nffffffff000000\nend\n",
            ),
            (
                "buffer X 16\nqueue Q immediate\nsubmit Q\nfill X 0 8 0x04030201\ncopy X 0 X 8 8\nend",
                "buffer X 16\n01020304010203040102030401020304\nend\n",
            ),
            (
                "buffer Y 5
buffer X 4
queue Q immediate
submit Q
update X 0 0aFF00b1
end
submit Q
copy X 1 Y 2 3
end",
                "buffer Y 5\n0000ff00b1\nbuffer X 4\n0aff00b1\nend\n",
            ),
        ],
    );
}

#[test]
fn faulty_lines_are_refused(rt: HostRuntime) {
    each_ends(
        &rt,
        rt.alloc(),
        &[],
        Status::Refused,
        &[
            // a batch that is left open
            ("queue Q immediate\nsubmit Q\n", "error: syntax: line 3\n"),
            ("queue Q immediate\nsubmit Q\n\r", "error: syntax: line 4\n"),
            // a byte that may not stand in a line, a version that comes late, a wait of the second version in the first
            ("buffer X 4\nbuffer Y\u{e9} 4\n", "error: syntax: line 2\n"),
            ("buffer X 4\nversion 2\n", "error: syntax: line 2\n"),
            (
                "timeline A 0\nqueue P deferred\nsubmit P\nwait A 0 from 1\nend\n",
                "error: syntax: line 4\n",
            ),
            ("host idle A\n", "error: syntax: line 1\n"),
        ],
    );
}

#[test]
fn first_kinds_are_named(rt: HostRuntime) {
    each_ends(
        &rt,
        rt.alloc(),
        &[],
        Status::Refused,
        &[
            ("buffer X 0\nbuffer X 0\nqueue\n", "error: range: line 1\n"),
            ("buffer X 4\nbuffer X 0\n", "error: twice: line 2\n"),
            ("buffer X 4\nsubmit Q", "error: name: line 2\n"),
            ("buffer X 18446744073709551616\n", "error: number: line 1\n"),
            ("buffer X 1048577\n", "error: limit: line 1\n"),
            (
                "queue Q immediate\nsubmit Q\nend\nbuffer X 4",
                "error: order: line 4\n",
            ),
            (
                "buffer X 16\nqueue Q immediate\nsubmit Q\nfill X 0 8 0x04030201\ncopy X 0 X 7 8\nend",
                "error: overlap: line 5\n",
            ),
        ],
    );
}

/// Q writes X, and P copies it once that is done.
const COPY: &str = "buffer X 8
buffer Y 8
timeline A 0
queue P threaded
queue Q threaded
submit P
wait A 1
copy X 0 Y 0 8
end
submit Q
fill X 0 8 0x0a0b0c0d
signal A 1
end
";

/// Queues that wait for each other, and what they leave.
const WAITS: &[(&str, &str)] = &[
    (
        COPY,
        "buffer X 8\n0d0c0b0a0d0c0b0a\nbuffer Y 8\n0d0c0b0a0d0c0b0a\nend\n",
    ),
    // a binary semaphore that is passed on twice
    (
        "buffer X 4
binary S
queue P threaded
queue Q threaded
submit P
fill X 0 4 1
signal S
end
submit Q
wait S
fill X 0 4 2
signal S
end
submit P
wait S
fill X 0 4 3
end
",
        "buffer X 4\n03000000\nend\n",
    ),
    // a later, greater signal
    (
        "timeline A 0
buffer X 4
queue P threaded
queue Q threaded
submit P
wait A 3
fill X 0 4 5
end
submit Q
signal A 2
end
submit Q
signal A 7
end
",
        "buffer X 4\n05000000\nend\n",
    ),
];

#[test]
fn queues_wait_for_each_other(rt: HostRuntime) {
    each_ends(&rt, rt.alloc(), &[], Status::Done, WAITS);
}

#[test]
fn unreached_waits_are_refused(rt: HostRuntime) {
    each_ends(
        &rt,
        rt.alloc(),
        &[],
        Status::Refused,
        &[
            // two queues that wait for each other
            (
                "timeline A 0
timeline B 0
queue P threaded
queue Q threaded
submit P
wait A 1
signal B 1
end
submit Q
wait B 1
signal A 1
end
",
                "error: unreachable: line 6\n",
            ),
            // a batch that waits for itself
            (
                "timeline A 0\nqueue Q threaded\nsubmit Q\nwait A 5\nsignal A 4\nend\n",
                "error: unreachable: line 4\n",
            ),
        ],
    );
}

#[test]
fn scripts_without_a_plan_are_refused(rt: HostRuntime) {
    each_ends(
        &rt,
        rt.alloc(),
        &[],
        Status::Refused,
        &[
            (
                "binary S\nqueue P threaded\nsubmit P\nsignal S\nend\nsubmit P\nsignal S\nend\n",
                "error: signaled twice: line 7\n",
            ),
            // before a wait that is never reached
            (
                "binary S\ntimeline A 0\nqueue Q threaded\nsubmit Q\nwait A 1\nend\nsubmit Q\nwait S\nend\n",
                "error: no signal: line 8\n",
            ),
            (
                "fence F\nqueue Q threaded\nsubmit Q\nfence F\nend\nsubmit Q\nfence F\nend\n",
                "error: fence used: line 7\n",
            ),
        ],
    );
}

/// What stands before the bytes of an update.
const UPDATE: Piece = Piece::Once("buffer X 65540\nqueue Q immediate\nsubmit Q\nupdate X 0 ");

/// What stands behind them.
const UPDATE_END: Piece = Piece::Once("\nend\n");

/// An update of 65,536 bytes.
const LARGEST: &[Piece] = &[UPDATE, Piece::Times(65_536, "ab"), UPDATE_END];

/// What it leaves.
const UPDATED: &[Piece] = &[
    Piece::Once("buffer X 65540\n"),
    Piece::Times(4096, "abababababababababababababababab\n"),
    Piece::Once("00000000\nend\n"),
];

const TOO_LARGE: &[Row] = &[(
    &[UPDATE, Piece::Times(65_540, "ab"), UPDATE_END],
    "error: range: line 4\n",
    Status::Refused,
)];

#[test]
fn updates_have_a_greatest_size(rt: HostRuntime) {
    assert!(rt; pieces_give(&rt, rt.alloc(), LARGEST, UPDATED));
    each_script_ends(&rt, rt.alloc(), &[], TOO_LARGE);
}

const OTHER_WORDS: &[&[&str]] = &[
    &[""],
    &["--chec"],
    &["--check "],
    &["check"],
    &["--check", "--check"],
    &["", "--check"],
];

#[test]
fn words_are_refused(rt: HostRuntime) {
    each_is_refused(&rt, rt.alloc(), OTHER_WORDS, FILL);
}

/// The longest input, a comment.
const LONGEST: Piece = Piece::Times(
    65_536,
    "################################################################",
);

const LONG: &[Row] = &[
    (&[LONGEST], "end\n", Status::Done),
    (
        &[LONGEST, Piece::Once("#")],
        "error: too long\n",
        Status::Refused,
    ),
];

#[test]
fn long_inputs_are_refused(rt: HostRuntime) {
    each_script_ends(&rt, rt.alloc(), &[], LONG);
}

#[test]
fn scripts_are_only_checked(rt: HostRuntime) {
    each_ends(
        &rt,
        rt.alloc(),
        &["--check"],
        Status::Done,
        &[("", "lawful\n"), (FILL, "lawful\n"), (COPY, "lawful\n")],
    );
    each_ends(
        &rt,
        rt.alloc(),
        &["--check"],
        Status::Refused,
        &[
            (
                "timeline A 0\nqueue Q threaded\nsubmit Q\nwait A 1\nend\n",
                "error: unreachable: line 4\n",
            ),
            ("buffer X 4\nsubmit Q\n", "error: name: line 2\n"),
            ("queue Q immediate\nsubmit Q\n", "error: syntax: line 3\n"),
        ],
    );
}

/// Signals of one timeline on several queues whose order is sure.
const SURE_QUEUES: &[(&str, &str)] = &[
    // the same, once the second waits for the first
    (
        "timeline A 0
queue P threaded
queue Q threaded
submit P
signal A 1
end
submit Q
wait A 1
signal A 2
end
",
        "lawful\n",
    ),
];

/// Signals of one timeline on several queues whose order isn't.
const UNSURE_QUEUES: &[(&str, &str)] = &[
    // two queues that signal one timeline
    (
        "timeline A 0
queue P threaded
queue Q threaded
submit P
signal A 1
end
submit Q
signal A 2
end
",
        "error: unordered: lines 5 and 8\n",
    ),
    // the initial value
    (
        "timeline A 18446744073709551615\nqueue P threaded\nsubmit P\nsignal A 18446744073709551615\nend\n",
        "error: unordered: lines 4 and 4\n",
    ),
];

#[test]
fn signals_of_queues_are_in_a_sure_order(rt: HostRuntime) {
    each_ends(&rt, rt.alloc(), &["--check"], Status::Done, SURE_QUEUES);
    each_ends(
        &rt,
        rt.alloc(),
        &["--check"],
        Status::Refused,
        UNSURE_QUEUES,
    );
}

/// Signals of two timelines in one batch, of which another batch waits for one.
const SURE_BATCHES: &[(&str, &str)] = &[(
    "timeline A 0
timeline B 0
queue P threaded
queue Q threaded
submit P
signal A 1
signal B 1
end
submit Q
wait B 1
signal B 2
end
",
    "lawful\n",
)];

/// Waits that the next signal of their semaphore may overtake.
const UNSURE_BATCHES: &[(&str, &str)] = &[
    // a batch's signals aren't sure to one that waits for another of them, but for their job
    (
        "timeline A 0
timeline B 0
queue P threaded
queue Q threaded
submit P
signal A 1
signal B 1
end
submit Q
wait A 1
signal B 2
end
",
        "error: unordered: lines 7 and 11\n",
    ),
    // a binary wait that the next signal may overtake
    (
        "binary S
queue P threaded
queue Q threaded
submit P
signal S
end
submit Q
wait S
end
submit P
signal S
end
",
        "error: unordered: lines 8 and 11\n",
    ),
];

#[test]
fn signals_of_batches_are_in_a_sure_order(rt: HostRuntime) {
    each_ends(&rt, rt.alloc(), &["--check"], Status::Done, SURE_BATCHES);
    each_ends(
        &rt,
        rt.alloc(),
        &["--check"],
        Status::Refused,
        UNSURE_BATCHES,
    );
}

/// Commands of two queues that share no byte.
const UNSHARED: &[(&str, &str)] = &[(
    "buffer X 8
buffer Y 8
queue P threaded
queue Q threaded
submit P
copy X 0 Y 0 4
end
submit Q
copy Y 4 X 4 1
end
",
    "lawful\n",
)];

/// Commands of two queues that share a byte, which one of them writes, without an order.
const RACES: &[(&str, &str)] = &[
    // the copy doesn't wait: a wait for 0 waits for nothing
    (
        "buffer X 8
buffer Y 8
timeline A 0
queue P threaded
queue Q threaded
submit P
wait A 0
copy X 0 Y 0 8
end
submit Q
fill X 0 8 1
signal A 1
end
",
        "error: race: lines 8 and 11\n",
    ),
    // a wait for too small a value
    (
        "buffer X 8
timeline A 0
queue P threaded
queue Q threaded
submit P
signal A 1
end
submit P
fill X 0 4 1
signal A 2
end
submit Q
wait A 1
fill X 0 4 2
end
",
        "error: race: lines 9 and 14\n",
    ),
    // a copy's read and a write of one shared byte, and of none
    (
        "buffer X 8
buffer Y 8
queue P threaded
queue Q threaded
submit P
copy X 0 Y 0 4
end
submit Q
copy Y 4 X 3 1
end
",
        "error: race: lines 6 and 9\n",
    ),
];

#[test]
fn conflicting_commands_are_ordered(rt: HostRuntime) {
    each_ends(&rt, rt.alloc(), &["--check"], Status::Done, UNSHARED);
    each_ends(&rt, rt.alloc(), &["--check"], Status::Refused, RACES);
}

/// Commands that share a byte and are ordered, or only read it.
const ORDERED: &[(&str, &str)] = &[
    // two readers
    (
        "buffer X 8
buffer Y 8
queue P threaded
queue Q threaded
submit P
copy X 0 Y 0 4
end
submit Q
copy X 0 Y 4 4
end
",
        "lawful\n",
    ),
    // two queues that wait for one signal
    (
        "buffer X 8
buffer Y 8
timeline A 0
queue P threaded
queue Q threaded
queue R threaded
submit P
fill X 0 8 1
signal A 1
end
submit Q
wait A 1
copy X 0 Y 0 4
end
submit R
wait A 1
copy X 4 Y 4 4
end
",
        "lawful\n",
    ),
    // a wait for a value between two signals
    (
        "buffer X 8
timeline A 0
queue P threaded
queue Q threaded
submit P
signal A 1
end
submit P
fill X 0 4 1
signal A 3
end
submit Q
wait A 2
fill X 0 4 2
end
",
        "lawful\n",
    ),
];

#[test]
fn commands_that_are_ordered_or_apart_are_lawful(rt: HostRuntime) {
    each_ends(&rt, rt.alloc(), &["--check"], Status::Done, ORDERED);
}
