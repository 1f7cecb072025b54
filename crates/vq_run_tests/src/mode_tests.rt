//! Generated scripts, and queues of each mode.
use crate::cases::{each_ends, each_is_refused};
use vq_run::Status;

// The buffers that the generated scripts leave, by the rule that each word is passed on from queue to queue: after r
// rounds the word at a place of the buffer that a queue wrote last is that of the last round up to r which wrote there.
const ONE_ROUND: &str = "\
buffer B00 64\n\
00000000000000000000000000000000\n\
00000000000000000000000000000000\n\
00000000000000000000000000000000\n\
00000000000000000000000000000000\n\
buffer B01 64\n\
00000000040000000000000000000000\n\
00000000000000000000000000000000\n\
00000000000000000000000000000000\n\
00000000000000000000000000000000\n\
buffer B10 64\n\
00000000000000000000000000000000\n\
00000000000000000000000000000000\n\
00000000000000000000000000000000\n\
00000000000000000000000000000000\n\
buffer B11 64\n\
00000000050000000000000000000000\n\
00000000000000000000000000000000\n\
00000000000000000000000000000000\n\
00000000000000000000000000000000\n\
buffer B20 64\n\
00000000000000000000000000000000\n\
00000000000000000000000000000000\n\
00000000000000000000000000000000\n\
00000000000000000000000000000000\n\
buffer B21 64\n\
00000000060000000000000000000000\n\
00000000000000000000000000000000\n\
00000000000000000000000000000000\n\
00000000000000000000000000000000\n\
buffer B30 64\n\
00000000000000000000000000000000\n\
00000000000000000000000000000000\n\
00000000000000000000000000000000\n\
00000000000000000000000000000000\n\
buffer B31 64\n\
00000000070000000000000000000000\n\
00000000000000000000000000000000\n\
00000000000000000000000000000000\n\
00000000000000000000000000000000\n\
end\n";

const MOST_ROUNDS: &str = "\
buffer B00 64\n\
c0070000c7070000ca070000cd070000\n\
d0070000970700009a0700009d070000\n\
a0070000a7070000aa070000ad070000\n\
b0070000b7070000ba070000bd070000\n\
buffer B01 64\n\
c3070000c6070000c9070000cc070000\n\
9307000096070000990700009c070000\n\
a3070000a6070000a9070000ac070000\n\
b3070000b6070000b9070000bc070000\n\
buffer B10 64\n\
c1070000c4070000cb070000ce070000\n\
d1070000940700009b0700009e070000\n\
a1070000a4070000ab070000ae070000\n\
b1070000b4070000bb070000be070000\n\
buffer B11 64\n\
c0070000c7070000ca070000cd070000\n\
90070000970700009a0700009d070000\n\
a0070000a7070000aa070000ad070000\n\
b0070000b7070000ba070000bd070000\n\
buffer B20 64\n\
c2070000c5070000c8070000cf070000\n\
d207000095070000980700009f070000\n\
a2070000a5070000a8070000af070000\n\
b2070000b5070000b8070000bf070000\n\
buffer B21 64\n\
c1070000c4070000cb070000ce070000\n\
91070000940700009b0700009e070000\n\
a1070000a4070000ab070000ae070000\n\
b1070000b4070000bb070000be070000\n\
buffer B30 64\n\
c3070000c6070000c9070000cc070000\n\
d307000096070000990700009c070000\n\
a3070000a6070000a9070000ac070000\n\
b3070000b6070000b9070000bc070000\n\
buffer B31 64\n\
c2070000c5070000c8070000cf070000\n\
9207000095070000980700009f070000\n\
a2070000a5070000a8070000af070000\n\
b2070000b5070000b8070000bf070000\n\
end\n";

#[test]
fn generated_scripts_are_run(rt: HostRuntime) {
    // The input isn't read, so it may be anything.
    let (one, most) = (&["--generate", "001"], &["--generate=500"]);
    each_ends(&rt, rt.alloc(), one, Status::Done, &[("x\n", ONE_ROUND)]);
    each_ends(&rt, rt.alloc(), most, Status::Done, &[("x\n", MOST_ROUNDS)]);
}

const OTHER_WORDS: &[&[&str]] = &[
    &["--generate", "0"],
    &["--generate=501"],
    &["--generate"],
    &["--check", "--replay"],
    &["--generate=5", "--check"],
    &["--upgrade", "--check"],
    &["--upgrade=2"],
];

#[test]
fn other_words_are_refused(rt: HostRuntime) {
    each_is_refused(&rt, rt.alloc(), OTHER_WORDS, "");
}

#[test]
fn rounds_are_played(rt: HostRuntime) {
    each_ends(
        &rt,
        rt.alloc(),
        &["--rounds"],
        Status::Done,
        &[
            ("", "finished\nend\n"),
            (
                "queue Q threaded\nsubmit Q\nend\n",
                "1 host submit 2\n2 S:Q release 2\n3 R:Q start 2\n6 R:Q finish 2\nfinished\nend\n",
            ),
            (
                "buffer X 8\nbuffer Y 8\ntimeline A 0\nqueue P threaded\nqueue Q threaded\nsubmit P\nwait A 1\n\
                 copy X 0 Y 0 8\nend\nsubmit Q\nfill X 0 8 0x0a0b0c0d\nsignal A 1\nend\n",
                "1 host submit 6\n6 host submit 10\n8 S:Q take A 1 fresh 0\n13 S:Q release 10\n15 R:Q start 10\n\
                 18 S:Q bind A 1 0\n20 R:Q apply 11\n22 S:P release 6\n24 R:P refer 0 A 1\n25 R:Q signal A 1\n\
                 29 R:P look 0 A 1\n30 R:Q finish 10\n34 R:P unref 0 A 1\n39 R:P start 6\n44 R:P apply 8\n\
                 49 R:P finish 6\nfinished\nbuffer X 8\n0d0c0b0a0d0c0b0a\nbuffer Y 8\n0d0c0b0a0d0c0b0a\nend\n",
            ),
        ],
    );
}

/// A script of the first version, and the same as it is written in the second.
const FIRST_VERSION: &str =
    "buffer X 4 # note\ntimeline A 0x10\nqueue Q threaded\nsubmit Q\nwait A 16\n\
    fill X 0 whole 1\nend\n";

const SECOND_VERSION: &str =
    "version 2\nbuffer X 4\ntimeline A 16\nqueue Q threaded\nsubmit Q\nwait A 16\n\
    fill X 0 whole 0x00000001\nend\n";

#[test]
fn scripts_are_upgraded(rt: HostRuntime) {
    each_ends(
        &rt,
        rt.alloc(),
        &["--upgrade"],
        Status::Done,
        &[
            ("", "version 2\n"),
            (FIRST_VERSION, SECOND_VERSION),
            // the text of an upgrade is its own upgrade
            (SECOND_VERSION, SECOND_VERSION),
        ],
    );
    each_ends(
        &rt,
        rt.alloc(),
        &["--upgrade"],
        Status::Refused,
        &[
            (
                "timeline A 0\nqueue P threaded\nqueue Q threaded\nsubmit P\nsignal A 1\nend\nsubmit Q\n\
                 signal A 2\nend\n",
                "error: unordered: lines 5 and 8\n",
            ),
            // a schedule is no part of what is upgraded
            (
                "queue Q threaded\nsubmit Q\nend\nschedule\nR:Q\n",
                "error: syntax: line 4\n",
            ),
        ],
    );
}

#[test]
fn immediate_batches_wait_for_what_is_pending(rt: HostRuntime) {
    each_ends(
        &rt,
        rt.alloc(),
        &[],
        Status::Refused,
        &[
            (
                "timeline A 0\nqueue P immediate\nqueue Q threaded\nsubmit P\nwait A 1\nend\n\
                 submit Q\nsignal A 1\nend\n",
                "error: not pending: line 5\n",
            ),
            (
                "timeline A 0\nqueue P immediate\nqueue Q threaded\nsubmit Q\nsignal A 1\nend\n\
                 submit P\nwait A 1\nend\n",
                "error: not pending: line 8\n",
            ),
        ],
    );
    each_ends(
        &rt,
        rt.alloc(),
        &[],
        Status::Done,
        &[
            (
                "timeline A 0\nqueue P immediate\nqueue Q threaded\nsubmit Q\nsignal A 1\nend\n\
                 host wait all A 1\nsubmit P\nwait A 1\nend\n",
                "7 ok\nend\n",
            ),
            (
                "timeline A 0\nqueue P immediate\nhost signal A 1\nsubmit P\nwait A 1\nend\nhost idle\n",
                "7 ok\nend\n",
            ),
        ],
    );
}

#[test]
fn deferred_queues_are_served_by_the_host(rt: HostRuntime) {
    each_ends(
        &rt,
        rt.alloc(),
        &[],
        Status::Done,
        &[(
            "timeline A 0\nqueue P deferred\nqueue Q threaded\nsubmit P\nwait A 1\nend\nsubmit Q\nsignal A 1\nend\n",
            "end\n",
        )],
    );
    each_ends(
        &rt,
        rt.alloc(),
        &["--replay"],
        Status::Done,
        &[(
            "timeline A 0\nqueue P deferred\nsubmit P\nsignal A 1\nend\nschedule\nhost 5\nR:P 4\n",
            "1 host submit 3\n2 host take A 1 fresh 0\n3 host release 3\n4 host bind A 1 0\n5 host .\n\
             6 R:P start 3\n7 R:P signal A 1\n8 R:P finish 3\n9 R:P .\nfinished\nend\n",
        )],
    );
}
