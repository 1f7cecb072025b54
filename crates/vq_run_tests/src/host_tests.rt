//! Scripts with steps of the host: their answers, their faults and their replays.

use crate::cases::each_ends;
use crate::pieces::{Piece, Row, each_script_ends};
use vq_run::Status;

/// Three queues and three frames in flight: the first three frames of four.
const FRAMES: &str = "buffer I0 16
buffer I1 16
buffer I2 16
buffer W 16
buffer O0 16
buffer O1 16
buffer O2 16
timeline TU 0
timeline TG 0
timeline TD 0
fence F0
fence F1
fence F2
queue U threaded
queue G threaded
queue D threaded
submit U
update I0 0 01010101010101010101010101010101
signal TU 1
end
submit G
wait TU 1
wait TD 0
copy I0 0 W 0 16
fill W 0 4 1
signal TG 1
end
submit D
wait TG 1
copy W 0 O0 0 16
signal TD 1
fence F0
end
submit U
update I1 0 02020202020202020202020202020202
signal TU 2
end
submit G
wait TU 2
wait TD 1
copy I1 0 W 0 16
fill W 0 4 2
signal TG 2
end
submit D
wait TG 2
copy W 0 O1 0 16
signal TD 2
fence F1
end
submit U
update I2 0 03030303030303030303030303030303
signal TU 3
end
submit G
wait TU 3
wait TD 2
copy I2 0 W 0 16
fill W 0 4 3
signal TG 3
end
submit D
wait TG 3
copy W 0 O2 0 16
signal TD 3
fence F2
end
";

/// The wait for the first frame's fence, and its reset.
const FIRST_FRAME_IS_OVER: &str = "host fence wait F0\nhost fence reset F0\n";

/// The fourth frame, which uses the first frame's buffers and its fence again.
const FOURTH_FRAME: &str = "submit U
update I0 0 04040404040404040404040404040404
signal TU 4
end
submit G
wait TU 4
wait TD 3
copy I0 0 W 0 16
fill W 0 4 4
signal TG 4
end
submit D
wait TG 4
copy W 0 O0 0 16
signal TD 4
fence F0
end
host idle
host read TD
";

/// What the four frames leave.
const FRAMES_DONE: &str = "68 ok
87 ok
88 value 4
buffer I0 16
04040404040404040404040404040404
buffer I1 16
02020202020202020202020202020202
buffer I2 16
03030303030303030303030303030303
buffer W 16
04000000040404040404040404040404
buffer O0 16
04000000040404040404040404040404
buffer O1 16
02000000020202020202020202020202
buffer O2 16
03000000030303030303030303030303
end
";

const FOUR_FRAMES: &[Row] = &[
    (
        &[
            Piece::Once(FRAMES),
            Piece::Once(FIRST_FRAME_IS_OVER),
            Piece::Once(FOURTH_FRAME),
        ],
        FRAMES_DONE,
        Status::Done,
    ),
    // without the wait and the reset of their first fence
    (
        &[Piece::Once(FRAMES), Piece::Once(FOURTH_FRAME)],
        "error: fence used: line 83\n",
        Status::Refused,
    ),
];

#[test]
fn frames_are_answered(rt: HostRuntime) {
    each_script_ends(&rt, rt.alloc(), &[], FOUR_FRAMES);
}

/// Steps of the host, and what they are answered.
const ANSWERED: &[(&str, &str)] = &[
    // a wait that several signals reach, and a read after all of them
    (
        "timeline A 0
queue Q threaded
submit Q
signal A 2
end
submit Q
signal A 7
end
host wait all A 3
host read A
",
        "9 ok\n10 value 7\nend\n",
    ),
    // a wait for the initial value
    (
        "timeline A 18446744073709551615\nhost wait all A 18446744073709551615\n",
        "2 ok\nend\n",
    ),
    // a read between two signals, of which the second comes later
    (
        "timeline A 0
queue Q threaded
submit Q
signal A 3
end
host wait all A 3
host read A
submit Q
signal A 9
end
",
        "6 ok\n7 value 3\nend\n",
    ),
    // a fence is polled, waited for and reset
    (
        "buffer X 4
fence F
queue Q threaded
host fence poll F
submit Q
fill X 0 4 9
fence F
end
host fence wait F
host fence poll F
host fence reset F
host fence poll F
",
        "4 not-ready\n9 ok\n10 ok\n12 not-ready\nbuffer X 4\n09000000\nend\n",
    ),
    // polls of both outcomes, and a wait for any whose first pair comes last
    (
        "timeline A 0
timeline B 0
host signal A 1
host wait any B 1 A 1
host poll all A 1 B 1
host poll any B 1 A 1
host idle
host signal B 1
",
        "4 ok\n5 timeout\n6 ok\n7 ok\nend\n",
    ),
    // a wait for any whose first pair has no signal at all
    (
        "timeline A 0
timeline B 0
queue P threaded
submit P
signal A 1
end
host wait any B 1 A 1
host poll any A 1 B 1
",
        "7 ok\n8 ok\nend\n",
    ),
    // a fence that is waited for, and then the timeline that its batch signals: always the new value
    (
        "timeline A 0
fence F
queue Q threaded
submit Q
signal A 5
fence F
end
host fence wait F
host read A
",
        "8 ok\n9 value 5\nend\n",
    ),
    // a host signal right after a fence wait lets a batch go on
    (
        "buffer X 4
timeline A 0
fence F
queue P threaded
queue Q threaded
submit P
wait A 1
fill X 0 4 7
end
submit Q
fence F
end
host fence wait F
host signal A 1
host idle
",
        "13 ok\n15 ok\nbuffer X 4\n07000000\nend\n",
    ),
    // a reset of a fence that no batch named
    (
        "fence F
queue Q threaded
host fence reset F
host fence poll F
submit Q
fence F
end
host fence wait F
",
        "4 not-ready\n8 ok\nend\n",
    ),
    // a host step between two batches of an immediate queue
    (
        "buffer X 4
timeline A 0
queue Q immediate
submit Q
fill X 0 4 1
signal A 1
end
host wait all A 1
submit Q
fill X 0 4 2
signal A 2
end
host wait all A 1 A 2
",
        "8 ok\n13 ok\nbuffer X 4\n02000000\nend\n",
    ),
];

#[test]
fn host_steps_are_answered(rt: HostRuntime) {
    each_ends(&rt, rt.alloc(), &[], Status::Done, ANSWERED);
}

/// Steps of the host that no run can take, and steps that come too early.
const REFUSED: &[(&str, &str)] = &[
    // a wait that no signal reaches
    (
        "timeline A 0\nqueue Q threaded\nsubmit Q\nsignal A 4\nend\nhost wait all A 5\n",
        "error: unreachable: line 6\n",
    ),
    // of a wait for any, where none of its pairs is reached
    (
        "timeline A 0\ntimeline B 0\nhost wait any A 1 B 1\n",
        "error: unreachable: line 3\n",
    ),
    // a signal that is no greater
    (
        "timeline A 18446744073709551615
host wait all A 18446744073709551615
host signal A 18446744073709551615
",
        "error: unordered: lines 3 and 3\n",
    ),
    // a reset of a fence that may be in use
    (
        "buffer X 4
fence F
queue Q threaded
host fence poll F
submit Q
fill X 0 4 9
fence F
end
host fence reset F
host fence poll F
",
        "error: fence busy: line 9\n",
    ),
    // of two such resets the first
    (
        "fence E
fence F
queue Q threaded
submit Q
fence E
end
submit Q
fence F
end
host fence reset F
host fence reset E
",
        "error: fence busy: line 10\n",
    ),
    // a fence that is named after a reset that came before its naming
    (
        "fence F
queue Q threaded
host fence reset F
submit Q
fence F
end
submit Q
fence F
end
",
        "error: fence used: line 8\n",
    ),
    // declarations stand before host steps
    (
        "buffer X 4\nhost idle\nbuffer X 0\n",
        "error: order: line 3\n",
    ),
    // pairs stand in twos
    (
        "timeline A 0\nhost wait all A 1 A\n",
        "error: syntax: line 2\n",
    ),
    // a fence is no timeline
    ("fence F\nhost wait any F 1\n", "error: name: line 2\n"),
];

#[test]
fn host_steps_are_refused(rt: HostRuntime) {
    each_ends(&rt, rt.alloc(), &[], Status::Refused, REFUSED);
}

/// Steps of the host in schedules, and their traces.
const REPLAYED: &[(&str, &str)] = &[
    // a host signal goes through a point, and a read collects it
    (
        "timeline A 0\nhost signal A 1\nhost read A\nschedule\nhost 11\n",
        "1 host start 2
2 host take A 1 fresh 0
3 host bind A 1 0
4 host signal A 1
5 host finish 2
6 host start 3
7 host complete A 1
8 host free 0
9 host answer 3 value 1
10 host finish 3
11 host .
finished
3 value 1
end
",
    ),
    // a wait for any holds two references, and gives them back one a turn
    (
        "timeline A 0
timeline B 0
queue P threaded
queue Q threaded
submit P
signal A 1
end
submit Q
signal B 1
end
host wait any A 1 B 1
schedule
host 2
S:P 3
S:Q 3
host 2
R:Q 2
host 7
R:Q
R:P 3
",
        "1 host submit 5
2 host submit 8
3 S:P take A 1 fresh 0
4 S:P release 5
5 S:P bind A 1 0
6 S:Q take B 1 fresh 1
7 S:Q release 8
8 S:Q bind B 1 1
9 host refer 0 A 1
10 host refer 1 B 1
11 R:Q start 8
12 R:Q signal B 1
13 host look 1 B 1
14 host unref 0 A 1
15 host unref 1 B 1
16 host start 11
17 host answer 11 ok
18 host finish 11
19 host .
20 R:Q finish 8
21 R:P start 5
22 R:P signal A 1
23 R:P finish 5
finished
11 ok
end
",
    ),
    // a poll before the signal and one after it
    (
        "timeline A 0
queue P threaded
submit P
signal A 1
end
host poll all A 1
host poll all A 1
schedule
host 4
S:P 3
R:P 3
host 5
",
        "1 host submit 3
2 host start 6
3 host answer 6 timeout
4 host finish 6
5 S:P take A 1 fresh 0
6 S:P release 3
7 S:P bind A 1 0
8 R:P start 3
9 R:P signal A 1
10 R:P finish 3
11 host start 7
12 host complete A 1
13 host free 0
14 host answer 7 ok
15 host finish 7
finished
6 timeout
7 ok
end
",
    ),
];

#[test]
fn host_steps_are_replayed(rt: HostRuntime) {
    each_ends(&rt, rt.alloc(), &["--replay"], Status::Done, REPLAYED);
}
