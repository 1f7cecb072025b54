//! Scripts in which further host threads stand in blocks.
use crate::cases::each_ends;
use vq_run::Status;

#[test]
fn threads_signal_and_wait(rt: HostRuntime) {
    each_ends(
        &rt,
        rt.alloc(),
        &["--hosts"],
        Status::Done,
        &[
            (
                "timeline A 0\ntimeline B 0\nbuffer X 4\nqueue Q threaded\nthread T\nwait B 1\nsignal A 1\nend\n\
                 host signal B 1\nsubmit Q\nwait A 1\nfill X 0 4 6\nend\nhost wait all A 1\n",
                "14 ok\nbuffer X 4\n06000000\nend\n",
            ),
            // an idle step waits for the threads too, so the read behind it sees what they signaled
            (
                "timeline A 0\nthread T\nsignal A 3\nend\nthread U\nwait A 3\nsignal A 5\nend\nhost idle\nhost read A\n",
                "9 ok\n10 value 5\nend\n",
            ),
            // threads without lines, and a version behind them
            ("thread T\nend\nversion 2\nthread U\nend\n", "end\n"),
        ],
    );
}

#[test]
fn faulty_threads_are_refused(rt: HostRuntime) {
    each_ends(
        &rt,
        rt.alloc(),
        &["--hosts"],
        Status::Refused,
        &[
            (
                "timeline A 0\ntimeline B 0\nbuffer X 4\nqueue Q threaded\nthread T\nwait B 1\nsignal A 1\nend\n\
                 # host signal B 1\nsubmit Q\nwait A 1\nfill X 0 4 6\nend\nhost wait all A 1\n",
                "error: unreachable: line 6\n",
            ),
            ("thread T\nend\ntimeline A 0\n", "error: order: line 3\n"),
            ("host idle\nthread T\nend\n", "error: order: line 2\n"),
            (
                "timeline A 0\nthread T\nwait A\nend\n",
                "error: syntax: line 3\n",
            ),
            ("thread T\n", "error: syntax: line 2\n"),
            ("thread T\nwait A 1\nend\n", "error: name: line 2\n"),
            ("thread T\nend\nthread T\nend\n", "error: twice: line 3\n"),
            // two threads signal in no order
            (
                "timeline A 0\nthread T\nsignal A 1\nend\n\nthread U\nsignal A 2\nend\n",
                "error: unordered: lines 3 and 7\n",
            ),
        ],
    );
}
