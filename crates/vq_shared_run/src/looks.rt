//! The look for the end of a shared run.
//!
//! Source: this project's own.
ghost use Rattle.std.specs.Prelude.{◌≡◌, IsTrue, IsFalse, length};
ghost use Rattle.vq_shared_run.specs.Stands.{HasLooked, IsAt, IsWatch, SawAll, SawUnfinished};

use crate::answers::Look;
use crate::run::Run;
use crate::stand::{Stand, Watch};
use vq_board_run::sees_finished;

/// Looks at the jobs that the host's pass hasn't seen finished, until one isn't. True where none is left.
pub(crate) fn watched(watch: Watch, run: &Run) -> (Watch, bool)
    requires { IsWatch run.now.board watch }
    ensures watch { IsWatch run.now.board result.0 }
    ensures finished { IsTrue result.1 → SawAll run.now.board watch result.0 }
    ensures unfinished { IsFalse result.1 → SawUnfinished watch result.0 }
{
    let Watch {
        mut pass,
        answers,
        seen: before,
    } = watch;
    let jobs = run.ordered.plan().jobs();
    for job in before..jobs {
        if !sees_finished(&run.board, &mut pass, job) {
            let seen = job;
            return (
                Watch {
                    pass,
                    answers,
                    seen,
                },
                false,
            );
        }
    }
    let seen = jobs;
    (
        Watch {
            pass,
            answers,
            seen,
        },
        true,
    )
}

/// Whether all jobs are finished, as far as an actor can say. The host looks where it has ended.
pub(crate) fn looked(stand: Stand, run: &Run) -> (Stand, Look)
    requires { IsAt run.now.board stand }
    ensures at { IsAt run.now.board result.0 }
    ensures look { HasLooked run.now.board stand result.0 result.1 }
{
    match stand {
        Stand::Worker(room) => (Stand::Worker(room), Look::NotHost),
        Stand::Host(lead) => (Stand::Host(lead), Look::Unfinished),
        Stand::Ended(watch) => {
            let (watch, is_end) = watched(watch, run);
            let look = if is_end {
                Look::Finished
            } else {
                Look::Unfinished
            };
            (Stand::Ended(watch), look)
        }
    }
}
