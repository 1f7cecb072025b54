//! Tasks that wait until something is so.
ghost use Rattle.std.specs.Prelude.{◌≡◌};
ghost use Rattle.vq_turns.specs.declared.task.Task.{Task};
ghost use Rattle.vq_actor.specs.Meanings.{IsNext};
ghost use Rattle.vq_actor.specs.Doings.{DidTo};

use crate::access::Access;
use crate::doing::Doing;
use vq_turns::outcome::{Outcome, Want};

/// Goes on once a batch is submitted.
pub(crate) fn await_submitted<A: Access>(access: &mut A, job: u32) -> Doing
    requires { IsNext (A.meaning access.old) (Task.AwaitSubmitted job) }
    ensures { DidTo (A.meaning access.old) (A.meaning access.new) (Task.AwaitSubmitted job)
        (A.shows access.new) result }
{
    if access.submitted(job) {
        Doing::GoesOn
    } else {
        Doing::Ends(Outcome::Blocked(Want::Submitted { job }))
    }
}

/// Goes on once a batch is released.
pub(crate) fn await_released<A: Access>(access: &mut A, job: u32) -> Doing
    requires { IsNext (A.meaning access.old) (Task.AwaitReleased job) }
    ensures { DidTo (A.meaning access.old) (A.meaning access.new) (Task.AwaitReleased job)
        (A.shows access.new) result }
{
    if access.released(job) {
        Doing::GoesOn
    } else {
        Doing::Ends(Outcome::Blocked(Want::Released { job }))
    }
}

/// Goes on once a job is finished.
pub(crate) fn await_finished<A: Access>(access: &mut A, job: u32) -> Doing
    requires { IsNext (A.meaning access.old) (Task.AwaitFinished job) }
    ensures { DidTo (A.meaning access.old) (A.meaning access.new) (Task.AwaitFinished job)
        (A.shows access.new) result }
{
    if access.finished(job) {
        Doing::GoesOn
    } else {
        Doing::Ends(Outcome::Blocked(Want::Finished { job }))
    }
}

/// Goes on once an operation is bound.
pub(crate) fn await_bound<A: Access>(access: &mut A, op: u32) -> Doing
    requires { IsNext (A.meaning access.old) (Task.AwaitBound op) }
    ensures { DidTo (A.meaning access.old) (A.meaning access.new) (Task.AwaitBound op)
        (A.shows access.new) result }
{
    if access.bound(op) {
        Doing::GoesOn
    } else {
        Doing::Ends(Outcome::Blocked(Want::Bound { op }))
    }
}
