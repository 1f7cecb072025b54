//! Tasks that make an event.
ghost use Rattle.std.specs.Prelude.{◌≡◌};
ghost use Rattle.vq_turns.specs.declared.task.Task.{Task};
ghost use Rattle.vq_actor.specs.Meanings.{IsNext};
ghost use Rattle.vq_actor.specs.Doings.{DidTo};

use crate::access::Access;
use crate::doing::Doing;
use vq_turns::outcome::Outcome;

/// Submits a batch.
pub(crate) fn submit<A: Access>(access: &mut A, job: u32) -> Doing
    requires { IsNext (A.meaning access.old) (Task.Submit job) }
    ensures { DidTo (A.meaning access.old) (A.meaning access.new) (Task.Submit job)
        (A.shows access.new) result }
{
    Doing::Ends(Outcome::Moved(access.submit(job)))
}

/// Collects on a chain; once nothing is left there, gives an operation of it a point.
pub(crate) fn take<A: Access>(access: &mut A, chain: u32, op: u32) -> Doing
    requires { IsNext (A.meaning access.old) (Task.Take op chain) }
    ensures { DidTo (A.meaning access.old) (A.meaning access.new) (Task.Take op chain)
        (A.shows access.new) result }
{
    match access.collect(chain) {
        Some(event) => Doing::Ends(Outcome::Moved(event)),
        None => match access.take(op) {
            Ok(event) => Doing::Ends(Outcome::Moved(event)),
            Err(want) => Doing::Ends(Outcome::Blocked(want)),
        },
    }
}

/// Releases a batch.
pub(crate) fn release<A: Access>(access: &mut A, job: u32) -> Doing
    requires { IsNext (A.meaning access.old) (Task.Release job) }
    ensures { DidTo (A.meaning access.old) (A.meaning access.new) (Task.Release job)
        (A.shows access.new) result }
{
    match access.release(job) {
        Ok(event) => Doing::Ends(Outcome::Moved(event)),
        Err(want) => Doing::Ends(Outcome::Blocked(want)),
    }
}

/// Binds an operation.
pub(crate) fn bind<A: Access>(access: &mut A, op: u32) -> Doing
    requires { IsNext (A.meaning access.old) (Task.Bind op) }
    ensures { DidTo (A.meaning access.old) (A.meaning access.new) (Task.Bind op)
        (A.shows access.new) result }
{
    match access.bind(op) {
        Ok(event) => Doing::Ends(Outcome::Moved(event)),
        Err(want) => Doing::Ends(Outcome::Blocked(want)),
    }
}

/// Starts a job.
pub(crate) fn start<A: Access>(access: &mut A, job: u32) -> Doing
    requires { IsNext (A.meaning access.old) (Task.Start job) }
    ensures { DidTo (A.meaning access.old) (A.meaning access.new) (Task.Start job)
        (A.shows access.new) result }
{
    Doing::Ends(Outcome::Moved(access.start(job)))
}

/// Applies a command of a job.
pub(crate) fn apply<A: Access>(access: &mut A, job: u32, command: u32) -> Doing
    requires { IsNext (A.meaning access.old) (Task.Apply job command) }
    ensures { DidTo (A.meaning access.old) (A.meaning access.new) (Task.Apply job command)
        (A.shows access.new) result }
{
    match access.apply(job, command) {
        Ok(event) => Doing::Ends(Outcome::Moved(event)),
        Err(want) => Doing::Ends(Outcome::Blocked(want)),
    }
}

/// Signals an operation.
pub(crate) fn signal<A: Access>(access: &mut A, op: u32) -> Doing
    requires { IsNext (A.meaning access.old) (Task.Signal op) }
    ensures { DidTo (A.meaning access.old) (A.meaning access.new) (Task.Signal op)
        (A.shows access.new) result }
{
    match access.signal(op) {
        Ok(event) => Doing::Ends(Outcome::Moved(event)),
        Err(want) => Doing::Ends(Outcome::Blocked(want)),
    }
}

/// Finishes a job.
pub(crate) fn finish<A: Access>(access: &mut A, job: u32) -> Doing
    requires { IsNext (A.meaning access.old) (Task.Finish job) }
    ensures { DidTo (A.meaning access.old) (A.meaning access.new) (Task.Finish job)
        (A.shows access.new) result }
{
    Doing::Ends(Outcome::Moved(access.finish(job)))
}
