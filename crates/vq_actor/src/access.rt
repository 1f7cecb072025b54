//! The access that a turn goes over.
//!
//! Source: this project's own, where an item names no other.
ghost use Rattle.std.specs.Prelude.{◌≡◌, ℕ, Ok, [], ◌∷◌, IfErr};
ghost use Rattle.vq_model.specs.declared.plan.Event.{Event};
ghost use Rattle.vq_model.specs.Plan.{signals_of};
ghost use Rattle.vq_turns.specs.declared.task.Task.{Task};
ghost use Rattle.vq_turns.specs.declared.outcome.Outcome.{Outcome};
ghost use Rattle.vq_turns.specs.declared.outcome.Want.{Want};
ghost use Rattle.vq_turns.specs.Turns.{forward, taken};
ghost use Rattle.vq_actor.specs.Meanings.{Meaning, IsNext};
ghost use Rattle.vq_actor.specs.Answers.{AnswersLook, AnswersTry, AnswersEvent, Is, IsBindOf, MayAnswer};
ghost use Rattle.vq_actor.specs.Answers.{answered, bound_or, bound_first, signaled_or};
ghost use Rattle.vq_actor.specs.Collections.{MayCollect, AnswersCollect, MayTake, IsTakeOf, emptied};
ghost use Rattle.vq_actor.specs.Collections.{MayLookPast, AnswersPast};
ghost use Rattle.vq_actor.specs.Waits.{MayFind, AnswersFind, MayRefer, referred, MayLook, looked_at};
ghost use Rattle.vq_actor.specs.Waits.{MayUnrefer, given_back};
ghost use Rattle.vq_actor.specs.Wants.{IsExchangeAmong, IsExchangeOf, HoldsBackBind};

use crate::tracker::Tracker;
use vq_model::plan::{Answer, Event};
use vq_model::script::ActorName;
use vq_order::Ordered;
use vq_turns::look::Found;
use vq_turns::outcome::Want;

/// The event that was made, or the want for which none was.
pub type Step = Result<Event, Want>;

/// What the turns of one actor go over. It keeps the place of the actor, and each call leaves it where the
/// answer leads. Each look may find that a thing is so, and each other call is one try of one event. A call may be
/// asked where the actor's next task begins with it. An event that is given was made; with a want none was.
/// What is given is shown by the access since the call's start.
pub trait Access {
    /// Whom it serves and how far that actor is, the state where it is told, the events that it notes and those
    /// of them that were made, and how far its record goes.
    ghost meaning: { Self → Meaning };

    /// Whether its record shows what a turn came to, an event or a want, since an earlier moment of the record.
    ghost shows: { Self → Outcome → ℕ × ℕ → Type 0 };

    /// The plan that is run.
    fn ordered(&self) -> &Ordered
        ensures { result.now ≡ (meaning self.now).plan };

    /// How far the actor is that it serves.
    fn place(&self) -> &Tracker
        ensures { result.now.place ≡ (meaning self.now).place };

    /// Whether a batch is submitted.
    fn submitted(&mut self, job: u32) -> bool
        requires { IsNext (meaning self.old) (Task.AwaitSubmitted job) }
        ensures { AnswersLook (meaning self.old) (meaning self.new) (λ w. w.submitted job)
            (Want.Submitted job) (shows self.new) result };

    /// Whether a batch is released.
    fn released(&mut self, job: u32) -> bool
        requires { IsNext (meaning self.old) (Task.AwaitReleased job) }
        ensures { AnswersLook (meaning self.old) (meaning self.new) (λ w. w.released job)
            (Want.Released job) (shows self.new) result };

    /// Whether a job is finished.
    fn finished(&mut self, job: u32) -> bool
        requires { IsNext (meaning self.old) (Task.AwaitFinished job) }
        ensures { AnswersLook (meaning self.old) (meaning self.new) (λ w. w.machine.progress.finished job)
            (Want.Finished job) (shows self.new) result };

    /// Whether a signal operation is bound.
    fn bound(&mut self, op: u32) -> bool
        requires { IsNext (meaning self.old) (Task.AwaitBound op) }
        ensures { AnswersLook (meaning self.old) (meaning self.new) (λ w. w.bound op)
            (Want.Bound op) (shows self.new) result };

    /// What is found for a need of the next task, which is named by its index there, with its chain and
    /// value.
    fn find(&mut self, need: usize, chain: u32, value: u64) -> Found
        requires { MayFind (meaning self.old) need chain value }
        ensures { AnswersFind (meaning self.old) (meaning self.new) need chain value (shows self.new) result };

    /// The past value of a chain on which nothing was left to collect; it is compared with the one wanted.
    fn past(&mut self, chain: u32, wanted: u64) -> u64
        requires { MayLookPast (meaning self.old) chain wanted }
        ensures { AnswersPast (meaning self.old) (meaning self.new) chain wanted result };

    /// Submits a batch.
    fn submit(&mut self, job: u32) -> Event
        requires { IsNext (meaning self.old) (Task.Submit job) }
        ensures { AnswersEvent (meaning self.old) (meaning self.new) (forward (meaning self.old).place)
            (Event.Submit job) (shows self.new) result };

    /// Makes the least pending operation of a chain past, or frees a point of it; nothing where its looks
    /// found nothing to complete or to free.
    fn collect(&mut self, chain: u32) -> Option<Event>
        requires { MayCollect (meaning self.old) chain }
        ensures { AnswersCollect (meaning self.old) (meaning self.new) chain (shows self.new) result };

    /// Gives an operation a point: the one of its chain that was freed last, or a new one.
    fn take(&mut self, op: u32) -> Step
        requires { MayTake (meaning self.old) op }
        ensures answer { AnswersTry (meaning self.old) (meaning self.new) (forward (meaning self.old).place)
            (λ w. Ok (taken w op (emptied (meaning self.old).recent))) (IsTakeOf op) (shows self.new) result }
        ensures wants { IfErr result (λ want. want ≡ Want.Listed op) };

    /// Releases a batch.
    fn release(&mut self, job: u32) -> Step
        requires { IsNext (meaning self.old) (Task.Release job) }
        ensures answer { AnswersTry (meaning self.old) (meaning self.new) (forward (meaning self.old).place)
            (λ w. Ok (Event.Release job)) (Is (Event.Release job)) (shows self.new) result }
        ensures wants { IfErr result (IsExchangeAmong (signals_of (meaning self.old).plan job)) };

    /// Binds an operation.
    fn bind(&mut self, op: u32) -> Step
        requires { IsNext (meaning self.old) (Task.Bind op) }
        ensures answer { AnswersTry (meaning self.old) (meaning self.new) (forward (meaning self.old).place)
            (λ w. bound_or (meaning self.old).plan w op) (IsBindOf op) (shows self.new) result }
        ensures wants { IfErr result (HoldsBackBind (meaning self.old).plan op) };

    /// Takes a reference to a point that was found for a need.
    fn refer(&mut self, actor: ActorName, point: u32, op: u32) -> Step
        requires { MayRefer (meaning self.old) actor point op }
        ensures answer { AnswersTry (meaning self.old) (meaning self.new) (referred (meaning self.old) point op)
            (λ w. Ok (Event.Refer actor point op)) (Is (Event.Refer actor point op)) (shows self.new) result }
        ensures wants { IfErr result (IsExchangeOf op) };

    /// Looks whether the operation of a reference is signaled.
    fn look(&mut self, actor: ActorName, point: u32, op: u32) -> Step
        requires { MayLook (meaning self.old) actor point op }
        ensures answer { AnswersTry (meaning self.old) (meaning self.new) (looked_at (meaning self.old).place)
            (λ w. signaled_or w (Event.Look actor point op) op) (Is (Event.Look actor point op))
            (shows self.new) result }
        ensures wants { IfErr result (λ want. want ≡ Want.Signaled op) };

    /// Gives a reference back.
    fn unrefer(&mut self, actor: ActorName, point: u32, op: u32) -> Step
        requires { MayUnrefer (meaning self.old) actor point op }
        ensures answer { AnswersTry (meaning self.old) (meaning self.new)
            (given_back (meaning self.old).place (meaning self.old).place.holding)
            (λ w. Ok (Event.Unref actor point op)) (Is (Event.Unref actor point op)) (shows self.new) result }
        ensures wants { IfErr result (IsExchangeOf op) };

    /// Starts a job.
    fn start(&mut self, job: u32) -> Event
        requires { IsNext (meaning self.old) (Task.Start job) }
        ensures { AnswersEvent (meaning self.old) (meaning self.new) (forward (meaning self.old).place)
            (Event.Start job) (shows self.new) result };

    /// Applies a command of a job.
    fn apply(&mut self, job: u32, command: u32) -> Step
        requires { IsNext (meaning self.old) (Task.Apply job command) }
        ensures answer { AnswersTry (meaning self.old) (meaning self.new) (forward (meaning self.old).place)
            (λ w. Ok (Event.Apply job command)) (Is (Event.Apply job command)) (shows self.new) result }
        ensures wants { IfErr result (λ want. want ≡ Want.MemoryTurn) };

    /// Signals an operation.
    fn signal(&mut self, op: u32) -> Step
        requires { IsNext (meaning self.old) (Task.Signal op) }
        ensures answer { AnswersTry (meaning self.old) (meaning self.new) (forward (meaning self.old).place)
            (λ w. bound_first w (Event.Signal op) op) (Is (Event.Signal op)) (shows self.new) result }
        ensures wants { IfErr result (λ want. want ≡ Want.Bound op) };

    /// Finishes a job.
    fn finish(&mut self, job: u32) -> Event
        requires { IsNext (meaning self.old) (Task.Finish job) }
        ensures { AnswersEvent (meaning self.old) (meaning self.new) (forward (meaning self.old).place)
            (Event.Finish job) (shows self.new) result };

    /// Answers what a job asks.
    fn answer(&mut self, job: u32, answer: Answer) -> Event
        requires { MayAnswer (meaning self.old) job answer }
        ensures { AnswersEvent (meaning self.old) (meaning self.new) (answered (meaning self.old).place)
            (Event.Answer job answer) (shows self.new) result };
}
