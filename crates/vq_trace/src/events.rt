//! The event that the words of an outcome say.
ghost use Rattle.std.specs.Prelude.{◌≡◌, ◌∷◌, []};
ghost use Rattle.vq_model.specs.declared.script.ActorName.{ActorName as AnActor};
ghost use Rattle.vq_model.specs.Plan.{Plan as AnyPlan};
ghost use Rattle.vq_lexer.specs.Words.{texts};
ghost use Rattle.vq_given.specs.Words.{answer_said, event_by, event_said, taken_said};
ghost use Rattle.vq_given.specs.declared.verb.Verb.TheVariants.{Answer as AnswerVerb, Apply as ApplyVerb, Bind as BindVerb, Complete as CompleteVerb};
ghost use Rattle.vq_given.specs.declared.verb.Verb.TheVariants.{Finish as FinishVerb, Free as FreeVerb, Look as LookVerb, Refer as ReferVerb};
ghost use Rattle.vq_given.specs.declared.verb.Verb.TheVariants.{Release as ReleaseVerb, Signal as SignalVerb, Start as StartVerb, Submit as SubmitVerb};
ghost use Rattle.vq_given.specs.declared.verb.Verb.TheVariants.{Take as TakeVerb, Unref as UnrefVerb};
ghost use Rattle.vq_trace.specs.PlanIndex.{IsIndexOf};
ghost use Rattle.vq_trace.specs.Shapes.{bound, one_job, one_op, one_point, referred};

use crate::actors::may_make;
use crate::index::Index;
use crate::verbs::verb_of;
use vq_given::verb::Verb;
use vq_lexer::{numeral, small_numeral};
use vq_model::plan::{Answer, Event};
use vq_model::script::ActorName;
use vq_spec::Plan;

/// Where a taken point comes from: whether it is new.
fn taken_said(word: &[u8]) -> Option<bool>
    ensures { result ≡ taken_said word.now }
{
    if word == b"fresh".as_slice() {
        return Some(true);
    }
    if word == b"reused".as_slice() {
        return Some(false);
    }
    None
}

/// An answer of one word.
fn plain_answer(word: &[u8]) -> Option<Answer>
    ensures { result ≡ answer_said (word.now ∷ []) }
{
    if word == b"ok".as_slice() {
        return Some(Answer::Reached);
    }
    if word == b"timeout".as_slice() {
        return Some(Answer::Timeout);
    }
    if word == b"not-ready".as_slice() {
        return Some(Answer::NotReady);
    }
    None
}

/// An answer of two words.
fn value_answer(word: &[u8], number: &[u8]) -> Option<Answer>
    ensures { result ≡ answer_said (word.now ∷ number.now ∷ []) }
{
    if word == b"value".as_slice() {
        Some(Answer::Value(numeral(number)?))
    } else {
        None
    }
}

/// What a host step is answered.
fn answer_said(words: &[&[u8]]) -> Option<Answer>
    ensures { result ≡ answer_said (texts words.now) }
{
    match words {
        [word] => plain_answer(word),
        [word, number] => value_answer(word, number),
        _ => None,
    }
}

/// A job by its line.
fn one_job(plan: &Plan, index: &Index, words: &[&[u8]]) -> Option<u32>
    requires { IsIndexOf plan.now index.now }
    ensures { result ≡ one_job plan.now (texts words.now) }
{
    match words {
        [line] => index.job(plan, line),
        _ => None,
    }
}

/// A signal operation by its name and value.
fn one_op(plan: &Plan, index: &Index, words: &[&[u8]]) -> Option<u32>
    requires { IsIndexOf plan.now index.now }
    ensures { result ≡ one_op plan.now (texts words.now) }
{
    match words {
        [name, value] => index.op(plan, name, value),
        _ => None,
    }
}

/// A point.
fn one_point(words: &[&[u8]]) -> Option<u32>
    ensures { result ≡ one_point (texts words.now) }
{
    match words {
        [point] => small_numeral(point),
        _ => None,
    }
}

/// A point, and the signal operation that it carries.
fn referred(plan: &Plan, index: &Index, words: &[&[u8]]) -> Option<(u32, u32)>
    requires { IsIndexOf plan.now index.now }
    ensures { result ≡ referred plan.now (texts words.now) }
{
    match words {
        [point, name, value] => Some((small_numeral(point)?, index.op(plan, name, value)?)),
        _ => None,
    }
}

/// A signal operation, and the point that carries it.
fn bound(plan: &Plan, index: &Index, words: &[&[u8]]) -> Option<(u32, u32)>
    requires { IsIndexOf plan.now index.now }
    ensures { result ≡ bound plan.now (texts words.now) }
{
    match words {
        [name, value, point] => Some((index.op(plan, name, value)?, small_numeral(point)?)),
        _ => None,
    }
}

/// The taking of a point.
fn take(plan: &Plan, index: &Index, words: &[&[u8]]) -> Option<Event>
    requires { IsIndexOf plan.now index.now }
    ensures { (a : AnActor) → result ≡ event_by plan.now a TakeVerb (texts words.now) }
{
    match words {
        [name, value, taken, point] => {
            let op = index.op(plan, name, value)?;
            let fresh = taken_said(taken)?;
            let point = small_numeral(point)?;
            Some(Event::Take { op, point, fresh })
        }
        _ => None,
    }
}

/// An answer, with the line of its step.
fn answer(plan: &Plan, index: &Index, words: &[&[u8]]) -> Option<Event>
    requires { IsIndexOf plan.now index.now }
    ensures { (a : AnActor) → result ≡ event_by plan.now a AnswerVerb (texts words.now) }
{
    match words {
        [line, rest @ ..] => {
            let job = index.job(plan, line)?;
            let answer = answer_said(rest)?;
            Some(Event::Answer { job, answer })
        }
        [] => None,
    }
}

/// The start of a command, with its line.
fn apply(plan: &Plan, index: &Index, words: &[&[u8]]) -> Option<Event>
    requires { IsIndexOf plan.now index.now }
    ensures { (a : AnActor) → result ≡ event_by plan.now a ApplyVerb (texts words.now) }
{
    match words {
        [line] => index.apply(plan, line),
        _ => None,
    }
}

/// The submission of a batch, with its line.
#[tactic(auto, using(crate::proofs::EventShapes::by_submit))]
fn submit(plan: &Plan, index: &Index, words: &[&[u8]]) -> Option<Event>
    requires { IsIndexOf plan.now index.now }
    ensures { (a : AnActor) → result ≡ event_by plan.now a SubmitVerb (texts words.now) }
{
    let job = one_job(plan, index, words)?;
    Some(Event::Submit { job })
}

/// The release of a batch, with its line.
#[tactic(auto, using(crate::proofs::EventShapes::by_release))]
fn release(plan: &Plan, index: &Index, words: &[&[u8]]) -> Option<Event>
    requires { IsIndexOf plan.now index.now }
    ensures { (a : AnActor) → result ≡ event_by plan.now a ReleaseVerb (texts words.now) }
{
    let job = one_job(plan, index, words)?;
    Some(Event::Release { job })
}

/// The start of a job, with its line.
#[tactic(auto, using(crate::proofs::EventShapes::by_start))]
fn start(plan: &Plan, index: &Index, words: &[&[u8]]) -> Option<Event>
    requires { IsIndexOf plan.now index.now }
    ensures { (a : AnActor) → result ≡ event_by plan.now a StartVerb (texts words.now) }
{
    let job = one_job(plan, index, words)?;
    Some(Event::Start { job })
}

/// The end of a job, with its line.
#[tactic(auto, using(crate::proofs::EventShapes::by_finish))]
fn finish(plan: &Plan, index: &Index, words: &[&[u8]]) -> Option<Event>
    requires { IsIndexOf plan.now index.now }
    ensures { (a : AnActor) → result ≡ event_by plan.now a FinishVerb (texts words.now) }
{
    let job = one_job(plan, index, words)?;
    Some(Event::Finish { job })
}

/// The completion of a signal operation.
#[tactic(auto, using(crate::proofs::EventShapes::by_complete))]
fn complete(plan: &Plan, index: &Index, words: &[&[u8]]) -> Option<Event>
    requires { IsIndexOf plan.now index.now }
    ensures { (a : AnActor) → result ≡ event_by plan.now a CompleteVerb (texts words.now) }
{
    let op = one_op(plan, index, words)?;
    Some(Event::Complete { op })
}

/// The making of a signal operation.
#[tactic(auto, using(crate::proofs::EventShapes::by_signal))]
fn signal(plan: &Plan, index: &Index, words: &[&[u8]]) -> Option<Event>
    requires { IsIndexOf plan.now index.now }
    ensures { (a : AnActor) → result ≡ event_by plan.now a SignalVerb (texts words.now) }
{
    let op = one_op(plan, index, words)?;
    Some(Event::Signal { op })
}

/// The freeing of a point.
#[tactic(auto, using(crate::proofs::EventShapes::by_free))]
fn free(words: &[&[u8]]) -> Option<Event>
    ensures { (p : AnyPlan) (a : AnActor) → result ≡ event_by p a FreeVerb (texts words.now) }
{
    let point = one_point(words)?;
    Some(Event::Free { point })
}

/// The binding of a signal operation to its point.
#[tactic(auto, using(crate::proofs::EventShapes::by_bind))]
fn bind(plan: &Plan, index: &Index, words: &[&[u8]]) -> Option<Event>
    requires { IsIndexOf plan.now index.now }
    ensures { (a : AnActor) → result ≡ event_by plan.now a BindVerb (texts words.now) }
{
    let (op, point) = bound(plan, index, words)?;
    Some(Event::Bind { op, point })
}

/// A reference to a point, by this actor.
#[tactic(auto, using(crate::proofs::EventShapes::by_refer))]
fn refer(plan: &Plan, index: &Index, actor: ActorName, words: &[&[u8]]) -> Option<Event>
    requires { IsIndexOf plan.now index.now }
    ensures { result ≡ event_by plan.now actor ReferVerb (texts words.now) }
{
    let (point, op) = referred(plan, index, words)?;
    Some(Event::Refer { actor, point, op })
}

/// A look at a point, by this actor.
#[tactic(auto, using(crate::proofs::EventShapes::by_look))]
fn look(plan: &Plan, index: &Index, actor: ActorName, words: &[&[u8]]) -> Option<Event>
    requires { IsIndexOf plan.now index.now }
    ensures { result ≡ event_by plan.now actor LookVerb (texts words.now) }
{
    let (point, op) = referred(plan, index, words)?;
    Some(Event::Look { actor, point, op })
}

/// The return of a reference to a point, by this actor.
#[tactic(auto, using(crate::proofs::EventShapes::by_unref))]
fn unref(plan: &Plan, index: &Index, actor: ActorName, words: &[&[u8]]) -> Option<Event>
    requires { IsIndexOf plan.now index.now }
    ensures { result ≡ event_by plan.now actor UnrefVerb (texts words.now) }
{
    let (point, op) = referred(plan, index, words)?;
    Some(Event::Unref { actor, point, op })
}

/// The event that the words after a verb say, of a line of this actor.
fn event_by(
    plan: &Plan,
    index: &Index,
    actor: ActorName,
    verb: Verb,
    words: &[&[u8]],
) -> Option<Event>
    requires { IsIndexOf plan.now index.now }
    ensures { result ≡ event_by plan.now actor verb (texts words.now) }
{
    match verb {
        Verb::Submit => submit(plan, index, words),
        Verb::Take => take(plan, index, words),
        Verb::Release => release(plan, index, words),
        Verb::Bind => bind(plan, index, words),
        Verb::Refer => refer(plan, index, actor, words),
        Verb::Look => look(plan, index, actor, words),
        Verb::Unref => unref(plan, index, actor, words),
        Verb::Complete => complete(plan, index, words),
        Verb::Free => free(words),
        Verb::Start => start(plan, index, words),
        Verb::Apply => apply(plan, index, words),
        Verb::Signal => signal(plan, index, words),
        Verb::Finish => finish(plan, index, words),
        Verb::Answer => answer(plan, index, words),
    }
}

/// The event that the words of an outcome say, which this actor may make.
pub(crate) fn event_said(
    plan: &Plan,
    index: &Index,
    actor: ActorName,
    words: &[&[u8]],
) -> Option<Event>
    requires { IsIndexOf plan.now index.now }
    ensures { result ≡ event_said plan.now actor (texts words.now) }
{
    let [word, rest @ ..] = words else {
        return None;
    };
    let verb = verb_of(word)?;
    let event = event_by(plan, index, actor, verb, rest)?;
    if may_make(plan, actor, event) {
        Some(event)
    } else {
        None
    }
}
