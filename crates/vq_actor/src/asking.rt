//! Tasks that compare values and answer what is asked.
ghost use Rattle.std.specs.Prelude.{◌≡◌};
ghost use Rattle.std.specs.List.{list_all, list_any};
ghost use Rattle.vq_turns.specs.declared.task.Task.{Task};
ghost use Rattle.vq_turns.specs.Turns.{answer_by, first_past, reaches};
ghost use Rattle.vq_actor.specs.Meanings.{IsNext};
ghost use Rattle.vq_actor.specs.Doings.{DidTo};

use crate::access::Access;
use crate::doing::Doing;
use vq_model::plan::{Answer, Question};
use vq_turns::look::Seen;
use vq_turns::outcome::Outcome;

/// Collects on a chain; once nothing is left there, compares its past value with the one that is wanted.
pub(crate) fn compare<A: Access>(access: &mut A, chain: u32, wanted: u64) -> Doing
    requires { IsNext (A.meaning access.old) (Task.Compare chain wanted) }
    ensures { DidTo (A.meaning access.old) (A.meaning access.new) (Task.Compare chain wanted)
        (A.shows access.new) result }
{
    match access.collect(chain) {
        Some(event) => Doing::Ends(Outcome::Moved(event)),
        None => {
            access.past(chain, wanted);
            Doing::GoesOn
        }
    }
}

/// Whether the past value is the one that was wanted, or a greater one.
fn reaches(seen: &Seen) -> bool
    ensures { result ≡ reaches seen.now }
{
    seen.wanted <= seen.past
}

/// Whether all values were reached.
fn all_reach(seen: &[Seen]) -> bool
    ensures { result ≡ list_all reaches seen.now }
{
    for one in seen {
        if !reaches(one) {
            return false;
        }
    }
    true
}

/// Whether one of the values was reached.
fn any_reaches(seen: &[Seen]) -> bool
    ensures { result ≡ list_any reaches seen.now }
{
    for one in seen {
        if reaches(one) {
            return true;
        }
    }
    false
}

/// The past value that was compared first.
fn first_past(seen: &[Seen]) -> u64
    ensures { result ≡ first_past seen.now }
{
    match seen {
        [first, ..] => first.past,
        [] => 0,
    }
}

/// What is answered, by what was compared.
fn answer_by(question: Question, seen: &[Seen]) -> Answer
    ensures { result ≡ answer_by question seen.now }
{
    match question {
        Question::PollAll if !all_reach(seen) => Answer::Timeout,
        Question::PollAny if !any_reaches(seen) => Answer::Timeout,
        Question::Fence if !all_reach(seen) => Answer::NotReady,
        Question::Value(_) => Answer::Value(first_past(seen)),
        _ => Answer::Reached,
    }
}

/// Answers what a job asks.
pub(crate) fn answer<A: Access>(access: &mut A, job: u32, question: Question) -> Doing
    requires { IsNext (A.meaning access.old) (Task.Answer job question) }
    ensures { DidTo (A.meaning access.old) (A.meaning access.new) (Task.Answer job question)
        (A.shows access.new) result }
{
    let given = answer_by(question, access.place().seen());
    Doing::Ends(Outcome::Moved(access.answer(job, given)))
}
