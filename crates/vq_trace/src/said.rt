//! What a line of a trace says by its words.
ghost use Rattle.std.specs.Prelude.{◌≡◌, ◌∷◌, []};
ghost use Rattle.vq_lexer.specs.Words.{texts};
ghost use Rattle.vq_given.specs.Words.{end_said, is_silent_outcome, line_said, outcome_said, turn_said};
ghost use Rattle.vq_trace.specs.PlanIndex.{IsIndexOf};

use crate::actors::actor_said;
use crate::events::event_said;
use crate::index::Index;
use vq_given::given::{TraceEnd, TraceLine, TraceTurn};
use vq_lexer::{numeral, small_numeral};
use vq_model::plan::Event;
use vq_model::script::ActorName;
use vq_spec::Plan;

/// Whether an outcome says that a turn made no event.
fn is_silent(words: &[&[u8]]) -> bool
    ensures { result ≡ is_silent_outcome (texts words.now) }
{
    match words {
        [word] => *word == b"-".as_slice() || *word == b".".as_slice(),
        _ => false,
    }
}

/// The event of a turn, or none.
fn outcome_said(
    plan: &Plan,
    index: &Index,
    actor: ActorName,
    words: &[&[u8]],
) -> Option<Option<Event>>
    requires { IsIndexOf plan.now index.now }
    ensures { result ≡ outcome_said plan.now actor (texts words.now) }
{
    if is_silent(words) {
        return Some(None);
    }
    Some(Some(event_said(plan, index, actor, words)?))
}

/// A turn: a number, an actor, and an outcome.
fn turn_said(plan: &Plan, index: &Index, words: &[&[u8]]) -> Option<TraceTurn>
    requires { IsIndexOf plan.now index.now }
    ensures { result ≡ turn_said plan.now (texts words.now) }
{
    let [number, actor, rest @ ..] = words else {
        return None;
    };
    let number = numeral(number)?;
    let actor = actor_said(plan, index, actor)?;
    let event = outcome_said(plan, index, actor, rest)?;
    Some(TraceTurn {
        number,
        actor,
        event,
    })
}

/// The end of the turns where all jobs are finished.
fn finished_end(word: &[u8]) -> Option<TraceEnd>
    ensures { result ≡ end_said (word.now ∷ []) }
{
    if word == b"finished".as_slice() {
        Some(TraceEnd {
            finished: true,
            left: 0,
        })
    } else {
        None
    }
}

/// The end of the turns where some jobs are left.
fn unfinished_end(word: &[u8], number: &[u8]) -> Option<TraceEnd>
    ensures { result ≡ end_said (word.now ∷ number.now ∷ []) }
{
    if word == b"unfinished".as_slice() {
        Some(TraceEnd {
            finished: false,
            left: small_numeral(number)?,
        })
    } else {
        None
    }
}

/// The end of the turns.
fn end_said(words: &[&[u8]]) -> Option<TraceEnd>
    ensures { result ≡ end_said (texts words.now) }
{
    match words {
        [word] => finished_end(word),
        [word, number] => unfinished_end(word, number),
        _ => None,
    }
}

/// What a line says.
pub(crate) fn line_said(plan: &Plan, index: &Index, words: &[&[u8]]) -> TraceLine
    requires { IsIndexOf plan.now index.now }
    ensures { result ≡ line_said plan.now (texts words.now) }
{
    let [_, ..] = words else {
        return TraceLine::Blank;
    };
    if let Some(end) = end_said(words) {
        return TraceLine::End(end);
    }
    match turn_said(plan, index, words) {
        Some(turn) => TraceLine::Turn(turn),
        None => TraceLine::Faulty,
    }
}
