//! The codes by which turns and answers cross to C: `c/codes` makes this file out of `c/codes.txt`.
//!
//! Source: this project's own.
ghost use Rattle.std.specs.Prelude.{◌≡◌};
ghost use Rattle.vq_face.specs.Kinds.{answer_code, event_code, reply_code, want_code};

use crate::reply::Reply;
use vq_model::plan::{Answer, Event};
use vq_turns::outcome::Want;

/// The code of what a call answers.
pub fn reply_code(reply: Reply) -> u32
    ensures { result ≡ reply_code reply }
{
    match reply {
        Reply::NoMemory => 1,
        Reply::Done => 0,
        Reply::Moved => 64,
        Reply::Blocked => 65,
        Reply::Ended => 66,
        Reply::NoActor => 80,
        Reply::NoOp => 82,
        Reply::NoBuffer => 83,
        Reply::Unfinished => 84,
        Reply::NoRoom => 85,
        Reply::NotHost => 86,
        Reply::Shared => 87,
        Reply::WrongKind => 88,
        Reply::Closed => 89,
        Reply::NoHandle => 90,
    }
}

/// The code of an event.
pub(crate) fn event_code(event: Event) -> u32
    ensures { result ≡ event_code event }
{
    match event {
        Event::Submit { .. } => 1,
        Event::Take { .. } => 2,
        Event::Release { .. } => 3,
        Event::Bind { .. } => 4,
        Event::Refer { .. } => 5,
        Event::Look { .. } => 6,
        Event::Unref { .. } => 7,
        Event::Complete { .. } => 8,
        Event::Free { .. } => 9,
        Event::Start { .. } => 10,
        Event::Apply { .. } => 11,
        Event::Signal { .. } => 12,
        Event::Finish { .. } => 13,
        Event::Answer { .. } => 14,
    }
}

/// The code of what a blocked actor waits for.
pub(crate) fn want_code(want: Want) -> u32
    ensures { result ≡ want_code want }
{
    match want {
        Want::Submitted { .. } => 1,
        Want::Released { .. } => 2,
        Want::Bound { .. } => 3,
        Want::Next { .. } => 4,
        Want::Signaled { .. } => 5,
        Want::Finished { .. } => 6,
        Want::MemoryTurn => 7,
        Want::Exchange { .. } => 8,
        Want::Listed { .. } => 9,
    }
}

/// The code of an answer.
pub(crate) fn answer_code(answer: Answer) -> u32
    ensures { result ≡ answer_code answer }
{
    match answer {
        Answer::Reached => 1,
        Answer::Timeout => 2,
        Answer::NotReady => 3,
        Answer::Value(_) => 4,
    }
}
