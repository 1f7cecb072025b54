//! Whether all jobs are finished, as far as what a handle holds can say.
//!
//! Source: this project's own.
ghost use Rattle.std.specs.Prelude.{◌≡◌, ◌↔◌};
ghost use Rattle.vq_c.specs.Looks.{HasLooked, look_reply, run_reply};

use crate::object::Object;
use vq_face::Reply;
use vq_shared_run::Look;

/// What a look answers.
fn look_reply(look: Look) -> Reply
    ensures { result ≡ look_reply look }
{
    match look {
        Look::Finished => Reply::Done,
        Look::Unfinished => Reply::Unfinished,
        Look::NotHost => Reply::NotHost,
    }
}

/// What a run answers.
fn run_reply(finished: bool) -> Reply
    ensures { result ≡ run_reply finished }
{
    if finished {
        Reply::Done
    } else {
        Reply::Unfinished
    }
}

impl Object {
    /// Whether all jobs are finished: `Done`, `Unfinished`, or why it can't say.
    pub(crate) fn look(&mut self) -> Reply
        ensures { HasLooked self.old self.new result }
    {
        match self {
            Object::Run(drive) => run_reply(drive.is_finished()),
            Object::Actor(player) => look_reply(player.finished()),
            Object::Plan(_) => Reply::WrongKind,
        }
    }
}
