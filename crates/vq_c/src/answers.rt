//! What the steps of the host were answered, in the run of what a handle holds.
//!
//! Source: this project's own.
ghost use Rattle.std.specs.Prelude.{◌≡◌, IfErr, IfOk};
ghost use Rattle.vq_c.specs.Answers.{AreRowsOf, IsUntold, IsUntoldBy, answers_in};
ghost use Rattle.vq_c.specs.Objects.{answers_so_far};
ghost use Rattle.vq_face.specs.Rows.{rows_of};
ghost use Rattle.vq_shared_run.specs.Players.{answers_of};

use crate::object::Object;
use std::alloc::{AllocError, Global};
use vq_core_run::Drive;
use vq_face::{AnswerRow, Reply, rows_of};
use vq_shared_run::Player;

/// What crosses of the answers of a run. The error is want of memory.
fn told_of(alloc: Global, drive: &Drive) -> Result<Vec<AnswerRow>, AllocError>
    ensures { IfOk result (λ rows. rows.items ≡ rows_of (answers_so_far drive.now)) }
{
    let lines = drive.answers(alloc)?;
    rows_of(alloc, lines.as_slice())
}

/// What crosses of the answers that a host has told.
fn told_by(alloc: Global, player: &Player) -> Result<Vec<AnswerRow>, Reply>
    ensures rows { IfOk result (λ rows. AreRowsOf (answers_of player.now) rows.items) }
    ensures cause { IfErr result (λ reply. IsUntoldBy player.now reply) }
{
    let Some(lines) = player.answers() else {
        return Err(Reply::NotHost);
    };
    match rows_of(alloc, lines) {
        Ok(rows) => Ok(rows),
        Err(_) => Err(Reply::NoMemory),
    }
}

impl Object {
    /// What crosses of the answers so far, or why none does.
    pub(crate) fn answers(&self, alloc: Global) -> Result<Vec<AnswerRow>, Reply>
        ensures rows { IfOk result (λ rows. AreRowsOf (answers_in self.now) rows.items) }
        ensures cause { IfErr result (λ reply. IsUntold self.now reply) }
    {
        match self {
            Object::Plan(_) => Err(Reply::WrongKind),
            Object::Run(drive) => match told_of(alloc, drive) {
                Ok(rows) => Ok(rows),
                Err(_) => Err(Reply::NoMemory),
            },
            Object::Actor(player) => told_by(alloc, player),
        }
    }
}
