//! What the calls need of a plan, copied: its commands and its operations.
ghost use Rattle.std.specs.Prelude.{◌≡◌, ◌<◌, length, map, IfOk, Some};
ghost use Rattle.std.specs.List.{slice_get};
ghost use Rattle.vq_board.specs.Copied.{command_of};

use std::alloc::{AllocError, Global};
use std::marker::Model;
use vq_model::list::Bytes;
use vq_model::plan::Op;
use vq_model::script::Command;
use vq_spec::Plan;

/// The commands of a plan, and its operations.
#[derive(Drop)]
pub(crate) struct Copies {
    commands: Vec<Command>,
    ops: Vec<Op>,
}

impl Model for Copies {
    ghost use Rattle.vq_board.specs.Copied.{Copied};

    ghost Value = { Copied };

    ghost view = { λ a. record { commands = a.commands.items; ops = a.ops.items } };
}

/// A command like this one.
fn copied(alloc: Global, command: &Command) -> Result<Command, AllocError>
    ensures { IfOk result (λ x. x ≡ command.now) }
{
    Ok(match command {
        Command::Fill {
            buffer,
            offset,
            size,
            word,
        } => Command::Fill {
            buffer: *buffer,
            offset: *offset,
            size: *size,
            word: *word,
        },
        Command::Update {
            buffer,
            offset,
            bytes,
        } => Command::Update {
            buffer: *buffer,
            offset: *offset,
            bytes: Bytes::of(Vec::from_slice(alloc, bytes.as_slice())?),
        },
        Command::Copy {
            source,
            source_offset,
            target,
            target_offset,
            size,
        } => Command::Copy {
            source: *source,
            source_offset: *source_offset,
            target: *target,
            target_offset: *target_offset,
            size: *size,
        },
    })
}

/// The commands of a plan.
fn commands_of(alloc: Global, plan: &Plan) -> Result<Vec<Command>, AllocError>
    ensures { IfOk result (λ v. v.items ≡ map command_of plan.now.commands) }
{
    let mut commands = Vec::with_capacity(alloc, plan.commands() as usize)?;
    for c in 0..plan.commands() {
        commands.push(copied(alloc, &plan.command(c).command)?)?;
    }
    Ok(commands)
}

/// The operations of a plan.
fn ops_of(alloc: Global, plan: &Plan) -> Result<Vec<Op>, AllocError>
    ensures { IfOk result (λ v. v.items ≡ plan.now.ops) }
{
    let mut ops = Vec::with_capacity(alloc, plan.ops() as usize)?;
    for e in 0..plan.ops() {
        ops.push(plan.op(e))?;
    }
    Ok(ops)
}

impl Copies {
    /// The copies of a plan. The error is want of memory.
    pub(crate) fn of(alloc: Global, plan: &Plan) -> Result<Copies, AllocError>
        ensures commands { IfOk result (λ a. a.commands ≡ map command_of plan.now.commands) }
        ensures ops { IfOk result (λ a. a.ops ≡ plan.now.ops) }
    {
        let commands = commands_of(alloc, plan)?;
        let ops = ops_of(alloc, plan)?;
        Ok(Copies { commands, ops })
    }

    /// A command.
    pub(crate) fn command(&self, c: u32) -> &Command
        requires { c < length self.now.commands }
        ensures { slice_get self.now.commands c ≡ Some result.now }
    {
        &self.commands[c as usize]
    }

    /// An operation, where there is one with this number.
    pub(crate) fn op(&self, e: u32) -> Option<Op>
        ensures { result ≡ slice_get self.now.ops e }
    {
        match self.ops.as_slice().get(e as usize) {
            Some(op) => Some(*op),
            None => None,
        }
    }
}
