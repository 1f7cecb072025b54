//! The jobs of a plan's commands.
ghost use Rattle.std.specs.Prelude.{◌≡◌, ◌++◌, length, replicate, OnOk, IfOk};
ghost use Rattle.vq_model.specs.Lowering.{batch_commands, plan_of};
ghost use Rattle.vq_model.specs.SameScript.{IsRead};
ghost use Rattle.vq_spec.specs.Owners.{HasOwners};

use std::alloc::{AllocError, Global};
use vq_model::script::{Job, Script};

/// How many commands a job has.
fn commands_in(job: &Job) -> usize
    ensures { result ≡ length (batch_commands job.now) }
{
    match job {
        Job::Host(_) => 0,
        Job::Batch(batch) => batch.commands.as_slice().len(),
    }
}

/// Adds a job once for each of its commands.
fn push_owner(owners: &mut Vec<u32>, job: u32, count: usize) -> Result<(), AllocError>
    ensures { OnOk result (owners.new.items ≡ owners.old.items ++ replicate count job) }
{
    for _ in 0..count {
        owners.push(job)?;
    }
    Ok(())
}

/// The job of each command. There is room for so many of them.
pub(crate) fn lower_owners(
    alloc: Global,
    script: &Script,
    room: u32,
) -> Result<Vec<u32>, AllocError>
    requires { IsRead script.now }
    ensures { IfOk result (λ owners. HasOwners (plan_of script.now) owners.items) }
{
    let mut owners = Vec::with_capacity(alloc, room as usize)?;
    let jobs = script.jobs.as_slice();
    for j in 0..jobs.len() as u32 {
        push_owner(&mut owners, j, commands_in(&jobs[j as usize]))?;
    }
    Ok(owners)
}
