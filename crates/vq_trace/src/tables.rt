//! The lines of a plan's jobs and of its commands.
ghost use Rattle.std.specs.Prelude.{◌≡◌, IfOk, length, map};
ghost use Rattle.std.specs.List.{range_with_len};
ghost use Rattle.vq_model.specs.Plan.{line_of_command, line_of_job};

use std::alloc::{AllocError, Global};
use vq_spec::Plan;

/// The line of each job.
#[tactic(auto, using(crate::proofs::FirstPlaces::table_more, crate::proofs::Lookups::job_line_is))]
pub(crate) fn job_lines(alloc: Global, plan: &Plan) -> Result<Vec<u64>, AllocError>
    ensures { IfOk result (λ lines. lines.items
        ≡ map (line_of_job plan.now) (range_with_len 0 (length plan.now.jobs))) }
{
    let mut lines = Vec::with_capacity(alloc, plan.jobs() as usize)?;
    for j in 0..plan.jobs() {
        lines.push(u64::from(plan.job(j).line))?;
    }
    Ok(lines)
}

/// The line of each command.
#[tactic(auto, using(crate::proofs::FirstPlaces::table_more, crate::proofs::Lookups::command_line_is))]
pub(crate) fn command_lines(alloc: Global, plan: &Plan) -> Result<Vec<u64>, AllocError>
    ensures { IfOk result (λ lines. lines.items
        ≡ map (line_of_command plan.now) (range_with_len 0 (length plan.now.commands))) }
{
    let mut lines = Vec::with_capacity(alloc, plan.commands() as usize)?;
    for c in 0..plan.commands() {
        lines.push(u64::from(plan.command(c).line))?;
    }
    Ok(lines)
}
