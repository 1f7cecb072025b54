//! The tasks for signal operations, one for each.
ghost use Rattle.std.specs.Prelude.{◌≡◌, ◌<◌, ◌++◌, All, map, length, OnOk};
ghost use Rattle.std.specs.Option.{option_map_or};
ghost use Rattle.vq_model.specs.Plan.{chain_of};
ghost use Rattle.vq_turns.specs.declared.task.Task.{Task};
ghost use Rattle.vq_turns.specs.Programs.{takes};

use std::alloc::AllocError;
use vq_spec::Plan;
use vq_turns::task::Task;

/// Adds tasks that wait until these operations are bound.
pub(crate) fn push_awaits(tasks: &mut Vec<Task>, ops: &[u32]) -> Result<(), AllocError>
    ensures { OnOk result (tasks.new.items ≡ tasks.old.items ++ map Task.AwaitBound ops.now) }
{
    for op in ops {
        tasks.push(Task::AwaitBound { op: *op })?;
    }
    Ok(())
}

/// Adds tasks that give these operations points.
pub(crate) fn push_takes(tasks: &mut Vec<Task>, plan: &Plan, ops: &[u32]) -> Result<(), AllocError>
    requires exist { All (λ e. e < length plan.now.ops) ops.now }
    ensures { OnOk result (tasks.new.items ≡ tasks.old.items
        ++ map (λ e. Task.Take e (option_map_or (λ t. t) (chain_of plan.now e) 0)) ops.now) }
{
    for op in ops {
        let chain = plan.op(*op).chain;
        tasks.push(Task::Take { op: *op, chain })?;
    }
    Ok(())
}

/// Adds tasks that bind these operations.
pub(crate) fn push_binds(tasks: &mut Vec<Task>, ops: &[u32]) -> Result<(), AllocError>
    ensures { OnOk result (tasks.new.items ≡ tasks.old.items ++ map Task.Bind ops.now) }
{
    for op in ops {
        tasks.push(Task::Bind { op: *op })?;
    }
    Ok(())
}

/// Adds tasks that signal these operations.
pub(crate) fn push_signals(tasks: &mut Vec<Task>, ops: &[u32]) -> Result<(), AllocError>
    ensures { OnOk result (tasks.new.items ≡ tasks.old.items ++ map Task.Signal ops.now) }
{
    for op in ops {
        tasks.push(Task::Signal { op: *op })?;
    }
    Ok(())
}
