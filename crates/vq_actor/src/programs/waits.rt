//! The tasks for needs, one for each.
ghost use Rattle.std.specs.Prelude.{◌≡◌, ◌++◌, [], ◌∷◌, filter, map, OnOk};
ghost use Rattle.vq_turns.specs.declared.task.Task.{Task};
ghost use Rattle.vq_actor.specs.ProgramParts.{is_within, wait_where};

use std::alloc::AllocError;
use vq_model::plan::Need;
use vq_turns::needs::Needs;
use vq_turns::task::Task;

/// Which needs of a job: those that hold it back as a whole, those from a later place, those from behind so
/// many commands, or all.
#[derive(Clone, Copy)]
pub(crate) enum Within {
    Start,
    Place(usize),
    Behind(usize),
    Whole,
}

impl Within {
    /// Whether a need is one of these.
    fn has(self, need: &Need) -> bool
        ensures { result ≡ is_within self need.now }
    {
        let from = need.from as usize;
        match self {
            Within::Start => from == 1,
            Within::Place(place) => 1 < place && from == place,
            Within::Behind(commands) => 1 < from && commands < from,
            Within::Whole => true,
        }
    }
}

/// Adds a wait for a need, where it is one of these.
fn push_wait(tasks: &mut Vec<Task>, within: Within, need: &Need) -> Result<(), AllocError>
    ensures { OnOk result (tasks.new.items ≡ tasks.old.items ++ wait_where within need.now) }
{
    if within.has(need) {
        let needs = Needs::one(*need);
        tasks.push(Task::AwaitNeeds { needs })?;
    }
    Ok(())
}

/// Adds waits for those of the needs, each by itself.
pub(crate) fn push_waits(
    tasks: &mut Vec<Task>,
    within: Within,
    needs: &[Need],
) -> Result<(), AllocError>
    ensures { OnOk result (tasks.new.items ≡ tasks.old.items
        ++ map (λ n. Task.AwaitNeeds (n ∷ [])) (filter (is_within within) needs.now)) }
{
    for need in needs {
        push_wait(tasks, within, need)?;
    }
    Ok(())
}
