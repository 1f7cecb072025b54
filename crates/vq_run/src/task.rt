//! What the tasks need of the program, as a table: a row for each.
ghost use Rattle.std.specs.Prelude.{◌≡◌};
ghost use Rattle.vq_run.specs.Tasks.{plain_row, row_of};

use vq_script::Form;
use vq_words::Task;

/// What a task needs of the program.
#[derive(Clone, Copy)]
pub struct TaskRow {
    /// The form of the scripts that it reads.
    pub form: Form,
    /// Whether a trace follows the script.
    pub reads_trace: bool,
    /// Whether host threads stand in blocks between the lines of the script.
    pub reads_threads: bool,
    /// Whether it plays the turns of a schedule, which are then no part of the plan.
    pub plays_turns: bool,
    /// Whether it runs the script on threads.
    pub runs_threads: bool,
    /// The rounds of the script that the program makes itself. Without them the source is read.
    pub rounds: Option<u32>,
}

/// A task that reads a plain script, and starts no thread.
fn plain_row() -> TaskRow
    ensures { result ≡ plain_row }
{
    TaskRow {
        form: Form::Plain,
        reads_trace: false,
        reads_threads: false,
        plays_turns: false,
        runs_threads: false,
        rounds: None,
    }
}

/// The row of a task.
pub(crate) fn row_of(task: Task) -> TaskRow
    ensures { result ≡ row_of task }
{
    match task {
        Task::Run => TaskRow {
            runs_threads: true,
            ..plain_row()
        },
        Task::Replay => TaskRow {
            form: Form::Scheduled,
            plays_turns: true,
            ..plain_row()
        },
        Task::Generate(rounds) => TaskRow {
            runs_threads: true,
            rounds: Some(rounds),
            ..plain_row()
        },
        Task::Audit => TaskRow {
            reads_trace: true,
            ..plain_row()
        },
        Task::Hosts => TaskRow {
            reads_threads: true,
            runs_threads: true,
            ..plain_row()
        },
        Task::Check | Task::Rounds | Task::Upgrade => plain_row(),
    }
}
