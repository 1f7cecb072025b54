//! What the program writes for an input.
ghost use Rattle.std.specs.Prelude.{◌≡◌, ◌≤◌, ◌++◌, ℕ, IfOk, List, Option, length};
ghost use Rattle.vq_model.specs.Canonical.{canonical_text};
ghost use Rattle.vq_model.specs.FittingCommands.{HasSizes};
ghost use Rattle.vq_model.specs.OutputText.{answer_text, buffers_text};
ghost use Rattle.vq_model.specs.Outputs.{asking};
ghost use Rattle.vq_run.specs.Origins.{IsOutputFrom};
ghost use Rattle.vq_model.specs.ValidScripts.{sizes_of};
ghost use Rattle.vq_messages.specs.Refused.{input_limit};
ghost use Rattle.vq_run.specs.Outcomes.{AnswersTask, IsOutcome, upgraded};
ghost use Rattle.vq_run.specs.Readings.{ArePlayable};
ghost use Rattle.vq_run.specs.Tasks.{IsStill, ReadsTrace, RunsThreads};
ghost use Rattle.vq_board.specs.Named.{bytes_of};
ghost use Rattle.vq_spec.specs.TextRooms.{text_room};

use crate::auditing::trace_outcome;
use crate::origins::name_origins;
use crate::reading::{Reading, read_plan, read_script};
use crate::status::Status;
use crate::task::row_of;
use std::alloc::{AllocError, Global};
use std::marker::Sync;
use std::sync::Wait;
use std::thread::Threads;
use vq_model::list::List;
use vq_model::script::Turn;
use vq_order::Ordered;
use vq_replay::{replay_text, rounds_text};
use vq_rings::{Gate, Opened, Report};
use vq_script::print_as;
use vq_spec::TextRoom;
use vq_words::Task;

/// A status with the text that goes with it.
#[derive(Drop)]
pub struct Reply {
    pub status: Status,
    pub text: Vec<u8>,
}

impl Reply {
    /// This text, and that all went well.
    pub(crate) fn done(text: Vec<u8>) -> Reply
        ensures { result ≡ record { status = Status.Done; text = text } }
    {
        Reply {
            status: Status::Done,
            text,
        }
    }

    /// This text, and that the input is refused.
    pub(crate) fn refused(text: Vec<u8>) -> Reply
        ensures { result ≡ record { status = Status.Refused; text = text } }
    {
        Reply {
            status: Status::Refused,
            text,
        }
    }
}

/// What a lawful plan writes where its queues run on threads, with the lines of the input. All memory is taken before
/// the first turn; the error is that there is none.
fn run_text<R: Threads + Wait + Sync, G: Gate>(
    rt: &R,
    alloc: Global,
    ordered: Ordered,
    from: &Option<List<u32>>,
    gate: &G,
) -> Result<Vec<u8>, AllocError>
    ensures { IfOk result (λ text. IsOutputFrom ordered from.now text.items) }
{
    let room = TextRoom::new(alloc, ordered.plan())?;
    let mut report = Opened::new(alloc, ordered)?.drive(rt, gate);
    name_origins(from, &mut report.answers);
    Ok(report_text(room, &report))
}

/// The answers of a run, and the buffers that it leaves, in the room that was made for them.
fn report_text(room: TextRoom, report: &Report) -> Vec<u8>
    requires room { room ≡ text_room report.now.ordered }
    requires few { length report.now.answers.items ≤ length (asking report.now.ordered) }
    requires sizes { HasSizes (sizes_of report.now.ordered.script) (bytes_of report.now.closed) }
    ensures { result.items ≡ answer_text report.now.answers.items
        ++ buffers_text report.now.ordered.script.buffers (bytes_of report.now.closed) }
{
    room.fill(
        report.ordered.plan(),
        report.answers.as_slice(),
        report.closed.buffers(),
    )
}

/// The script of a lawful plan, written as one of the second version.
fn upgraded_text(alloc: Global, ordered: &Ordered) -> Result<Vec<u8>, AllocError>
    ensures { IfOk result (λ text. text.items ≡ canonical_text (upgraded ordered.now.script)) }
{
    print_as(alloc, ordered.plan().script(), 2)
}

/// What a task that starts no thread and reads no trace writes for a lawful plan, wherever its script's lines come from.
fn still_text(
    alloc: Global,
    task: Task,
    ordered: Ordered,
    turns: &[Turn],
) -> Result<Vec<u8>, AllocError>
    requires still { IsStill task }
    requires traceless { ¬ ReadsTrace task }
    requires playable { ArePlayable ordered.script turns.now }
    ensures { (input : List ℕ) (from : Option (List ℕ)) → IfOk result (λ text.
        AnswersTask task input ordered turns.now from text.items) }
{
    match task {
        Task::Check => Vec::from_slice(alloc, b"lawful\n"),
        Task::Replay => replay_text(alloc, ordered, turns),
        Task::Rounds => rounds_text(alloc, ordered),
        Task::Upgrade => upgraded_text(alloc, &ordered),
        Task::Run | Task::Generate(_) | Task::Audit | Task::Hosts => unreachable!(),
    }
}

/// What a task that reads a trace behind the script comes to for an input.
fn audit_outcome(alloc: Global, task: Task, input: &[u8]) -> Result<Reply, AllocError>
    requires traced { ReadsTrace task }
    requires short { length input.now ≤ input_limit }
    ensures { IfOk result (λ outcome. IsOutcome task input.now outcome.status outcome.text.items) }
{
    let scripted = read_script(alloc, task, input)?;
    match read_plan(alloc, scripted)? {
        Reading::Lawful { ordered, .. } => trace_outcome(alloc, ordered, input),
        Reading::Refused(text) => Ok(Reply::refused(text)),
    }
}

/// What a task that starts no thread writes for an input. The error is want of memory.
pub fn still_outcome(alloc: Global, task: Task, input: Vec<u8>) -> Result<Reply, AllocError>
    requires still { IsStill task }
    requires short { length input.items ≤ input_limit }
    ensures { IfOk result (λ outcome. IsOutcome task input.items outcome.status outcome.text.items) }
{
    if row_of(task).reads_trace {
        return audit_outcome(alloc, task, input.as_slice());
    }
    let scripted = read_script(alloc, task, input.as_slice())?;
    // the plan is made where the text stood
    drop(input);
    match read_plan(alloc, scripted)? {
        Reading::Lawful { ordered, turns, .. } => {
            let turns = turns.as_slice();
            let text = still_text(alloc, task, ordered, turns)?;
            Ok(Reply::done(text))
        }
        Reading::Refused(text) => Ok(Reply::refused(text)),
    }
}

/// What a task that runs a script on threads writes for an input. The error is want of memory.
pub fn run_outcome<R: Threads + Wait + Sync, G: Gate>(
    rt: &R,
    alloc: Global,
    task: Task,
    input: Vec<u8>,
    gate: &G,
) -> Result<Reply, AllocError>
    requires runs { RunsThreads task }
    requires short { length input.items ≤ input_limit }
    ensures { IfOk result (λ outcome. IsOutcome task input.items outcome.status outcome.text.items) }
{
    let scripted = read_script(alloc, task, input.as_slice())?;
    drop(input);
    match read_plan(alloc, scripted)? {
        Reading::Lawful { ordered, from, .. } => {
            let text = run_text(rt, alloc, ordered, &from, gate)?;
            Ok(Reply::done(text))
        }
        Reading::Refused(text) => Ok(Reply::refused(text)),
    }
}
