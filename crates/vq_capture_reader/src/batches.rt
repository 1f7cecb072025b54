//! The batch that is open, and the parts of a batch.
ghost use Rattle.std.specs.Prelude.{◌≡◌, Some};
ghost use Rattle.vq_capture.specs.LineForms.{ends_command, part_of};
ghost use Rattle.vq_capture.specs.Statements.{batch_with, opened};
ghost use Rattle.vq_capture_reader.specs.Batches.{opened_of};

use vq_capture::form::Form;

/// An open batch: its queue, the part that its last line belongs to, and the line behind which its last command begins.
#[derive(Clone, Copy)]
pub struct OpenBatch {
    pub queue: u64,
    pub part: u64,
    pub command: u64,
}

/// The part of a batch that a line belongs to, 0 outside batches.
pub fn part_of(form: Form) -> u64
    ensures { result ≡ part_of form }
{
    match form {
        Form::WaitTimelineLine => 1,
        Form::WaitBinaryLine => 1,
        Form::ReadLine => 2,
        Form::WriteLine => 2,
        Form::NextLine => 2,
        Form::BarrierLine => 2,
        Form::TransitionLine => 2,
        Form::SetLine => 2,
        Form::AwaitLine => 2,
        Form::SignalTimelineLine => 3,
        Form::SignalBinaryLine => 3,
        Form::BatchFenceLine => 4,
        Form::EndLine => 5,
        _ => 0,
    }
}

/// Whether the accesses behind a line are of another command.
fn ends_command(form: Form) -> bool
    ensures { result ≡ ends_command form }
{
    match form {
        Form::NextLine => true,
        Form::BarrierLine => true,
        Form::TransitionLine => true,
        Form::SetLine => true,
        Form::AwaitLine => true,
        _ => false,
    }
}

/// A batch with a line of a form behind its others.
pub fn batch_with(line: u64, form: Form, batch: OpenBatch) -> OpenBatch
    ensures { opened_of result ≡ batch_with line form (opened_of batch) }
{
    OpenBatch {
        queue: batch.queue,
        part: part_of(form),
        command: if ends_command(form) {
            line
        } else {
            batch.command
        },
    }
}

/// A batch that a line begins.
pub fn opened(queue: u64, line: u64) -> OpenBatch
    ensures { Some (opened_of result) ≡ opened queue line }
{
    OpenBatch {
        queue,
        part: 1,
        command: line,
    }
}
