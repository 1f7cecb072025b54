//! What a line says, by what its words say.
ghost use Rattle.std.specs.Prelude.{◌≡◌, ◌<◌, true, false};
ghost use Rattle.vq_capture_reader.specs.Said.{access_in, statement_in};
ghost use Rattle.vq_capture_reader.specs.Slots.{is_of_host, is_of_semaphores, is_outside};

use crate::said::{Said, line_in, number_in, scope_in, thread_in};
use vq_capture::form::Form;
use vq_capture::statement::{Access, AccessKind, Kind, Range, Statement};

/// The access of a resource, an offset and a length, from a place on.
fn access_in(kind: AccessKind, said: &[Said], place: usize) -> Access
    requires { place < 3 }
    ensures { result ≡ access_in kind said.now place }
{
    Access {
        kind,
        resource: line_in(said, place),
        range: Range {
            offset: number_in(said, place + 1),
            length: number_in(said, place + 2),
        },
    }
}

/// What a line of a form says, which has words behind its first, and stands outside batches.
fn said_outside(line: u64, form: Form, said: &[Said]) -> Statement
    ensures { is_outside form ≡ true → result ≡ statement_in line form said.now }
{
    match form {
        Form::QueueLine => Statement::Declare { kind: Kind::Queue },
        Form::BinaryLine => Statement::Declare { kind: Kind::Binary },
        Form::FenceLine => Statement::Declare { kind: Kind::Fence },
        Form::EventLine => Statement::Declare { kind: Kind::Event },
        Form::TimelineLine => Statement::DeclareTimeline {
            initial: number_in(said, 1),
        },
        Form::ResourceLine => Statement::DeclareResource {
            length: number_in(said, 1),
        },
        Form::GoneLine => Statement::Forget {
            declared: line_in(said, 0),
        },
        Form::ThreadLine => Statement::GoOn {
            thread: thread_in(line, said, 0),
        },
        Form::AfterLine => Statement::After {
            thread: line_in(said, 0),
        },
        Form::SubmitLine => Statement::Submit {
            queue: line_in(said, 0),
        },
        Form::HandLine => Statement::HandOver,
        Form::SubmitHandedLine => Statement::SubmitHanded {
            queue: line_in(said, 0),
            handed: line_in(said, 1),
        },
        other => said_by_host(line, other, said),
    }
}

/// What a line of a form says by which the host acts, and waits.
fn said_by_host(line: u64, form: Form, said: &[Said]) -> Statement
    ensures { is_of_host form ≡ true → result ≡ statement_in line form said.now }
{
    match form {
        Form::HostSignalLine => Statement::HostSignal {
            timeline: line_in(said, 0),
            value: number_in(said, 1),
        },
        Form::SawValueLine => Statement::SawValue {
            timeline: line_in(said, 0),
            value: number_in(said, 1),
        },
        Form::SawFenceLine => Statement::SawFence {
            fence: line_in(said, 0),
        },
        Form::IdleLine => Statement::WaitIdle {
            queue: line_in(said, 0),
        },
        Form::HostReadLine => Statement::HostAccess {
            access: access_in(AccessKind::Read, said, 0),
        },
        Form::HostWriteLine => Statement::HostAccess {
            access: access_in(AccessKind::Write, said, 0),
        },
        _ => Statement::Cut,
    }
}

/// What a line of a batch says by which it waits or signals, or ends.
fn said_of_semaphores(line: u64, form: Form, said: &[Said]) -> Statement
    ensures { is_of_semaphores form ≡ true → result ≡ statement_in line form said.now }
{
    match form {
        Form::WaitTimelineLine => Statement::WaitTimeline {
            timeline: line_in(said, 0),
            value: number_in(said, 1),
            scope: scope_in(said, 2),
        },
        Form::WaitBinaryLine => Statement::WaitBinary {
            semaphore: line_in(said, 0),
            scope: scope_in(said, 1),
        },
        Form::SignalTimelineLine => Statement::SignalTimeline {
            timeline: line_in(said, 0),
            value: number_in(said, 1),
            scope: scope_in(said, 2),
        },
        Form::SignalBinaryLine => Statement::SignalBinary {
            semaphore: line_in(said, 0),
            scope: scope_in(said, 1),
        },
        Form::BatchFenceLine => Statement::SignalFence {
            fence: line_in(said, 0),
        },
        _ => Statement::EndBatch,
    }
}

/// What a line of a batch says, or a cut.
fn said_inside(line: u64, form: Form, said: &[Said]) -> Statement
    ensures { is_outside form ≡ false → result ≡ statement_in line form said.now }
{
    match form {
        Form::CutLine => Statement::Cut,
        Form::ReadLine => Statement::CommandAccess {
            access: access_in(AccessKind::Read, said, 0),
            scope: scope_in(said, 3),
        },
        Form::WriteLine => Statement::CommandAccess {
            access: access_in(AccessKind::Write, said, 0),
            scope: scope_in(said, 3),
        },
        Form::NextLine => Statement::Next,
        Form::BarrierLine => Statement::Barrier {
            first: scope_in(said, 0),
            second: scope_in(said, 1),
        },
        Form::TransitionLine => Statement::Transition {
            first: scope_in(said, 0),
            second: scope_in(said, 1),
            access: access_in(AccessKind::Write, said, 2),
        },
        Form::SetLine => Statement::SetEvent {
            event: line_in(said, 0),
            scope: scope_in(said, 1),
        },
        Form::AwaitLine => Statement::AwaitEvent {
            event: line_in(said, 0),
            scope: scope_in(said, 1),
        },
        other => said_of_semaphores(line, other, said),
    }
}

/// What a line of a form says, at its number.
pub fn statement(line: u64, form: Form, said: &[Said]) -> Statement
    ensures { result ≡ statement_in line form said.now }
{
    match form {
        Form::CutLine
        | Form::ReadLine
        | Form::WriteLine
        | Form::NextLine
        | Form::BarrierLine
        | Form::TransitionLine
        | Form::SetLine
        | Form::AwaitLine
        | Form::WaitTimelineLine
        | Form::WaitBinaryLine
        | Form::SignalTimelineLine
        | Form::SignalBinaryLine
        | Form::BatchFenceLine
        | Form::EndLine => said_inside(line, form, said),
        other => said_outside(line, other, said),
    }
}
