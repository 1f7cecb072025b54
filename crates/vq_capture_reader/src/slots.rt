//! What stands at the places of a line, behind its first word.
ghost use Rattle.std.specs.Prelude.{◌≡◌, false, map};
ghost use Rattle.vq_capture.specs.LineForms.{places};
ghost use Rattle.vq_capture_reader.specs.Slots.{is_outside, place};

use vq_capture::form::Form;
use vq_capture::statement::Kind;

/// What stands at a place.
#[derive(Clone, Copy)]
pub enum Slot {
    /// A name that is declared there.
    New,
    /// A name of a kind.
    Of(Kind),
    /// The name of a thread, which may be new.
    OfThread,
    /// A name that ends.
    Ended,
    Number,
    Scope,
    /// Stages, of which there is one.
    AccessScope,
}

/// The places of a line of a form, behind its first word.
pub fn slots(form: Form) -> &'static [Slot]
    ensures { map place result.now ≡ places form }
{
    match form {
        Form::QueueLine => &[Slot::New],
        Form::BinaryLine => &[Slot::New],
        Form::FenceLine => &[Slot::New],
        Form::EventLine => &[Slot::New],
        Form::TimelineLine => &[Slot::New, Slot::Number],
        Form::ResourceLine => &[Slot::New, Slot::Number],
        Form::GoneLine => &[Slot::Ended],
        Form::ThreadLine => &[Slot::OfThread],
        Form::AfterLine => &[Slot::Of(Kind::Thread)],
        Form::SubmitLine => &[Slot::Of(Kind::Queue)],
        Form::HandLine => &[Slot::New],
        Form::SubmitHandedLine => &[Slot::Of(Kind::Queue), Slot::Of(Kind::Handed)],
        Form::HostSignalLine => &[Slot::Of(Kind::Timeline), Slot::Number],
        Form::SawValueLine => &[Slot::Of(Kind::Timeline), Slot::Number],
        Form::SawFenceLine => &[Slot::Of(Kind::Fence)],
        Form::IdleLine => &[Slot::Of(Kind::Queue)],
        Form::HostReadLine => &[Slot::Of(Kind::Resource), Slot::Number, Slot::Number],
        Form::HostWriteLine => &[Slot::Of(Kind::Resource), Slot::Number, Slot::Number],
        other => batch_slots(other),
    }
}

/// The places of a line of a batch, or of a cut, behind its first word.
fn batch_slots(form: Form) -> &'static [Slot]
    ensures { is_outside form ≡ false → map place result.now ≡ places form }
{
    match form {
        Form::WaitTimelineLine => &[Slot::Of(Kind::Timeline), Slot::Number, Slot::Scope],
        Form::WaitBinaryLine => &[Slot::Of(Kind::Binary), Slot::Scope],
        Form::ReadLine => &[
            Slot::Of(Kind::Resource),
            Slot::Number,
            Slot::Number,
            Slot::AccessScope,
        ],
        Form::WriteLine => &[
            Slot::Of(Kind::Resource),
            Slot::Number,
            Slot::Number,
            Slot::AccessScope,
        ],
        Form::BarrierLine => &[Slot::Scope, Slot::Scope],
        Form::TransitionLine => &[
            Slot::Scope,
            Slot::Scope,
            Slot::Of(Kind::Resource),
            Slot::Number,
            Slot::Number,
        ],
        Form::SetLine => &[Slot::Of(Kind::Event), Slot::Scope],
        Form::AwaitLine => &[Slot::Of(Kind::Event), Slot::Scope],
        Form::SignalTimelineLine => &[Slot::Of(Kind::Timeline), Slot::Number, Slot::Scope],
        Form::SignalBinaryLine => &[Slot::Of(Kind::Binary), Slot::Scope],
        Form::BatchFenceLine => &[Slot::Of(Kind::Fence)],
        Form::CutLine => &[],
        Form::NextLine => &[],
        Form::EndLine => &[],
        _ => &[],
    }
}
