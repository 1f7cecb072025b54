//! The forms of lines as a table: for each form what stands at its places.
ghost use Rattle.std.specs.Prelude.{◌≡◌};
ghost use Rattle.vq_model.specs.Forms.{places};
ghost use Rattle.vq_model.specs.LineFaults.{part_of_form, is_declaration};
ghost use Rattle.vq_forms.specs.Table.{places_of, are_pairs};

use crate::table::Token::{
    ActorToken, BinaryToken, BufferToken, Digits, FenceToken, Name, Number, PairTokens, QueueToken,
    SmallNumber, TimelineToken, Word,
};
use vq_model::script::Mode;
use vq_model::statement::LineForm;
use vq_model::statement::LineForm::{
    BatchFenceLine, BinaryLine, BufferLine, CopyLine, EndLine, FenceLine, FillLine, FillWholeLine,
    HeldBinaryLine, HeldTimelineLine, HostFencePollLine, HostFenceResetLine, HostFenceWaitLine,
    HostIdleLine, HostPollAllLine, HostPollAnyLine, HostReadLine, HostSignalLine, HostWaitAllLine,
    HostWaitAnyLine, QueueLine, ScheduleLine, SignalBinaryLine, SignalTimelineLine, SubmitLine,
    TimelineLine, TurnLine, TurnsLine, UpdateLine, VersionLine, WaitBinaryLine, WaitTimelineLine,
};

/// What stands at a place of a line.
#[derive(Clone, Copy)]
pub enum Token {
    Word(&'static str),
    Name,
    BufferToken,
    TimelineToken,
    BinaryToken,
    FenceToken,
    QueueToken,
    /// Of an actor's word: no line has it.
    ThreadedToken,
    Number,
    SmallNumber,
    Digits,
    ActorToken,
    PairTokens,
}

/// The places of a form.
pub fn places(form: LineForm) -> &'static [Token]
    ensures { places_of result.now ≡ places form }
{
    match form {
        VersionLine => &[Word("version"), Word("2")],
        BufferLine => &[Word("buffer"), Name, Number],
        TimelineLine => &[Word("timeline"), Name, Number],
        BinaryLine => &[Word("binary"), Name],
        FenceLine => &[Word("fence"), Name],
        QueueLine(Mode::Immediate) => &[Word("queue"), Name, Word("immediate")],
        QueueLine(Mode::Deferred) => &[Word("queue"), Name, Word("deferred")],
        QueueLine(Mode::Threaded) => &[Word("queue"), Name, Word("threaded")],
        SubmitLine => &[Word("submit"), QueueToken],
        HostSignalLine => &[Word("host"), Word("signal"), TimelineToken, Number],
        HostWaitAllLine => &[Word("host"), Word("wait"), Word("all"), PairTokens],
        HostWaitAnyLine => &[Word("host"), Word("wait"), Word("any"), PairTokens],
        HostPollAllLine => &[Word("host"), Word("poll"), Word("all"), PairTokens],
        HostPollAnyLine => &[Word("host"), Word("poll"), Word("any"), PairTokens],
        HostReadLine => &[Word("host"), Word("read"), TimelineToken],
        HostFenceWaitLine => &[Word("host"), Word("fence"), Word("wait"), FenceToken],
        HostFencePollLine => &[Word("host"), Word("fence"), Word("poll"), FenceToken],
        HostFenceResetLine => &[Word("host"), Word("fence"), Word("reset"), FenceToken],
        HostIdleLine => &[Word("host"), Word("idle")],
        ScheduleLine => &[Word("schedule")],
        WaitTimelineLine => &[Word("wait"), TimelineToken, Number],
        WaitBinaryLine => &[Word("wait"), BinaryToken],
        HeldTimelineLine => &[Word("wait"), TimelineToken, Number, Word("from"), Number],
        HeldBinaryLine => &[Word("wait"), BinaryToken, Word("from"), Number],
        FillWholeLine => &[
            Word("fill"),
            BufferToken,
            Number,
            Word("whole"),
            SmallNumber,
        ],
        FillLine => &[Word("fill"), BufferToken, Number, Number, SmallNumber],
        UpdateLine => &[Word("update"), BufferToken, Number, Digits],
        CopyLine => &[
            Word("copy"),
            BufferToken,
            Number,
            BufferToken,
            Number,
            Number,
        ],
        SignalTimelineLine => &[Word("signal"), TimelineToken, Number],
        SignalBinaryLine => &[Word("signal"), BinaryToken],
        BatchFenceLine => &[Word("fence"), FenceToken],
        EndLine => &[Word("end")],
        TurnLine => &[ActorToken],
        TurnsLine => &[ActorToken, Number],
    }
}

/// The part of a batch to which a line belongs: 1 for its waits, 2 for its commands, 3 for its signals,
/// 4 for its fence, 5 for its end; a line of no batch has part 0.
#[inline(always)]
pub fn part_of_form(form: LineForm) -> u32
    ensures { result ≡ part_of_form form }
{
    match form {
        WaitTimelineLine | WaitBinaryLine | HeldTimelineLine | HeldBinaryLine => 1,
        FillWholeLine | FillLine | UpdateLine | CopyLine => 2,
        SignalTimelineLine | SignalBinaryLine => 3,
        BatchFenceLine => 4,
        EndLine => 5,
        _ => 0,
    }
}

/// Whether a form declares.
pub fn is_declaration(form: LineForm) -> bool
    ensures { result ≡ is_declaration form }
{
    matches!(
        form,
        BufferLine | TimelineLine | BinaryLine | FenceLine | QueueLine(_)
    )
}

/// Whether pairs alone are left of places.
pub fn are_pairs(places: &[Token]) -> bool
    ensures { result ≡ are_pairs (places_of places.now) }
{
    matches!(places, [Token::PairTokens])
}
