//! What a line says, before it is kept: nothing is copied yet.
ghost use Rattle.std.specs.Prelude.{◌≡◌, true, false, IfSome};
ghost use Rattle.std.specs.Option.{option_map};
ghost use Rattle.vq_model.specs.Forms.{BinaryName};
ghost use Rattle.vq_model.specs.declared.statement.LineForm.{LineForm as Form};
ghost use Rattle.vq_model.specs.Meaning.{binary_pair};
ghost use Rattle.vq_script.specs.LineTests.{number_of};
ghost use Rattle.vq_script.specs.Holds.{Kept, kept};
ghost use Rattle.vq_forms.specs.OpenWords.{opens};
ghost use Rattle.vq_script.specs.SaidLines.{AreEach, Fits, IsWhollyRead, Says, Suits};
ghost use Rattle.vq_script.specs.SaidLines.{is_batch_line, is_schedule_line, is_host_line, is_version_form};
ghost use Rattle.vq_model.specs.LineFaults.{is_declaration, part_of_form};

use crate::host_steps::{SaidStep, is_pairs_line, pair, pairs_line, step_line};
use crate::known::Known;
use vq_forms::Token;
use vq_lexer::{is_hex, numeral, small_numeral};
use vq_model::script::{ActorName, Mode, Pair, SemaphoreKind};
use vq_model::statement::LineForm;

/// What a line says. Its numbers may be too large yet.
#[derive(Clone, Copy)]
pub enum Said<'a> {
    Buffer {
        name: &'a [u8],
        size: u64,
    },
    Semaphore {
        name: &'a [u8],
        kind: SemaphoreKind,
    },
    Queue {
        name: &'a [u8],
        mode: Mode,
    },
    Submit {
        queue: u32,
    },
    /// A wait, and the place of its batch's commands from which on it holds back.
    Wait {
        pair: Pair,
        from: u64,
    },
    FillWhole {
        buffer: u32,
        offset: u64,
        word: u32,
    },
    Fill {
        buffer: u32,
        offset: u64,
        size: u64,
        word: u32,
    },
    Update {
        buffer: u32,
        offset: u64,
        digits: &'a [u8],
    },
    Copy {
        source: u32,
        source_offset: u64,
        target: u32,
        target_offset: u64,
        size: u64,
    },
    Signal {
        pair: Pair,
    },
    Fence {
        fence: u32,
    },
    End,
    Host {
        step: SaidStep<'a>,
    },
    Schedule,
    Turns {
        actor: ActorName,
        count: u64,
    },
}

/// What a line says that declares, where its numbers are read.
fn declaration<'a>(form: LineForm, words: &[&'a [u8]]) -> Option<Said<'a>>
    requires each { AreEach form words.now }
    requires declares { is_declaration form ≡ true }
    ensures says { (k : Kept) → Says k form (opens form words.now) result }
    ensures suits { IfSome result (Suits form (opens form words.now)) }
{
    match (form, words) {
        (LineForm::BufferLine, [_, name, size]) => Some(Said::Buffer {
            name: *name,
            size: numeral(size)?,
        }),
        (LineForm::TimelineLine, [_, name, value]) => Some(Said::Semaphore {
            name: *name,
            kind: SemaphoreKind::Timeline(numeral(value)?),
        }),
        (LineForm::BinaryLine, [_, name]) => Some(Said::Semaphore {
            name: *name,
            kind: SemaphoreKind::Binary,
        }),
        (LineForm::FenceLine, [_, name]) => Some(Said::Semaphore {
            name: *name,
            kind: SemaphoreKind::Fence,
        }),
        (LineForm::QueueLine(mode), [_, name, _]) => Some(Said::Queue { name: *name, mode }),
        _ => unreachable!(),
    }
}

/// What a fill of a whole buffer says, where its numbers and names are read.
fn fill_whole<'a>(known: &Known, words: &[&'a [u8]]) -> Option<Said<'a>>
    requires { AreEach Form.FillWholeLine words.now }
    ensures says { Says (kept known.now) Form.FillWholeLine (opens Form.FillWholeLine words.now) result }
    ensures suits { IfSome result (Suits Form.FillWholeLine (opens Form.FillWholeLine words.now)) }
{
    let [_, buffer, offset, _, word] = words else {
        unreachable!();
    };
    Some(Said::FillWhole {
        buffer: known.number_of(Token::BufferToken, buffer)?,
        offset: numeral(offset)?,
        word: small_numeral(word)?,
    })
}

/// What a fill of a part of a buffer says, where its numbers and names are read.
#[inline(always)]
fn fill<'a>(known: &Known, words: &[&'a [u8]]) -> Option<Said<'a>>
    requires { AreEach Form.FillLine words.now }
    ensures says { Says (kept known.now) Form.FillLine (opens Form.FillLine words.now) result }
    ensures suits { IfSome result (Suits Form.FillLine (opens Form.FillLine words.now)) }
{
    let [_, buffer, offset, size, word] = words else {
        unreachable!();
    };
    Some(Said::Fill {
        buffer: known.number_of(Token::BufferToken, buffer)?,
        offset: numeral(offset)?,
        size: numeral(size)?,
        word: small_numeral(word)?,
    })
}

/// What an update says, where its digits, its numbers and names are read.
fn update<'a>(known: &Known, words: &[&'a [u8]]) -> Option<Said<'a>>
    requires { AreEach Form.UpdateLine words.now }
    ensures says { Says (kept known.now) Form.UpdateLine (opens Form.UpdateLine words.now) result }
    ensures suits { IfSome result (Suits Form.UpdateLine (opens Form.UpdateLine words.now)) }
{
    let [_, buffer, offset, digits] = words else {
        unreachable!();
    };
    if !is_hex(digits) {
        return None;
    }
    Some(Said::Update {
        buffer: known.number_of(Token::BufferToken, buffer)?,
        offset: numeral(offset)?,
        digits: *digits,
    })
}

/// What a copy says, where its numbers and names are read.
#[inline(always)]
fn copy<'a>(known: &Known, words: &[&'a [u8]]) -> Option<Said<'a>>
    requires { AreEach Form.CopyLine words.now }
    ensures says { Says (kept known.now) Form.CopyLine (opens Form.CopyLine words.now) result }
    ensures suits { IfSome result (Suits Form.CopyLine (opens Form.CopyLine words.now)) }
{
    let [_, source, from, target, to, size] = words else {
        unreachable!();
    };
    Some(Said::Copy {
        source: known.number_of(Token::BufferToken, source)?,
        source_offset: numeral(from)?,
        target: known.number_of(Token::BufferToken, target)?,
        target_offset: numeral(to)?,
        size: numeral(size)?,
    })
}

/// The pair of a binary semaphore's name, where it is read.
fn binary_pair(known: &Known, semaphore: &[u8]) -> Option<Pair>
    ensures { result ≡ option_map binary_pair (number_of (kept known.now) BinaryName semaphore.now) }
{
    Some(Pair {
        semaphore: known.number_of(Token::BinaryToken, semaphore)?,
        value: 0,
    })
}

/// What a line says that is a wait, where its numbers and names are read. A wait that names no place holds
/// back its whole batch.
#[inline(always)]
fn wait<'a>(known: &Known, form: LineForm, words: &[&'a [u8]]) -> Option<Said<'a>>
    requires each { AreEach form words.now }
    requires part { part_of_form form ≡ 1 }
    ensures says { Says (kept known.now) form (opens form words.now) result }
    ensures suits { IfSome result (Suits form (opens form words.now)) }
{
    match (form, words) {
        (LineForm::WaitTimelineLine, [_, timeline, value]) => Some(Said::Wait {
            pair: pair(known, timeline, value)?,
            from: 1,
        }),
        (LineForm::WaitBinaryLine, [_, semaphore]) => Some(Said::Wait {
            pair: binary_pair(known, semaphore)?,
            from: 1,
        }),
        (LineForm::HeldTimelineLine, [_, timeline, value, _, place]) => Some(Said::Wait {
            pair: pair(known, timeline, value)?,
            from: numeral(place)?,
        }),
        (LineForm::HeldBinaryLine, [_, semaphore, _, place]) => Some(Said::Wait {
            pair: Pair {
                semaphore: known.number_of(Token::BinaryToken, semaphore)?,
                value: 0,
            },
            from: numeral(place)?,
        }),
        _ => unreachable!(),
    }
}

/// What a line says that begins a batch or ends it, or names what it signals, where its numbers and names
/// are read.
#[inline(always)]
fn batch_line<'a>(known: &Known, form: LineForm, words: &[&'a [u8]]) -> Option<Said<'a>>
    requires each { AreEach form words.now }
    requires part { is_batch_line form ≡ true }
    ensures says { Says (kept known.now) form (opens form words.now) result }
    ensures suits { IfSome result (Suits form (opens form words.now)) }
{
    match (form, words) {
        (LineForm::SubmitLine, [_, queue]) => Some(Said::Submit {
            queue: known.number_of(Token::QueueToken, queue)?,
        }),
        (LineForm::SignalTimelineLine, [_, timeline, value]) => Some(Said::Signal {
            pair: pair(known, timeline, value)?,
        }),
        (LineForm::SignalBinaryLine, [_, semaphore]) => Some(Said::Signal {
            pair: binary_pair(known, semaphore)?,
        }),
        (LineForm::BatchFenceLine, [_, fence]) => Some(Said::Fence {
            fence: known.number_of(Token::FenceToken, fence)?,
        }),
        (LineForm::EndLine, [_]) => Some(Said::End),
        _ => unreachable!(),
    }
}

/// What a line of the schedule says, or the line that begins it, where its numbers and names are
/// read. An actor alone takes one turn.
#[inline(always)]
fn schedule_line<'a>(known: &Known, form: LineForm, words: &[&'a [u8]]) -> Option<Said<'a>>
    requires each { AreEach form words.now }
    requires part { is_schedule_line form ≡ true }
    ensures says { Says (kept known.now) form (opens form words.now) result }
    ensures suits { IfSome result (Suits form (opens form words.now)) }
{
    match (form, words) {
        (LineForm::ScheduleLine, [_]) => Some(Said::Schedule),
        (LineForm::TurnLine, [actor]) => Some(Said::Turns {
            actor: known.actor(actor)?,
            count: 1,
        }),
        (LineForm::TurnsLine, [actor, count]) => Some(Said::Turns {
            actor: known.actor(actor)?,
            count: numeral(count)?,
        }),
        _ => unreachable!(),
    }
}

/// What a line of the host says, where its numbers and names are read.
fn host_line<'a>(known: &Known, form: LineForm, words: &'a [&'a [u8]]) -> Option<Said<'a>>
    requires fits { Fits form words.now }
    requires part { is_host_line form ≡ true }
    ensures says { Says (kept known.now) form (opens form words.now) result }
    ensures suits { IfSome result (Suits form (opens form words.now)) }
    ensures read { IfSome result (IsWhollyRead (kept known.now)) }
{
    let step = if is_pairs_line(form) {
        pairs_line(known, form, words)?
    } else {
        step_line(known, form, words)?
    };
    Some(Said::Host { step })
}

/// What a line of a form says, where its numbers and names are read.
#[inline(always)]
pub fn statement_of<'a>(known: &Known, form: LineForm, words: &'a [&'a [u8]]) -> Option<Said<'a>>
    requires fits { Fits form words.now }
    requires later { is_version_form form ≡ false }
    ensures says { Says (kept known.now) form (opens form words.now) result }
    ensures suits { IfSome result (Suits form (opens form words.now)) }
    ensures read { IfSome result (IsWhollyRead (kept known.now)) }
{
    match form {
        LineForm::VersionLine => unreachable!(),
        LineForm::BufferLine
        | LineForm::TimelineLine
        | LineForm::BinaryLine
        | LineForm::FenceLine
        | LineForm::QueueLine(_) => declaration(form, words),
        LineForm::WaitTimelineLine
        | LineForm::WaitBinaryLine
        | LineForm::HeldTimelineLine
        | LineForm::HeldBinaryLine => wait(known, form, words),
        LineForm::FillWholeLine => fill_whole(known, words),
        LineForm::FillLine => fill(known, words),
        LineForm::UpdateLine => update(known, words),
        LineForm::CopyLine => copy(known, words),
        LineForm::SubmitLine
        | LineForm::SignalTimelineLine
        | LineForm::SignalBinaryLine
        | LineForm::BatchFenceLine
        | LineForm::EndLine => batch_line(known, form, words),
        LineForm::ScheduleLine | LineForm::TurnLine | LineForm::TurnsLine => {
            schedule_line(known, form, words)
        }
        LineForm::HostSignalLine
        | LineForm::HostWaitAllLine
        | LineForm::HostWaitAnyLine
        | LineForm::HostPollAllLine
        | LineForm::HostPollAnyLine
        | LineForm::HostReadLine
        | LineForm::HostFenceWaitLine
        | LineForm::HostFencePollLine
        | LineForm::HostFenceResetLine
        | LineForm::HostIdleLine => host_line(known, form, words),
    }
}
