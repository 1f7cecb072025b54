//! The verdict on what a source has, written to a sink.
ghost use Rattle.std.specs.Prelude.{◌≡◌, ◌<◌, ◌≤◌, IfOk, IsErrOf, length};
ghost use Rattle.vq_port.specs.Faults.{Rose};
ghost use Rattle.vq_capture_judge.specs.Feeding.{CameBehind, SaysOf};
ghost use Rattle.vq_capture_judge.specs.Endings.{JudgesAs, Says, status_of};
ghost use Rattle.vq_capture_judge.specs.declared.top.Unsaid.TheVariants.{Failed as ReadingFailed};

use crate::feed::{Fed, feed};
use crate::line_judge::Judge;
use crate::status::JudgeStatus;
use crate::texts::verdict_text;
use std::alloc::{AllocError, Global};
use vq_capture::capture::Verdict;
use vq_port::{Failed, Sink, Source, write_whole};

/// The most bytes that are asked for at once.
const PIECE: usize = 65_536;

/// Why no verdict was found.
#[derive(Clone, Copy, Debug, PartialEq, Eq)]
pub enum Unsaid {
    /// A read failed, and the source counted a fault.
    Failed,
    /// Want of memory.
    Memory,
}

impl From<Failed> for Unsaid {
    ghost from_gives = { λ _ unsaid. unsaid ≡ ReadingFailed };

    fn from(_: Failed) -> Unsaid {
        Unsaid::Failed
    }
}

impl From<AllocError> for Unsaid {
    ghost use Rattle.vq_capture_judge.specs.declared.top.Unsaid.TheVariants.{Memory};

    ghost from_gives = { λ _ unsaid. unsaid ≡ Memory };

    fn from(_: AllocError) -> Unsaid {
        Unsaid::Memory
    }
}

/// Room for a piece.
fn new_room(alloc: Global) -> Result<Vec<u8>, AllocError>
    ensures { IfOk result (λ room. 0 < length room.items) }
{
    Ok(vec![in alloc; 0; PIECE]?)
}

/// Reads once, and puts what came behind what is left. It says whether anything came.
fn read_more<S: Source>(
    source: &mut S,
    piece: &mut [u8],
    left: &mut Vec<u8>,
) -> Result<bool, Unsaid>
    requires { 0 < length piece.old }
    ensures more { IfOk result (λ came. CameBehind came left.old.items left.new.items
        (S.left source.old) (S.left source.new)) }
    ensures counted { S.faults source.old ≤ S.faults source.new }
    ensures failed { IsErrOf result ReadingFailed → Rose (S.faults source.old) (S.faults source.new) }
{
    let count = source.read(piece)?;
    if count == 0 {
        return Ok(false);
    }
    left.extend_from_slice(&piece[..count])?;
    Ok(true)
}

/// Reads a source until its verdict is known.
fn read_verdict<S: Source>(
    alloc: Global,
    source: &mut S,
    piece: &mut [u8],
) -> Result<Verdict, Unsaid>
    requires { 0 < length piece.old }
    ensures said { IfOk result (SaysOf (S.left source.old)) }
    ensures counted { S.faults source.old ≤ S.faults source.new }
    ensures failed { IsErrOf result ReadingFailed → Rose (S.faults source.old) (S.faults source.new) }
{
    let mut judge = Judge::new(alloc);
    let mut left: Vec<u8> = Vec::new(alloc);
    for _ in 0..u64::MAX {
        if !read_more(source, piece, &mut left)? {
            return Ok(Verdict::Ordered);
        }
        let rest = match feed(alloc, &mut judge, &left)? {
            Fed::Says(verdict) => return Ok(verdict),
            Fed::Left(rest) => Vec::from_slice(alloc, rest)?,
        };
        left = rest;
    }
    Err(Unsaid::Memory)
}

/// Takes room for a piece, and reads a source until its verdict is known.
fn find_verdict<S: Source>(alloc: Global, source: &mut S) -> Result<Verdict, Unsaid>
    ensures said { IfOk result (SaysOf (S.left source.old)) }
    ensures counted { S.faults source.old ≤ S.faults source.new }
    ensures failed { IsErrOf result ReadingFailed → Rose (S.faults source.old) (S.faults source.new) }
{
    let mut room = new_room(alloc)?;
    read_verdict(alloc, source, room.as_mut_slice())
}

/// How a judgement ends that says a verdict.
fn status_of(verdict: Verdict) -> JudgeStatus
    ensures { result ≡ status_of verdict }
{
    match verdict {
        Verdict::Ordered => JudgeStatus::Ordered,
        Verdict::Race { .. } => JudgeStatus::Refused,
        Verdict::Faulty { .. } => JudgeStatus::Refused,
    }
}

/// Writes a verdict.
fn say<K: Sink>(alloc: Global, verdict: Verdict, sink: &mut K) -> JudgeStatus
    ensures { Says verdict (K.written sink.old) (K.faults sink.old) (K.written sink.new) (K.faults sink.new) result }
{
    let Ok(text) = verdict_text(alloc, verdict) else {
        return JudgeStatus::Memory;
    };
    match write_whole(sink, &text) {
        Ok(()) => status_of(verdict),
        Err(_) => JudgeStatus::WriteFault,
    }
}

/// Judges the capture that a source has: it reads as far as it must, and writes the verdict in a line.
pub fn judge<S: Source, K: Sink>(alloc: Global, source: &mut S, sink: &mut K) -> JudgeStatus
    ensures headline { JudgesAs result
        (record {
          left = S.left source.old;
          read_faults = S.faults source.old;
          written = K.written sink.old;
          write_faults = K.faults sink.old;
        })
        (record {
          left = S.left source.new;
          read_faults = S.faults source.new;
          written = K.written sink.new;
          write_faults = K.faults sink.new;
        }) }
{
    match find_verdict(alloc, source) {
        Ok(verdict) => say(alloc, verdict, sink),
        Err(Unsaid::Failed) => JudgeStatus::ReadFault,
        Err(Unsaid::Memory) => JudgeStatus::Memory,
    }
}
