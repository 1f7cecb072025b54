//! The words of signal operations and the names of queues, which stand in many lines, spelled once.
//!
//! Source: this project's own.
ghost use Rattle.std.specs.Prelude.{◌≡◌, ◌<◌, false, IfOk, IfSome, length};
ghost use Rattle.vq_model.specs.Naming.{queue_name};
ghost use Rattle.vq_replay.specs.Pieces.{IsPiece, Spell};
ghost use Rattle.vq_replay.specs.SpelledWords.{Spells, words_of_op};

use crate::digits::put_value;
use crate::pieces::{PIECE_ROOM, Piece, put_word};
use std::alloc::{AllocError, Global};
use vq_model::script::Script;
use vq_spec::Plan;
use vq_text::{queue_name, semaphore_name};

/// The most bytes of a name that has a piece.
const NAME_ROOM: usize = 16;

/// The most queues whose names are spelled. No script has as many.
const QUEUES: usize = 65_536;

/// The words of a plan that stand in many lines: of each signal operation its semaphore and its value, and the name of
/// each queue.
#[derive(Drop)]
pub(crate) struct Spelled {
    pub(crate) ops: Vec<Piece>,
    pub(crate) queues: Vec<Piece>,
    /// Whether the words are here: else nothing is.
    pub(crate) whole: bool,
}

impl Spelled {
    /// No words. It takes no memory.
    pub(crate) fn none(alloc: Global) -> Spelled
        ensures { result.whole ≡ false }
    {
        Spelled {
            ops: Vec::new(alloc),
            queues: Vec::new(alloc),
            whole: false,
        }
    }

    /// The words of a plan; none where a name is long. The error is want of memory.
    pub(crate) fn of(alloc: Global, plan: &Plan) -> Result<Spelled, AllocError>
        ensures { IfOk result (λ words. Spells plan.now words) }
    {
        let Some(ops) = op_pieces(alloc, plan)? else {
            return Ok(Spelled::none(alloc));
        };
        let Some(queues) = name_pieces(alloc, plan.script())? else {
            return Ok(Spelled::none(alloc));
        };
        Ok(Spelled {
            ops,
            queues,
            whole: true,
        })
    }
}

/// The words of a signal operation, if its semaphore has no long name.
fn op_piece(plan: &Plan, op: u32) -> Option<Piece>
    requires { op < length plan.now.ops }
    ensures { IfSome result (λ piece. IsPiece (words_of_op plan.now op) piece) }
{
    let found = plan.op(op);
    let name = semaphore_name(plan.script(), found.chain);
    if name.len() > NAME_ROOM {
        return None;
    }
    let mut bytes = [0; PIECE_ROOM];
    let at = put_word(&mut bytes, 0, b" ");
    let at = put_word(&mut bytes, at, name);
    let at = put_word(&mut bytes, at, b" ");
    let len = put_value(&mut bytes, at, found.value);
    Some(Piece { bytes, len })
}

/// The name of a queue, if it isn't long.
fn name_piece(script: &Script, queue: u32) -> Option<Piece>
    ensures { IfSome result (λ piece. IsPiece (queue_name script.now queue) piece) }
{
    let name = queue_name(script, queue);
    if name.len() > NAME_ROOM {
        return None;
    }
    let mut bytes = [0; PIECE_ROOM];
    let len = put_word(&mut bytes, 0, name);
    Some(Piece { bytes, len })
}

/// The words of all signal operations of a plan, if no name is long. The error is want of memory.
fn op_pieces(alloc: Global, plan: &Plan) -> Result<Option<Vec<Piece>>, AllocError>
    ensures { IfOk result (λ found. IfSome found (λ pieces. Spell (words_of_op plan.now) pieces.items)) }
{
    let mut pieces = Vec::with_capacity(alloc, plan.ops() as usize)?;
    for op in 0..plan.ops() {
        let Some(piece) = op_piece(plan, op) else {
            return Ok(None);
        };
        pieces.push(piece)?;
    }
    Ok(Some(pieces))
}

/// The names of all queues of a script, if none is long. The error is want of memory.
fn name_pieces(alloc: Global, script: &Script) -> Result<Option<Vec<Piece>>, AllocError>
    ensures { IfOk result (λ found. IfSome found (λ pieces. Spell (queue_name script.now) pieces.items)) }
{
    let queues = script.queues.as_slice().len();
    if queues > QUEUES {
        return Ok(None);
    }
    let mut pieces = Vec::with_capacity(alloc, queues)?;
    for queue in 0..queues {
        let Some(piece) = name_piece(script, queue as u32) else {
            return Ok(None);
        };
        pieces.push(piece)?;
    }
    Ok(Some(pieces))
}
