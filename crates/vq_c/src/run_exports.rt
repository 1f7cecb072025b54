//! What C calls on a handle.
//!
//! Source: this project's own.
ghost use Rattle.std.specs.Prelude.{◌≡◌};
ghost use Rattle.vq_c.specs.Answers.{AreRowsOf, IsUntold, answers_in};
ghost use Rattle.vq_c.specs.Asked.{HasAnswered, HasReplied, HasToldOp, count_in, line_in};
ghost use Rattle.vq_c.specs.Bytes.{IsRead, IsUnread};
ghost use Rattle.vq_c.specs.Turns.{HasTurned, HasTurnedOf, IsTold};
ghost use Rattle.vq_face.specs.Rows.{HasPut};

use crate::calls::{acted, counted, found_op, lined, looked, played, read, told};
use crate::handle::Handle;
use std::alloc::Global;
use vq_face::{
    AnswerRow, OpRow, Reply, Turn, fit_reply, op_reply, put, put_rows, reply_code, reply_of,
    tell_op, told as turn_told,
};
use vq_turns::outcome::Outcome;

/// Tells what came of a turn, and gives its code.
fn tell(came: Result<Outcome, Reply>, turn: &mut Turn) -> u32
    ensures { IsTold came turn.old turn.new result }
{
    match came {
        Ok(outcome) => {
            *turn = turn_told(outcome, *turn);
            reply_code(reply_of(outcome))
        }
        Err(reply) => reply_code(reply),
    }
}

/// A turn of the actor that is held: the code says whether it moved, is blocked or has ended, and `turn` with what.
#[unsafe(no_mangle)]
pub extern "C" fn vq_turn(actor: &mut Handle, turn: &mut Turn) -> u32
    ensures { HasAnswered (λ o p. HasTurned o p turn.old turn.new result) (turn.new ≡ turn.old)
        actor.old.value actor.new.value result }
{
    match acted(actor.slot()) {
        Some(came) => tell(came, turn),
        None => reply_code(Reply::NoHandle),
    }
}

/// A turn of the actor with a number, of the run that is held.
#[unsafe(no_mangle)]
pub extern "C" fn vq_turn_of(run: &mut Handle, actor: u32, turn: &mut Turn) -> u32
    ensures { HasAnswered (λ o p. HasTurnedOf o p actor turn.old turn.new result) (turn.new ≡ turn.old)
        run.old.value run.new.value result }
{
    match played(run.slot(), actor) {
        Some(came) => tell(came, turn),
        None => reply_code(Reply::NoHandle),
    }
}

/// How many numbers actors have, 0 where nothing is open: 0 is the host's, and of queue q 2q + 1 its submit actor's and
/// 2q + 2 its ring's.
#[unsafe(no_mangle)]
pub extern "C" fn vq_actors(handle: &mut Handle) -> u64
    ensures same { handle.new.value ≡ handle.old.value }
    ensures count { result ≡ count_in handle.old.value }
{
    counted(handle.slot())
}

/// The line of a job, 0 where there is none or nothing is open.
#[unsafe(no_mangle)]
pub extern "C" fn vq_line(handle: &mut Handle, job: u32) -> u32
    ensures same { handle.new.value ≡ handle.old.value }
    ensures line { result ≡ line_in handle.old.value job }
{
    lined(handle.slot(), job)
}

/// A signal operation.
#[unsafe(no_mangle)]
pub extern "C" fn vq_op(handle: &mut Handle, op: u32, row: &mut OpRow) -> u32
    ensures { HasAnswered (λ o p. HasToldOp o op p row.old row.new result) (row.new ≡ row.old)
        handle.old.value handle.new.value result }
{
    let Some(found) = found_op(handle.slot(), op) else {
        return reply_code(Reply::NoHandle);
    };
    tell_op(found, row);
    reply_code(op_reply(found))
}

/// Whether all jobs are finished. Of a run over a board the host sees that, once its program has ended.
#[unsafe(no_mangle)]
pub extern "C" fn vq_finished(handle: &mut Handle) -> u32
    ensures { HasAnswered (λ o p. HasReplied o p result) Unit handle.old.value handle.new.value result }
{
    match looked(handle.slot()) {
        Some(reply) => reply_code(reply),
        None => reply_code(Reply::NoHandle),
    }
}

/// What the steps of the host were answered so far, in the order of the script: as many rows as go into the room, and
/// how many there are.
#[unsafe(no_mangle)]
pub extern "C" fn vq_answers(
    alloc: Global,
    handle: &mut Handle,
    room: &mut [AnswerRow],
    needed: &mut usize,
) -> u32
    ensures { HasAnswered (λ o p. (p ≡ o) × HasPut (AreRowsOf (answers_in o)) (IsUntold o)
        room.old room.new needed.old needed.new result) ((room.new ≡ room.old) × (needed.new ≡ needed.old))
        handle.old.value handle.new.value result }
{
    match told(handle.slot(), alloc) {
        Some(Ok(rows)) => {
            *needed = rows.len();
            put_rows(rows.as_slice(), room);
            reply_code(fit_reply(rows.len(), room.len()))
        }
        Some(Err(reply)) => reply_code(reply),
        None => reply_code(Reply::NoHandle),
    }
}

/// The bytes of a buffer, once all jobs are finished, and of a run over a board once no other actor of it is open: as
/// many as go into the room, and how many there are.
#[unsafe(no_mangle)]
pub extern "C" fn vq_bytes(
    alloc: Global,
    handle: &mut Handle,
    buffer: u32,
    room: &mut [u8],
    needed: &mut usize,
) -> u32
    ensures { HasAnswered (λ o p. HasPut (IsRead o p buffer) (IsUnread o p buffer)
        room.old room.new needed.old needed.new result) ((room.new ≡ room.old) × (needed.new ≡ needed.old))
        handle.old.value handle.new.value result }
{
    match read(handle.slot(), alloc, buffer) {
        Some(Ok(bytes)) => {
            *needed = bytes.len();
            put(bytes.as_slice(), room);
            reply_code(fit_reply(bytes.len(), room.len()))
        }
        Some(Err(reply)) => reply_code(reply),
        None => reply_code(Reply::NoHandle),
    }
}
