//! What crosses to C of answers and of signal operations.
//!
//! Source: this project's own.
ghost use Rattle.std.specs.Prelude.{◌≡◌, IfOk, length, map};
ghost use Rattle.vq_face.specs.Rows.{fit_reply, op_reply, op_row, op_told, row_of, with_front_of};

use crate::kinds::answer_code;
use crate::reply::Reply;
use crate::turn::answer_number;
use std::alloc::{AllocError, Global};
use vq_model::plan::{AnswerLine, Op};

/// What a step of the host was answered: the step's line, the code of the answer, and the payload that was read.
#[repr(C)]
#[derive(Clone, Copy)]
pub struct AnswerRow {
    pub line: u32,
    pub kind: u32,
    pub value: u64,
}

/// A signal operation: the chain that it is of and its place there, its job and line, and the payload that it sets.
#[repr(C)]
#[derive(Clone, Copy)]
pub struct OpRow {
    pub chain: u32,
    pub index: u32,
    pub job: u32,
    pub line: u32,
    pub value: u64,
}

fn row_of(line: AnswerLine) -> AnswerRow
    ensures { result ≡ row_of line }
{
    AnswerRow {
        line: line.line,
        kind: answer_code(line.answer),
        value: answer_number(line.answer),
    }
}

/// What crosses of answers. The error is want of memory.
pub fn rows_of(alloc: Global, lines: &[AnswerLine]) -> Result<Vec<AnswerRow>, AllocError>
    ensures { IfOk result (λ rows. rows.items ≡ map row_of lines.now) }
{
    let mut rows = Vec::new(alloc);
    for line in lines {
        rows.push(row_of(*line))?;
    }
    Ok(rows)
}

/// Writes as many rows to the front of a room as go into it.
pub fn put_rows(rows: &[AnswerRow], room: &mut [AnswerRow])
    ensures { room.new ≡ with_front_of rows.now room.old }
{
    let count = rows.len().min(room.len());
    room[..count].copy_from_slice(&rows[..count]);
}

/// Whether so many items went into so much room.
pub fn fit_reply(items: usize, room: usize) -> Reply
    ensures { result ≡ fit_reply items room }
{
    if items <= room {
        Reply::Done
    } else {
        Reply::NoRoom
    }
}

fn op_row(op: Op) -> OpRow
    ensures { result ≡ op_row op }
{
    OpRow {
        chain: op.chain,
        index: op.index,
        job: op.job,
        line: op.line,
        value: op.value,
    }
}

/// Tells a signal operation, if it is there.
pub fn tell_op(found: Option<Op>, row: &mut OpRow)
    ensures { row.new ≡ op_told found row.old }
{
    if let Some(op) = found {
        *row = op_row(op);
    }
}

/// What a call answers that asked for a signal operation.
pub fn op_reply(found: Option<Op>) -> Reply
    ensures { result ≡ op_reply found }
{
    match found {
        None => Reply::NoOp,
        Some(_) => Reply::Done,
    }
}
