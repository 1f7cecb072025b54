//! The room for a run's text, which is taken before the run begins.
//!
//! Source: this project's own, where an item names no other.
ghost use Rattle.std.specs.Prelude.{◌≡◌, ◌≤◌, ◌<◌, ◌*◌, ◌^◌, ◌++◌, IfOk, if◌then◌else◌, length};
ghost use Rattle.vq_model.specs.FittingCommands.{HasSizes};
ghost use Rattle.vq_model.specs.OutputText.{answer_text, buffers_text};
ghost use Rattle.vq_model.specs.Outputs.{asking};
ghost use Rattle.vq_model.specs.Plan.{is_silent};
ghost use Rattle.vq_model.specs.ValidScripts.{sizes_of};
ghost use Rattle.vq_spec.specs.TextRooms.{text_room};

use crate::plan::Plan;
use crate::text::put_buffers;
use std::alloc::{AllocError, Global};
use std::marker::Model;
use vq_model::plan::{AnswerLine, Question};
use vq_text::{LINE_ROOM, buffers_room, put_answers};
use vq_transfer::Buffers;

/// Room for the text of a run of a plan: its answers, and its buffers. It is taken before the run and
/// filled after it. Contracts see how many bytes it is for.
#[derive(Drop)]
pub struct TextRoom {
    text: Vec<u8>,
}

impl Model for TextRoom {
    ghost use Rattle.std.specs.Prelude.{ℕ, ◌≡◌, []};
    ghost use Rattle.std.specs.Vec.{vec_capacity};

    ghost Value = { ℕ };

    ghost view = { λ a. vec_capacity a.text };

    ghost invariant = { λ a. a.text.items ≡ [] };
}

impl TextRoom {
    /// Room for 38 bytes for each host step of a plan that asks something, which is the longest line
    /// of an answer, and for the text of the plan's buffers. The error is want of memory.
    pub fn new(alloc: Global, plan: &Plan) -> Result<TextRoom, AllocError>
        ensures { IfOk result (λ room. room ≡ text_room plan.now) }
    {
        let answers = LINE_ROOM * asking(plan);
        let buffers = buffers_room(plan.script().buffers.as_slice());
        let text = Vec::with_capacity(alloc, answers.saturating_add(buffers))?;
        Ok(TextRoom { text })
    }

    /// The text of answers, as `answer_text` writes it, and then that of buffers, as `buffers_text` does.
    /// It takes no memory. The room is one that was made for the plan.
    pub fn fill(self, plan: &Plan, answers: &[AnswerLine], buffers: &Buffers) -> Vec<u8>
        requires room { self ≡ text_room plan.now }
        requires answers { length answers.now ≤ length (asking plan.now) }
        requires buffers { HasSizes (sizes_of plan.now.script) buffers.now }
        ensures text { result.items
            ≡ answer_text answers.now ++ buffers_text plan.now.script.buffers buffers.now }
        ensures short { length (answer_text answers.now) ≤ 38 * length answers.now }
    {
        let TextRoom { mut text } = self;
        put_answers(&mut text, answers);
        put_buffers(&mut text, plan, buffers);
        text
    }
}

/// 1 for a question that asks something, else 0.
fn asks(question: Question) -> usize
    ensures { result ≡ (if is_silent question then 0 else 1) }
{
    match question {
        Question::Silent => 0,
        _ => 1,
    }
}

/// How many host steps of a plan ask something: no run has more answers.
pub fn asking(plan: &Plan) -> usize
    ensures exact { result ≡ length (asking plan.now) }
    ensures few { result < 2 ^ 32 }
{
    let mut count = 0usize;
    for job in 0..plan.jobs() {
        count += asks(plan.job(job).question);
    }
    count
}
