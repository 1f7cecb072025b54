//! The answers to the host's steps.
ghost use Rattle.std.specs.Prelude.{◌≡◌, ◌<◌, length};
ghost use Rattle.vq_board_laws.specs.PointSteps.{answer_code, answer_operand, answers};
ghost use Rattle.vq_board_laws.specs.Shows.{MayAnswer};
ghost use Rattle.vq_board_laws.specs.Words.{job_word};
ghost use Rattle.vq_board.specs.Named.{plan_of, view, IsOf, Turns, Steps};

use crate::parts::{Board, Pass};
use crate::plays::Tell;
use crate::words::job_word;
use vq_model::plan::Answer;

/// The operands of the step that say this answer. No job's word is the first, so the step stores
/// nothing.
fn operands(answer: Answer) -> (u64, u64)
    ensures first { result.0 ≡ answer_code answer }
    ensures second { result.1 ≡ answer_operand answer }
{
    match answer {
        Answer::Reached => (5, 0),
        Answer::Timeout => (6, 0),
        Answer::NotReady => (7, 0),
        Answer::Value(value) => (8, value),
    }
}

impl Board {
    /// Answers the host step that the host's pass runs, with an answer that the pass shows.
    ///
    /// Source: Vulkan 1.3, vkWaitSemaphores, vkGetFenceStatus, vkGetSemaphoreCounterValue.
    pub fn answer(&self, pass: &mut Pass, job: u32, answer: Answer)
        requires board { IsOf self.now pass.old }
        requires exists { job < length (plan_of self.now).jobs }
        requires may { MayAnswer (plan_of self.now) (view pass.old) job answer }
        ensures pass { Turns pass.old pass.new (answers (view pass.old) job answer) }
        ensures step { Steps self.now pass.old pass.new (job_word job) }
    {
        let (code, operand) = operands(answer);
        self.table
            .shared
            .compare_exchange::<Tell>(&mut pass.seat, job_word(job), code, operand);
    }
}
