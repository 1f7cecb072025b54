//! What is looked up of a plan: names of semaphores, fences and queues, lines of jobs and commands, and values of
//! signal operations.
ghost use Rattle.std.specs.Prelude.{◌≡◌, ◌<◌, ◌^◌, IfOk, length};
ghost use Rattle.vq_model.specs.LoweredPlans.{IsPlan};
ghost use Rattle.vq_given.specs.Words.{apply_said, command_at, job_at, job_said, op_in, op_said, queue_named};
ghost use Rattle.vq_trace.specs.PlanIndex.{IsIndexOf};

use crate::names::{Names, queue_names, semaphore_names};
use crate::places::place_of;
use crate::tables::{command_lines, job_lines};
use std::alloc::{AllocError, Global};
use vq_lexer::numeral;
use vq_model::plan::Event;
use vq_spec::Plan;

/// What is looked up of a plan, made once.
#[derive(Drop)]
pub(crate) struct Index {
    semaphores: Names,
    queues: Names,
    job_lines: Vec<u64>,
    command_lines: Vec<u64>,
}

/// The signal operation of a chain that sets this value.
fn op_in(plan: &Plan, chain: u32, value: u64) -> Option<u32>
    requires plan { IsPlan plan.now }
    requires exists { chain < length plan.now.chains }
    ensures { result ≡ op_in plan.now value chain }
{
    match plan.resolver(chain, value) {
        None => None,
        Some(op) => {
            if plan.op(op).value == value {
                Some(op)
            } else {
                None
            }
        }
    }
}

impl Index {
    /// The index of a plan.
    pub(crate) fn of(alloc: Global, plan: &Plan) -> Result<Index, AllocError>
        requires { IsPlan plan.now }
        ensures { IfOk result (λ index. IsIndexOf plan.now index) }
    {
        // Commands are counted in 32 bits.
        let _count = plan.commands();
        let script = plan.script();
        Ok(Index {
            semaphores: semaphore_names(alloc, script)?,
            queues: queue_names(alloc, script)?,
            job_lines: job_lines(alloc, plan)?,
            command_lines: command_lines(alloc, plan)?,
        })
    }

    /// The queue of a name.
    pub(crate) fn queue(&self, plan: &Plan, name: &[u8]) -> Option<u32>
        requires { IsIndexOf plan.now self.now }
        ensures { result ≡ queue_named plan.now name.now }
    {
        self.queues.number(name)
    }

    /// The job at a line.
    fn job_at(&self, plan: &Plan, line: u64) -> Option<u32>
        requires { IsIndexOf plan.now self.now }
        ensures { result ≡ job_at plan.now line }
    {
        place_of(self.job_lines.as_slice(), line)
    }

    /// The command at a line.
    fn command_at(&self, plan: &Plan, line: u64) -> Option<u32>
        requires { IsIndexOf plan.now self.now }
        ensures { result ≡ command_at plan.now line }
    {
        place_of(self.command_lines.as_slice(), line)
    }

    /// The job whose line a word says.
    pub(crate) fn job(&self, plan: &Plan, word: &[u8]) -> Option<u32>
        requires { IsIndexOf plan.now self.now }
        ensures { result ≡ job_said plan.now word.now }
    {
        self.job_at(plan, numeral(word)?)
    }

    /// The start of a command, whose line a word says, in its job.
    pub(crate) fn apply(&self, plan: &Plan, word: &[u8]) -> Option<Event>
        requires { IsIndexOf plan.now self.now }
        ensures { result ≡ apply_said plan.now word.now }
    {
        let command = self.command_at(plan, numeral(word)?)?;
        let job = plan.owner(command);
        Some(Event::Apply { job, command })
    }

    /// The signal operation of a semaphore or fence that sets a value.
    pub(crate) fn op(&self, plan: &Plan, name: &[u8], word: &[u8]) -> Option<u32>
        requires { IsIndexOf plan.now self.now }
        ensures { result ≡ op_said plan.now name.now word.now }
    {
        let value = numeral(word)?;
        let chain = self.semaphores.number(name)?;
        op_in(plan, chain, value)
    }
}
