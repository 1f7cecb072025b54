//! What host steps ask, and what they may be answered.
ghost use Rattle.std.specs.Prelude.{◌≡◌, ◌<◌, ◌==◌, ◌||◌, ◌&&◌, length, nat_lt, is_some, true};
ghost use Rattle.std.specs.Prelude.{ℕ};
ghost use Rattle.std.specs.List.{list_any, list_all};
ghost use Rattle.vq_model.specs.Machine.{may_answer, is_reached};
ghost use Rattle.vq_model.specs.Plan.{question, asked, chain as ops_of, value as value_of, is_silent};
ghost use Rattle.vq_tables.specs.AnswerStates.{is_asked_reached, payload_read, IsAnswerState};
ghost use Rattle.vq_core.specs.CoreState.{world};

use crate::state::Core;
use vq_spec::{Answer, Question, all_reached, any_reached};
use vq_tables::AnswerState;

impl Core {
    /// What a job asks.
    fn question(&self, job: u32) -> Question
        requires { job < length self.now.plan.jobs }
        ensures question { result ≡ question self.now.plan job }
        ensures chain { (t : ℕ) → result ≡ Question.Value t → t < length self.now.plan.chains }
    {
        self.plan().job(job).question
    }

    /// What may be answered of a job by what was reached at its start.
    pub(crate) fn answer_state(&self, job: u32) -> AnswerState
        ensures { IsAnswerState self.now.plan (world self.now).machine.progress.started (world self.now).machine.answer
            (world self.now).machine.at_start job result }
    {
        self.answers.at(job, AnswerState::not_asked())
    }

    /// Whether all pairs that a job asks for are reached.
    fn all_asked_reached(&self, job: u32) -> bool
        requires { job < length self.now.plan.jobs }
        ensures { result ≡ list_all (is_reached (world self.now).machine.progress.payload) (asked self.now.plan job) }
    {
        let asked = self.plan().job(job).asked.as_slice();
        all_reached(self.payloads.as_slice(), asked)
    }

    /// Whether one of the pairs that a job asks for is reached.
    fn any_asked_reached(&self, job: u32) -> bool
        requires { job < length self.now.plan.jobs }
        ensures { result ≡ list_any (is_reached (world self.now).machine.progress.payload) (asked self.now.plan job) }
    {
        let asked = self.plan().job(job).asked.as_slice();
        any_reached(self.payloads.as_slice(), asked)
    }

    /// The payload of a chain.
    fn payload(&self, chain: u32) -> u64
        requires { chain < length self.now.plan.chains }
        ensures { result ≡ (world self.now).machine.progress.payload chain }
    {
        self.payloads[chain as usize]
    }

    /// Whether what a job asks for is reached: one pair where it asks for any, else all.
    pub(crate) fn is_asked_reached(&self, job: u32) -> bool
        requires { job < length self.now.plan.jobs }
        ensures { result ≡ is_asked_reached (question self.now.plan job) (world self.now).machine.progress.payload
            (asked self.now.plan job) }
    {
        match self.question(job) {
            Question::PollAny => self.any_asked_reached(job),
            _ => self.all_asked_reached(job),
        }
    }

    /// The payload of the chain that a job reads; 0 where it reads none.
    pub(crate) fn payload_read(&self, job: u32) -> u64
        requires { job < length self.now.plan.jobs }
        ensures { result ≡ payload_read (question self.now.plan job) (world self.now).machine.progress.payload }
    {
        match self.question(job) {
            Question::Value(chain) => self.payload(chain),
            _ => 0,
        }
    }

    /// Whether what a job asks is answered, if it asks anything.
    pub(crate) fn is_settled(&self, job: u32) -> bool
        requires { job < length self.now.plan.jobs }
        ensures { result ≡ (is_silent (question self.now.plan job) || is_some ((world self.now).machine.answer job)) }
    {
        match self.question(job) {
            Question::Silent => true,
            _ => self.answer_state(job).answered,
        }
    }

    /// Whether a job may be answered that what it waits for or asks for is reached.
    fn may_be_reached(&self, job: u32) -> bool
        requires { job < length self.now.plan.jobs }
        ensures { result ≡ may_answer self.now.plan (world self.now).machine job (question self.now.plan job)
            Answer.Reached }
    {
        match self.question(job) {
            Question::Silent => false,
            Question::Reached => self.is_reached_at_end(job),
            Question::PollAll => self.all_asked_reached(job),
            Question::PollAny => self.any_asked_reached(job),
            Question::Fence => self.all_asked_reached(job),
            Question::Value(_) => false,
        }
    }

    /// Whether a started job may be answered that semaphores weren't reached at its start.
    fn may_time_out(&self, job: u32) -> bool
        requires exists { job < length self.now.plan.jobs }
        requires started { (world self.now).machine.progress.started job ≡ true }
        ensures { result ≡ may_answer self.now.plan (world self.now).machine job (question self.now.plan job)
            Answer.Timeout }
    {
        let state = self.answer_state(job);
        match self.question(job) {
            Question::PollAll => !state.reached,
            Question::PollAny => !state.reached,
            _ => false,
        }
    }

    /// Whether a started job may be answered that a fence wasn't signaled at its start.
    fn may_be_unready(&self, job: u32) -> bool
        requires exists { job < length self.now.plan.jobs }
        requires started { (world self.now).machine.progress.started job ≡ true }
        ensures { result ≡ may_answer self.now.plan (world self.now).machine job (question self.now.plan job)
            Answer.NotReady }
    {
        let state = self.answer_state(job);
        match self.question(job) {
            Question::Fence => !state.reached,
            _ => false,
        }
    }

    /// Whether an operation of a chain with this value is made.
    fn is_made(&self, chain: u32, value: u64) -> bool
        requires { chain < length self.now.plan.chains }
        ensures { result ≡ list_any (λ e. (world self.now).machine.progress.made e
            && (value_of self.now.plan e == value)) (ops_of self.now.plan chain) }
    {
        let Some(op) = self.plan().resolver(chain, value) else {
            return false;
        };
        if self.op(op).value != value {
            return false;
        }
        self.is_signaled(op)
    }

    /// Whether a chain had a payload at a moment since it had another one: it rises through the values of
    /// its operations that are made.
    fn was_since(&self, chain: u32, first: u64, payload: u64) -> bool
        requires { chain < length self.now.plan.chains }
        ensures { result ≡ ((payload == first) || (nat_lt first payload
            && list_any (λ e. (world self.now).machine.progress.made e && (value_of self.now.plan e == payload))
            (ops_of self.now.plan chain))) }
    {
        if payload == first {
            return true;
        }
        if payload < first {
            return false;
        }
        self.is_made(chain, payload)
    }

    /// Whether a started job may be answered a payload: its chain had it at the job's start or since.
    fn may_be_read(&self, job: u32, payload: u64) -> bool
        requires exists { job < length self.now.plan.jobs }
        requires started { (world self.now).machine.progress.started job ≡ true }
        ensures { result ≡ may_answer self.now.plan (world self.now).machine job (question self.now.plan job)
            (Answer.Value payload) }
    {
        let state = self.answer_state(job);
        match self.question(job) {
            Question::Value(chain) => self.was_since(chain, state.payload, payload),
            _ => false,
        }
    }

    /// Whether a started job may be answered so.
    pub(crate) fn may_answer(&self, job: u32, answer: Answer) -> bool
        requires exists { job < length self.now.plan.jobs }
        requires started { (world self.now).machine.progress.started job ≡ true }
        ensures { result ≡ may_answer self.now.plan (world self.now).machine job (question self.now.plan job) answer }
    {
        match answer {
            Answer::Reached => self.may_be_reached(job),
            Answer::Timeout => self.may_time_out(job),
            Answer::NotReady => self.may_be_unready(job),
            Answer::Value(payload) => self.may_be_read(job, payload),
        }
    }
}
