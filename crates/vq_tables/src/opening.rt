//! The tables before the first event.
ghost use Rattle.std.specs.Prelude.{◌≡◌, ◌<◌, ◌≤◌, ◌^◌, [], length, map, IfOk, IfSome, None};
ghost use Rattle.std.specs.Vec.{vec_capacity};
ghost use Rattle.vq_model.specs.Checks.{IsLawful};
ghost use Rattle.vq_model.specs.LoweredPlans.{IsPlan};
ghost use Rattle.vq_model.specs.Memory.{zeros_of};
ghost use Rattle.vq_model.specs.Plan.{chain, initial, value, is_batch};
ghost use Rattle.vq_model.specs.ValidScripts.{sizes_of};
ghost use Rattle.vq_point_laws.specs.Points.{opening_points};
ghost use Rattle.vq_history_laws.specs.Histories.{acts};
ghost use Rattle.vq_history_laws.specs.Measure.{one};
ghost use Rattle.vq_tables.specs.Lanes.{AreLanes};
ghost use Rattle.vq_tables.specs.Notes.{AreNotes};
ghost use Rattle.vq_tables.specs.Opened.{IsOpening};
ghost use Rattle.vq_tables.specs.AnswerStates.{AreAnswerStates};
ghost use Rattle.vq_tables.specs.Opening.{needs_of, nothing, unmarked, no_answers, no_payloads};
ghost use Rattle.vq_tables.specs.Tables.{AreEarlier, AreJobs, AreMade, ArePoints, ArePayloads, AreTimelines};

use crate::answer_state::AnswerState;
use crate::lanes::{LaneTable, is_host};
use crate::notes::{Note, NoteRow, NoteTable};
use crate::table::{JobRecord, PointSlot, Table};
use std::alloc::{AllocError, Global};
use vq_spec::{Buffers, Event, Plan, zero_buffers};
use vq_timeline_core::TimelineCore;

/// How many needs all jobs have; none where that is too great a number.
fn count_needs(plan: &Plan) -> Option<usize>
    ensures { IfSome result (λ n. n ≡ needs_of plan.now) }
{
    let mut count: usize = 0;
    for job in 0..plan.jobs() {
        let needs = plan.job(job).needs.len();
        let Some(more) = count.checked_add(needs) else {
            return None;
        };
        count = more;
    }
    Some(count)
}

/// How many events there can be; none where that is too great a number.
fn count_acts(plan: &Plan) -> Option<usize>
    ensures { IfSome result (λ n. n ≡ acts plan.now) }
{
    let counted = 4 * plan.jobs() as usize + plan.commands() as usize + 5 * plan.ops() as usize;
    let Some(needs) = count_needs(plan) else {
        return None;
    };
    let Some(references) = needs.checked_mul(3) else {
        return None;
    };
    counted.checked_add(references)
}

/// How many events there can be. The error is want of memory: no history could hold them.
fn room(plan: &Plan) -> Result<usize, AllocError>
    ensures { IfOk result (λ n. n ≡ acts plan.now) }
{
    match count_acts(plan) {
        Some(acts) => Ok(acts),
        None => Err(AllocError),
    }
}

/// Jobs of which nothing is done.
fn idle_jobs(alloc: Global, plan: &Plan) -> Result<Table<JobRecord>, AllocError>
    ensures { IfOk result (λ xs. AreJobs plan.now unmarked unmarked unmarked unmarked [] xs) }
{
    let jobs = vec![in alloc; JobRecord::idle(); plan.jobs() as usize]?;
    Ok(Table::of(jobs))
}

/// For each job how many batches are written before it.
fn count_earlier(alloc: Global, plan: &Plan) -> Result<Table<u32>, AllocError>
    ensures { IfOk result (AreEarlier plan.now) }
{
    let mut earlier = Vec::new(alloc);
    let mut count: u32 = 0;
    for job in 0..plan.jobs() {
        earlier.push(count)?;
        count += batches_at(plan, job);
    }
    Ok(Table::of(earlier))
}

/// How many batches a job is: one or none.
fn batches_at(plan: &Plan, job: u32) -> u32
    requires { job < length plan.now.jobs }
    ensures { result ≡ one (is_batch plan.now job) }
{
    if is_host(plan.job(job).lane) { 0 } else { 1 }
}

/// No job asks anything.
fn none_asked(alloc: Global, plan: &Plan) -> Result<Table<AnswerState>, AllocError>
    ensures { IfOk result (λ xs. AreAnswerStates plan.now unmarked no_answers no_payloads xs) }
{
    let answers = vec![in alloc; AnswerState::not_asked(); plan.jobs() as usize]?;
    Ok(Table::of(answers))
}

/// Points that carry nothing, as many as there are operations.
fn empty_points(alloc: Global, plan: &Plan) -> Result<Table<PointSlot>, AllocError>
    ensures { IfOk result (λ xs. ArePoints (length plan.now.ops) (λ q. None) unmarked [] xs) }
{
    let slots = vec![in alloc; PointSlot::empty(); plan.ops() as usize]?;
    Ok(Table::of(slots))
}

/// No operation is made.
fn none_made(alloc: Global, plan: &Plan) -> Result<Table<bool>, AllocError>
    ensures { IfOk result (λ xs. AreMade (length plan.now.ops) unmarked xs) }
{
    let made = vec![in alloc; false; plan.ops() as usize]?;
    Ok(Table::of(made))
}

/// The initial value of each chain.
fn initial_payloads(alloc: Global, plan: &Plan) -> Result<Vec<u64>, AllocError>
    requires { IsPlan plan.now }
    ensures { IfOk result (λ xs. ArePayloads (length plan.now.script.semaphores) (initial plan.now) xs.items) }
{
    let mut payloads = Vec::new(alloc);
    for chain in 0..plan.chains() {
        payloads.push(plan.initial(chain))?;
    }
    Ok(payloads)
}

/// The values of a chain's operations.
fn values_of(alloc: Global, plan: &Plan, t: u32) -> Result<Vec<u64>, AllocError>
    requires plan { IsPlan plan.now }
    requires exists { t < length plan.now.chains }
    ensures { IfOk result (λ xs. xs.items ≡ map (value plan.now) (chain plan.now t)) }
{
    let mut values = Vec::new(alloc);
    for op in plan.chain(t) {
        values.push(plan.op(*op).value)?;
    }
    Ok(values)
}

/// The lists of each chain's points, without any.
fn new_timelines(alloc: Global, plan: &Plan) -> Result<Vec<TimelineCore>, AllocError>
    requires plan { IsPlan plan.now }
    requires lawful { IsLawful plan.now }
    ensures { IfOk result (λ xs. AreTimelines plan.now (opening_points plan.now) xs.items) }
{
    let mut timelines = Vec::new(alloc);
    for chain in 0..plan.chains() {
        let values = values_of(alloc, plan, chain)?;
        timelines.push(TimelineCore::new(alloc, plan.initial(chain), values.as_slice())?)?;
    }
    Ok(timelines)
}

/// The jobs of each lane.
fn lanes_of(alloc: Global, plan: &Plan) -> Result<LaneTable, AllocError>
    requires { IsPlan plan.now }
    ensures { IfOk result (λ xs. AreLanes plan.now unmarked unmarked [] xs) }
{
    let mut lanes = LaneTable::empty(alloc, plan.script().queues.as_slice().len() + 1)?;
    for job in 0..plan.jobs() {
        lanes.push(plan.job(job).lane.number(), job)?;
    }
    Ok(lanes)
}

/// A note for each need of each job.
fn empty_notes(alloc: Global, plan: &Plan) -> Result<NoteTable, AllocError>
    ensures { IfOk result (λ rows. AreNotes plan.now unmarked [] nothing nothing rows) }
{
    let mut rows = Vec::new(alloc);
    for job in 0..plan.jobs() {
        let notes = vec![in alloc; Note::empty(); plan.job(job).needs.len()]?;
        rows.push(NoteRow::of(notes))?;
    }
    Ok(NoteTable::of(rows))
}

/// What jobs and points have come to before the first event.
#[derive(Drop)]
pub struct Marks {
    pub earlier: Table<u32>,
    pub jobs: Table<JobRecord>,
    pub answers: Table<AnswerState>,
    pub made: Table<bool>,
    pub slots: Table<PointSlot>,
}

/// Nothing is done.
fn open_marks(alloc: Global, plan: &Plan) -> Result<Marks, AllocError>
    ensures earlier { IfOk result (λ x. AreEarlier plan.now x.earlier) }
    ensures jobs { IfOk result (λ x. AreJobs plan.now unmarked unmarked unmarked unmarked [] x.jobs) }
    ensures answers { IfOk result (λ x. AreAnswerStates plan.now unmarked no_answers no_payloads x.answers) }
    ensures made { IfOk result (λ x. AreMade (length plan.now.ops) unmarked x.made) }
    ensures slots { IfOk result (λ x. ArePoints (length plan.now.ops) (λ q. None) unmarked [] x.slots) }
{
    let earlier = count_earlier(alloc, plan)?;
    let jobs = idle_jobs(alloc, plan)?;
    let answers = none_asked(alloc, plan)?;
    let made = none_made(alloc, plan)?;
    let slots = empty_points(alloc, plan)?;
    Ok(Marks {
        earlier,
        jobs,
        answers,
        made,
        slots,
    })
}

/// What chains have come to before the first event.
#[derive(Drop)]
pub struct Chains {
    pub payloads: Vec<u64>,
    pub timelines: Vec<TimelineCore>,
}

/// Each chain with its initial payload, and without points.
fn open_chains(alloc: Global, plan: &Plan) -> Result<Chains, AllocError>
    requires plan { IsPlan plan.now }
    requires lawful { IsLawful plan.now }
    ensures payloads { IfOk result (λ x.
        ArePayloads (length plan.now.script.semaphores) (initial plan.now) x.payloads.items) }
    ensures timelines { IfOk result (λ x. AreTimelines plan.now (opening_points plan.now) x.timelines.items) }
{
    let payloads = initial_payloads(alloc, plan)?;
    let timelines = new_timelines(alloc, plan)?;
    Ok(Chains {
        payloads,
        timelines,
    })
}

/// What lanes and references have come to before the first event.
#[derive(Drop)]
pub struct Lanes {
    pub lanes: LaneTable,
    pub notes: NoteTable,
}

/// Each lane with its jobs, and no reference.
fn open_lanes(alloc: Global, plan: &Plan) -> Result<Lanes, AllocError>
    requires { IsPlan plan.now }
    ensures lanes { IfOk result (λ x. AreLanes plan.now unmarked unmarked [] x.lanes) }
    ensures notes { IfOk result (λ x. AreNotes plan.now unmarked [] nothing nothing x.notes) }
{
    let lanes = lanes_of(alloc, plan)?;
    let notes = empty_notes(alloc, plan)?;
    Ok(Lanes { lanes, notes })
}

/// An empty history with room for all events, and buffers of zeros.
#[derive(Drop)]
pub struct Journal {
    pub history: Vec<Event>,
    pub buffers: Buffers,
}

/// No event, and buffers of zeros.
fn open_journal(alloc: Global, plan: &Plan) -> Result<Journal, AllocError>
    requires { IsPlan plan.now }
    ensures history { IfOk result (λ x. x.history.items ≡ []) }
    ensures room { IfOk result (λ x. acts plan.now ≤ vec_capacity x.history) }
    ensures few { IfOk result (λ x. acts plan.now < 2 ^ 64) }
    ensures buffers { IfOk result (λ x. x.buffers ≡ zeros_of (sizes_of plan.now.script)) }
{
    let room = room(plan)?;
    let history = Vec::with_capacity(alloc, room)?;
    let buffers = zero_buffers(alloc, plan.script())?;
    Ok(Journal { history, buffers })
}

/// All that a core is before the first event.
#[derive(Drop)]
pub struct Opening {
    pub marks: Marks,
    pub chains: Chains,
    pub lanes: Lanes,
    pub journal: Journal,
}

/// The tables, the history and the buffers before the first event. The error is want of memory.
pub fn open(alloc: Global, plan: &Plan) -> Result<Opening, AllocError>
    requires plan { IsPlan plan.now }
    requires lawful { IsLawful plan.now }
    ensures { IfOk result (IsOpening plan.now) }
{
    let marks = open_marks(alloc, plan)?;
    let chains = open_chains(alloc, plan)?;
    let lanes = open_lanes(alloc, plan)?;
    let journal = open_journal(alloc, plan)?;
    Ok(Opening {
        marks,
        chains,
        lanes,
        journal,
    })
}
