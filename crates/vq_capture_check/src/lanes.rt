//! The lanes of points: those that they take, and those that they give.
ghost use Rattle.std.specs.Prelude.{◌≡◌, ◌<◌, ◌++◌, ◌+◌, [], nat_lt, OnOk, IfOk, is_some, if◌then◌else◌};
ghost use Rattle.vq_capture.specs.Before.{is_semaphore_operation};
ghost use Rattle.vq_capture.specs.Points.{gives};
ghost use Rattle.vq_capture_check.specs.Clocks.{says, knows};
ghost use Rattle.vq_capture_check.specs.Lanes.{given, is_told, lanes_in, last_if, stage_lanes, stage_number};

use std::alloc::{AllocError, Global};
use vq_capture::capture::Step;
use vq_capture::stage::{Stage, StageMask};
use vq_capture::statement::Statement;
use vq_capture_clocks::clocks::{Block, said_in};
use vq_capture_touched::joins::{gives, is_semaphore_operation};
use vq_capture_touched::masks::has_stage;
use vq_capture_touched::touch::StepLanes;

/// All stages, in the order of their lanes.
const EVERY_STAGE: [Stage; 13] = [
    Stage::Begin,
    Stage::Indirect,
    Stage::Input,
    Stage::Vertex,
    Stage::Early,
    Stage::Fragment,
    Stage::Late,
    Stage::Color,
    Stage::Compute,
    Stage::Copy,
    Stage::Host,
    Stage::Other,
    Stage::End,
];

/// The number of a stage's lane among those of its queue.
fn stage_number(stage: Stage) -> usize
    ensures number { result ≡ stage_number stage }
    ensures small { result < 15 }
{
    match stage {
        Stage::Begin => 0,
        Stage::Indirect => 1,
        Stage::Input => 2,
        Stage::Vertex => 3,
        Stage::Early => 4,
        Stage::Fragment => 5,
        Stage::Late => 6,
        Stage::Color => 7,
        Stage::Compute => 8,
        Stage::Copy => 9,
        Stage::Host => 10,
        Stage::Other => 11,
        Stage::End => 12,
    }
}

/// The lane of a stage, if there are as many.
pub fn stage_lane(first: usize, stage: Stage) -> Result<usize, AllocError>
    ensures { IfOk result (λ lane. lane ≡ first + stage_number stage) }
{
    match first.checked_add(stage_number(stage)) {
        Some(lane) => Ok(lane),
        None => Err(AllocError),
    }
}

/// Adds the lanes of those of some stages that are in a set.
fn add_stages(
    lanes: &mut Vec<usize>,
    first: usize,
    mask: &StageMask,
    stages: &[Stage],
) -> Result<(), AllocError>
    ensures { OnOk result (lanes.new.items ≡ lanes.old.items ++ lanes_in first mask.now stages.now) }
{
    for stage in stages {
        if has_stage(mask, *stage) {
            lanes.push(stage_lane(first, *stage)?)?;
        }
    }
    Ok(())
}

/// Adds the last lane of a site, if a test holds.
fn add_last(lanes: &mut Vec<usize>, test: bool, first: usize) -> Result<(), AllocError>
    ensures { OnOk result (lanes.new.items ≡ lanes.old.items ++ last_if test first) }
{
    if test {
        let Some(lane) = first.checked_add(13) else {
            return Err(AllocError);
        };
        lanes.push(lane)?;
    }
    Ok(())
}

/// The lanes of a step's queue: those of a set of stages, and the last one, if a test holds.
fn queue_lanes(
    alloc: Global,
    queue: Option<u64>,
    first: usize,
    mask: &StageMask,
    test: bool,
) -> Result<Vec<usize>, AllocError>
    ensures { IfOk result (λ lanes. lanes.items ≡
        (if is_some queue then stage_lanes first mask.now ++ last_if test first else [])) }
{
    let mut lanes = Vec::with_capacity(alloc, 16)?;
    if queue.is_some() {
        add_stages(&mut lanes, first, mask, &EVERY_STAGE)?;
        add_last(&mut lanes, test, first)?;
    }
    Ok(lanes)
}

/// The lanes that a point of a step gives. The error is want of memory.
pub fn given(
    alloc: Global,
    at: StepLanes,
    step: &Step,
    stage: Option<Stage>,
) -> Result<Vec<usize>, AllocError>
    ensures { IfOk result (λ lanes. lanes.items ≡ given at (record { step = step.now; stage = stage })) }
{
    let follows = is_semaphore_operation(&step.statement);
    let mask = gives(step, stage);
    let mut lanes = queue_lanes(alloc, step.queue, at.queue, &mask, follows)?;
    add_last(&mut lanes, step.thread.is_some(), at.thread)?;
    Ok(lanes)
}

/// Whether a step comes after another thread's.
pub fn is_told(said: &Statement) -> bool
    ensures { result ≡ is_told said.now }
{
    match said {
        Statement::After { .. } => true,
        _ => false,
    }
}

/// Whether a clock says of a lane that a line is above its own.
fn knows_lane(clock: &[Block], line: u64, first: usize, number: usize) -> bool
    requires { number < 15 }
    ensures { result ≡ nat_lt line (says clock.now (first + number)) }
{
    let place = first % 15 + number;
    line < said_in(clock, first / 15 + place / 15, place % 15)
}

/// Whether a clock says of the lane of one of some stages that are in a set that a line is above its own.
fn knows_stages(
    clock: &[Block],
    line: u64,
    first: usize,
    mask: &StageMask,
    stages: &[Stage],
) -> bool
    ensures { result ≡ knows (says clock.now) line (lanes_in first mask.now stages.now) }
{
    for stage in stages {
        if has_stage(mask, *stage) && knows_lane(clock, line, first, stage_number(*stage)) {
            return true;
        }
    }
    false
}

/// Whether it says so of the last lane of a site, if a test holds.
fn knows_last(clock: &[Block], line: u64, test: bool, first: usize) -> bool
    ensures { result ≡ knows (says clock.now) line (last_if test first) }
{
    test && knows_lane(clock, line, first, 13)
}

/// Whether it says so of a lane that a point of a step gives.
pub fn knows_given(
    clock: &[Block],
    line: u64,
    at: StepLanes,
    step: &Step,
    stage: Option<Stage>,
) -> bool
    ensures { result ≡ knows (says clock.now) line (given at (record { step = step.now; stage = stage })) }
{
    let by_queue = step.queue.is_some() && knows_queue(clock, line, at.queue, step, stage);
    by_queue || knows_last(clock, line, step.thread.is_some(), at.thread)
}

/// Whether it says so of a lane of a step's queue that a point of it gives.
fn knows_queue(clock: &[Block], line: u64, first: usize, step: &Step, stage: Option<Stage>) -> bool
    ensures { result ≡ knows (says clock.now) line
        (stage_lanes first (gives (record { step = step.now; stage = stage }))
        ++ last_if (is_semaphore_operation step.now.statement) first) }
{
    let mask = gives(step, stage);
    knows_stages(clock, line, first, &mask, &EVERY_STAGE)
        || knows_last(clock, line, is_semaphore_operation(&step.statement), first)
}
