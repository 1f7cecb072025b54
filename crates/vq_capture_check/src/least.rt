//! For each lane the least line that it is asked for: of the accesses that are kept, and of lines to come.
ghost use Rattle.std.specs.Prelude.{◌≡◌, ◌≤◌, ℕ, IfOk, OnOk};
ghost use Rattle.vq_capture.specs.Points.{points_of_step};
ghost use Rattle.vq_capture_check.specs.Alike.{IsAsked};
ghost use Rattle.vq_capture_check.specs.Lanes.{given};
ghost use Rattle.vq_capture_check.specs.Least.{least_in, lower_lanes, lower_points, lower_things, lower_touches};
ghost use Rattle.vq_capture_check.specs.Watches.{parts_of, touched_at};
ghost use Rattle.vq_capture_check.specs.Watching.{all_touched};
ghost use Rattle.vq_capture_touched.specs.Standing.{points_in};

use crate::lanes::given;
use crate::touched::TouchedThing;
use std::alloc::{AllocError, Global};
use std::collections::BTreeMap;
use vq_capture::stage::{Stage, StageMask};
use vq_capture::statement::Statement;
use vq_capture_clocks::least::LeastLines;
use vq_capture_touched::masks::has_stage;
use vq_capture_touched::standing::WORD_STAGES;
use vq_capture_touched::touch::Touch;

fn lower_lanes(least: &mut LeastLines, line: u64, lanes: &[usize]) -> Result<(), AllocError>
    ensures { OnOk result
        (least_in least.new ≡ lower_lanes (least_in least.old) line lanes.now) }
{
    for lane in lanes {
        least.lower(*lane, line)?;
    }
    Ok(())
}

/// Lowers the lines of the lanes that a point of an access gives.
fn lower_point(
    alloc: Global,
    least: &mut LeastLines,
    touch: &Touch,
    stage: Option<Stage>,
) -> Result<(), AllocError>
    ensures { OnOk result (least_in least.new ≡
        lower_lanes (least_in least.old) touch.now.step.line
        (given touch.now.at (record { step = touch.now.step; stage = stage }))) }
{
    let lanes = given(alloc, touch.at, &touch.step, stage)?;
    lower_lanes(least, touch.step.line, &lanes)
}

/// The same for its points at those of some stages that are in a set.
fn lower_stages(
    alloc: Global,
    least: &mut LeastLines,
    touch: &Touch,
    mask: &StageMask,
    stages: &[Stage],
) -> Result<(), AllocError>
    ensures { OnOk result (least_in least.new ≡
        lower_points (least_in least.old) touch.now (points_in touch.now.step mask.now stages.now)) }
{
    for stage in stages {
        if has_stage(mask, *stage) {
            lower_point(alloc, least, touch, Some(*stage))?;
        }
    }
    Ok(())
}

fn lower_touch(alloc: Global, least: &mut LeastLines, touch: &Touch) -> Result<(), AllocError>
    ensures { OnOk result (least_in least.new ≡
        lower_points (least_in least.old) touch.now (points_of_step touch.now.step)) }
{
    match touch.step.statement {
        Statement::CommandAccess { access: _, scope } => {
            lower_stages(alloc, least, touch, &scope.stages, &WORD_STAGES)
        }
        _ => lower_point(alloc, least, touch, None),
    }
}

fn lower_touches(alloc: Global, least: &mut LeastLines, touches: &[Touch]) -> Result<(), AllocError>
    ensures { OnOk result
        (least_in least.new ≡ lower_touches (least_in least.old) touches.now) }
{
    for touch in touches {
        lower_touch(alloc, least, touch)?;
    }
    Ok(())
}

/// The same for all accesses of a resource. It says how many they are.
fn lower_thing(
    alloc: Global,
    least: &mut LeastLines,
    thing: &TouchedThing,
) -> Result<usize, AllocError>
    ensures { OnOk result (least_in least.new ≡
        lower_touches (least_in least.old) (all_touched (parts_of thing.now))) }
{
    let indexed = thing.index.all(alloc)?;
    lower_touches(alloc, least, &indexed)?;
    lower_touches(alloc, least, &thing.recent)?;
    lower_touches(alloc, least, &thing.newest)?;
    let older = indexed.len().saturating_add(thing.recent.len());
    Ok(older.saturating_add(thing.newest.len()))
}

fn lower_resource(
    alloc: Global,
    least: &mut LeastLines,
    things: &BTreeMap<u64, TouchedThing>,
    resource: u64,
) -> Result<usize, AllocError>
    ensures { OnOk result (least_in least.new ≡
        lower_touches (least_in least.old) (all_touched (touched_at things.now resource))) }
{
    match things.get(&resource) {
        Some(thing) => lower_thing(alloc, least, thing),
        None => Ok(0),
    }
}

/// For each lane the least line that it is asked for.
#[derive(Drop)]
pub struct AskedLines {
    /// The least lines of lanes.
    pub least: LeastLines,
    /// How many accesses are kept.
    pub touches: usize,
}

/// For each lane the least line that it is asked for. The error is want of memory.
pub fn asked(
    alloc: Global,
    things: &BTreeMap<u64, TouchedThing>,
    next: u64,
) -> Result<AskedLines, AllocError>
    ensures { IfOk result (λ asked. (line lane : ℕ) → IsAsked (touched_at things.now) next line lane →
        least_in asked.least lane ≤ line) }
{
    let mut least = LeastLines::new(alloc, next);
    let mut touches: usize = 0;
    for resource in things.keys() {
        let more = lower_resource(alloc, &mut least, things, *resource)?;
        touches = touches.saturating_add(more);
    }
    Ok(AskedLines { least, touches })
}
