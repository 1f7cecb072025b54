//! A watch over the points of a capture, which finds what an access doesn't see.
ghost use Rattle.std.specs.Prelude.{◌≡◌, ◌&&◌, ◌++◌, ◌∷◌, [], IfOk, OnOk, None, length, map, not};
ghost use Rattle.std.specs.List.{list_all};
ghost use Rattle.vq_capture.specs.Races.{conflict};
ghost use Rattle.vq_capture_memory.specs.UnseenWrites.{asks_memory, is_of_device, is_read, writes};
ghost use Rattle.vq_capture_touched.specs.Standing.{points_in};
ghost use Rattle.vq_capture_seen.specs.Ways.{is_delivered, lacks, last_lacking, told, told_points, unseen_line};

use crate::spot::Spot;
use crate::ways::all_delivered;
use std::alloc::{AllocError, Global};
use std::marker::Model;
use vq_capture::capture::Step;
use vq_capture::stage::{Stage, StageMask};
use vq_capture::statement::Statement;
use vq_capture_touched::conflicts::{access_of, conflict, is_write};
use vq_capture_touched::masks::has_stage;
use vq_capture_touched::standing::WORD_STAGES;

/// Whether a step writes.
fn writes(a: &Step) -> bool
    ensures { result ≡ writes a.now }
{
    match access_of(&a.statement) {
        Some(access) => is_write(access.kind),
        None => false,
    }
}

/// Whether a device does what a step accesses.
fn is_of_device(said: &Statement) -> bool
    ensures { result ≡ is_of_device said.now }
{
    match said {
        Statement::CommandAccess { .. } => true,
        Statement::Transition { .. } => true,
        _ => false,
    }
}

/// Whether a command reads.
fn is_read(said: &Statement) -> bool
    ensures { result ≡ is_read said.now }
{
    match said {
        Statement::CommandAccess { access, scope: _ } => !is_write(access.kind),
        _ => false,
    }
}

/// A point of a step, and what releases that.
fn spot(
    alloc: Global,
    step: &Step,
    stage: Option<Stage>,
    released: &[u64],
) -> Result<Spot, AllocError>
    ensures { IfOk result (λ spot. spot ≡ told released.now (record { step = step.now; stage = stage })) }
{
    Ok(Spot {
        step: *step,
        stage,
        released: Vec::from_slice(alloc, released)?,
    })
}

/// The points of an access of a command at those of some stages that are in a set.
fn spots_in(
    alloc: Global,
    step: &Step,
    released: &[u64],
    mask: &StageMask,
    stages: &[Stage],
) -> Result<Vec<Spot>, AllocError>
    ensures { IfOk result (λ spots. spots.items ≡ map (told released.now) (points_in step.now mask.now stages.now)) }
{
    let mut spots = Vec::new(alloc);
    for stage in stages {
        if has_stage(mask, *stage) {
            spots.push(spot(alloc, step, Some(*stage), released)?)?;
        }
    }
    Ok(spots)
}

fn one_spot(alloc: Global, step: &Step, released: &[u64]) -> Result<Vec<Spot>, AllocError>
    ensures { IfOk result (λ spots. spots.items ≡ told released.now (record { step = step.now; stage = None }) ∷ []) }
{
    let mut spots = Vec::new(alloc);
    spots.push(spot(alloc, step, None, released)?)?;
    Ok(spots)
}

/// The points of a step.
fn spots_of(alloc: Global, step: &Step, released: &[u64]) -> Result<Vec<Spot>, AllocError>
    ensures { IfOk result (λ spots. spots.items ≡ told_points step.now released.now) }
{
    match &step.statement {
        Statement::CommandAccess { access: _, scope } => {
            spots_in(alloc, step, released, &scope.stages, &WORD_STAGES)
        }
        _ => one_spot(alloc, step, released),
    }
}

/// Whether a point of a write isn't delivered to a step that has to see it, of which these are the points.
fn lacks(
    alloc: Global,
    b: &Step,
    points: &[Spot],
    x: &Spot,
    behind: &[Spot],
) -> Result<bool, AllocError>
    ensures { IfOk result (λ test. test ≡ (conflict x.now.point.step b.now && (asks_memory x.now.point.step b.now
        && not (list_all (is_delivered (is_read b.now.statement) x.now behind.now) points.now)))) }
{
    if !conflict(&x.step, b) || !writes(&x.step) || !is_of_device(&b.statement) {
        return Ok(false);
    }
    let all = all_delivered(alloc, is_read(&b.statement), x, behind, points)?;
    Ok(!all)
}

/// The last line of some points that lacks.
fn last_lacking(
    alloc: Global,
    b: &Step,
    released: &[u64],
    points: &[Spot],
    above: &[Spot],
) -> Result<Option<u64>, AllocError>
    requires { points.now ≡ told_points b.now released.now }
    ensures { IfOk result (λ line. line ≡ last_lacking b.now released.now None above.now) }
{
    let _released = released;
    let mut last = None;
    let mut rest = above;
    while let [x, behind @ ..] = rest {
        if lacks(alloc, b, points, x, behind)? {
            last = Some(x.step.line);
        }
        rest = behind;
    }
    Ok(last)
}

/// The points of the lines that were fed.
#[derive(Drop)]
pub struct SeenWatch {
    points: Vec<Spot>,
}

impl Model for SeenWatch {
    ghost use Rattle.std.specs.Prelude.{List};
    ghost use Rattle.vq_capture_seen.specs.Ways.{ToldPoint};

    ghost Value = { List ToldPoint };

    ghost view = { λ w. w.points.items };
}

impl SeenWatch {
    /// A watch that was fed no lines.
    pub fn new(alloc: Global) -> SeenWatch
        ensures { result ≡ [] }
    {
        SeenWatch {
            points: Vec::new(alloc),
        }
    }

    /// The greatest line of a write that a step doesn't see, which comes next and is released by some lines.
    #[tactic(auto, using(crate::proofs::NothingAsked::nothing_lacks))]
    pub fn unseen_line(
        &self,
        alloc: Global,
        step: &Step,
        released: &[u64],
    ) -> Result<Option<u64>, AllocError>
        ensures { IfOk result (λ line. line ≡ unseen_line self.now step.now released.now) }
    {
        if !is_of_device(&step.statement) {
            return Ok(None);
        }
        let points = spots_of(alloc, step, released)?;
        last_lacking(alloc, step, released, &points, &self.points)
    }

    /// Feeds a step, which is released by some lines.
    pub fn add(&mut self, alloc: Global, step: &Step, released: &[u64]) -> Result<(), AllocError>
        ensures { OnOk result (self.new ≡ self.old ++ told_points step.now released.now) }
    {
        let points = spots_of(alloc, step, released)?;
        for point in points {
            self.points.push(point)?;
        }
        Ok(())
    }
}
