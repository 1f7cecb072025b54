//! One pass down the lines with clocks, which finds what races with each step.
ghost use Rattle.std.specs.Prelude.{◌≡◌, ℕ, ◌+◌, ◌%◌, ◌++◌, [], ◌∷◌, false, true, IfOk, OnOk, None, Some, map};
ghost use Rattle.std.specs.List.{list_all};
ghost use Rattle.vq_capture.specs.Races.{access_of};
ghost use Rattle.vq_capture_touched.specs.Standing.{points_in};
ghost use Rattle.vq_capture_check.specs.Clocks.{cells_of, says};
ghost use Rattle.vq_capture_check.specs.Lanes.{stage_number};
ghost use Rattle.vq_capture_check.specs.Watching.{all_known, cells_with, clock_of, cut_with, is_command_access};
ghost use Rattle.vq_capture_check.specs.Watching.{is_known, is_loose, is_lasting, last_loose, lines_with};
ghost use Rattle.vq_capture_check.specs.Watching.{signals_with, take_released, touched_by, touched_with, whole, without_gone};
ghost use Rattle.vq_capture_check.specs.Watches.{clocked_in, clocking_of, kept_of, points_by, signals_of, touched_at};

use crate::gone_sites::{forget_sites, is_open};
use crate::kept::{blocks_in, keep, pruned, take_handed, take_lines};
use crate::kept_lines::KeptLines;
use crate::lanes::{knows_given, stage_lane};
use crate::least::asked;
use crate::loose::last_in;
use crate::numbered_sites::NumberedSites;
use crate::signals::{
    SignalLine, add_signal, clear_signals, forget_ended, signal_of, take_signals, waits_for_signal,
};
use crate::sites::lanes_of;
use crate::stage_lanes::{give_given, take_taken};
use crate::things::{add_to, thing_of};
use crate::told::Told;
use crate::touched::TouchedThing;
use crate::touched_lines::touched_lines;
use std::alloc::{AllocError, Global};
use std::collections::BTreeMap;
use vq_capture::capture::Step;
use vq_capture::stage::{Stage, StageMask};
use vq_capture::statement::Statement;
use vq_capture_clocks::cells::{SiteCells, blocks_of, brought, clear_cells};
use vq_capture_clocks::clocks::Block;
use vq_capture_clocks::gone::GoneLanes;
use vq_capture_touched::conflicts::{access_of, conflict};
use vq_capture_touched::joins::{by_scopes, is_cut};
use vq_capture_touched::masks::has_stage;
use vq_capture_touched::standing::WORD_STAGES;
use vq_capture_touched::touch::{StepLanes, Touch};

/// With fewer blocks clocks aren't gone over.
const FEW: usize = 256;

/// A point that has a clock, and the line of the last cut above it.
#[derive(Clone, Copy)]
pub struct Clocked<'a> {
    step: &'a Step,
    stage: Option<Stage>,
    clock: &'a [Block],
}

/// Whether a line is an access of a command.
pub fn is_command_access(said: &Statement) -> bool
    ensures { result ≡ is_command_access said.now }
{
    match said {
        Statement::CommandAccess { .. } => true,
        _ => false,
    }
}

/// Whether a line that says this may release another one as long as there are lines.
fn is_lasting(said: &Statement) -> bool
    ensures { result ≡ is_lasting said.now }
{
    match said {
        Statement::HandOver => true,
        Statement::HostSignal { .. } => true,
        Statement::SetEvent { .. } => true,
        Statement::SignalTimeline { .. } => true,
        _ => false,
    }
}

/// Whether a point of a step is before one.
fn is_known(cut: u64, y: &Clocked, x: &Touch, stage: Option<Stage>) -> bool
    ensures { result ≡
        is_known cut (clocking_of y.now) x.now.at (record { step = x.now.step; stage = stage }) }
{
    x.step.line < cut
        || by_scopes(&x.step, stage, y.step, y.stage)
        || knows_given(y.clock, x.step.line, x.at, &x.step, stage)
}

/// Whether an access of a command is before a point, at those of some stages that are in a set.
fn are_known(cut: u64, y: &Clocked, x: &Touch, mask: &StageMask, stages: &[Stage]) -> bool
    ensures { result ≡
        list_all (is_known cut (clocking_of y.now) x.now.at) (points_in x.now.step mask.now stages.now) }
{
    for stage in stages {
        if has_stage(mask, *stage) && !is_known(cut, y, x, Some(*stage)) {
            return false;
        }
    }
    true
}

/// Whether each point of a step is before one.
fn all_known(cut: u64, x: &Touch, y: &Clocked) -> bool
    ensures { result ≡ all_known cut x.now (clocking_of y.now) }
{
    match x.step.statement {
        Statement::CommandAccess { access: _, scope } => {
            are_known(cut, y, x, &scope.stages, &WORD_STAGES)
        }
        _ => is_known(cut, y, x, None),
    }
}

/// Whether each point of a step is before each of some.
pub fn known_to_all(cut: u64, x: &Touch, points: &[Clocked]) -> bool
    ensures { result ≡ list_all (all_known cut x.now) (map clocking_of points.now) }
{
    for point in points {
        if !all_known(cut, x, point) {
            return false;
        }
    }
    true
}

/// Whether a step conflicts with one, and some point of it isn't before one of the points of that.
pub fn is_loose(cut: u64, points: &[Clocked], b: &Step, a: &Touch) -> bool
    ensures { result ≡ is_loose cut (map clocking_of points.now) b.now a.now }
{
    conflict(&a.step, b) && !known_to_all(cut, a, points)
}

/// The last line of some that is loose.
#[tactic(auto, using(crate::proofs::Lists::loose_here, crate::proofs::Lists::loose_above))]
pub fn last_loose(cut: u64, points: &[Clocked], b: &Step, touched: &[Touch]) -> Option<u64>
    ensures { result ≡ last_loose cut (map clocking_of points.now) b.now touched.now }
{
    let mut left = touched.len();
    while 0 < left {
        left -= 1;
        if is_loose(cut, points, b, &touched[left]) {
            return Some(touched[left].step.line);
        }
    }
    None
}

/// What was brought to a stage of a queue.
fn brought_to(
    cells: &BTreeMap<usize, SiteCells>,
    first: usize,
    stage: Stage,
) -> Result<&[Block], AllocError>
    ensures { IfOk result (λ lines. says lines.now ≡ cells_of cells.now (first + stage_number stage)) }
{
    let lane = stage_lane(first, stage)?;
    Ok(brought(cells, lane))
}

/// The points of an access of a command at those of some stages that are in a set, with their clocks.
fn clocked_in<'a>(
    alloc: Global,
    cells: &'a BTreeMap<usize, SiteCells>,
    first: usize,
    step: &'a Step,
    mask: &StageMask,
    stages: &[Stage],
) -> Result<Vec<Clocked<'a>>, AllocError>
    ensures { IfOk result (λ points. map clocking_of points.items ≡
        clocked_in (cells_of cells.now) first step.now mask.now stages.now) }
{
    let mut points = Vec::new(alloc);
    for stage in stages {
        if has_stage(mask, *stage) {
            points.push(Clocked {
                step,
                stage: Some(*stage),
                clock: brought_to(cells, first, *stage)?,
            })?;
        }
    }
    Ok(points)
}

fn one_point<'a>(
    alloc: Global,
    step: &'a Step,
    clock: &'a [Block],
) -> Result<Vec<Clocked<'a>>, AllocError>
    ensures { IfOk result (λ points. map clocking_of points.items ≡
        record { point = whole step.now; clock = says clock.now } ∷ []) }
{
    let point = Clocked {
        step,
        stage: None,
        clock,
    };
    Ok(vec![in alloc; point]?)
}

/// Takes what the clocks of the lines say that release one.
fn take_released(
    lines: &[KeptLines],
    signals: &[SignalLine],
    clock: &mut Vec<Block>,
    b: &Told,
) -> Result<(), AllocError>
    ensures { OnOk result (says clock.new.items ≡
        take_released (kept_of lines.now) (signals_of signals.now) (says clock.old.items) b.now.step.statement
        b.now.released) }
{
    if waits_for_signal(&b.as_step().statement) {
        take_signals(signals, clock, b.released())
    } else {
        take_lines(lines, clock, b.released())
    }
}

/// The clock of a step that isn't an access of a command.
fn clock_of(
    alloc: Global,
    cells: &BTreeMap<usize, SiteCells>,
    lines: &[KeptLines],
    signals: &[SignalLine],
    at: StepLanes,
    b: &Told,
) -> Result<Vec<Block>, AllocError>
    requires { at.queue % 15 ≡ 0 }
    ensures { IfOk result (λ clock. says clock.items ≡
        clock_of (cells_of cells.now) (kept_of lines.now) (signals_of signals.now) at b.now) }
{
    let step = b.as_step();
    let mut clock = Vec::new(alloc);
    take_taken(cells, &mut clock, at, step)?;
    take_released(lines, signals, &mut clock, b)?;
    take_handed(lines, &mut clock, &step.statement)?;
    Ok(clock)
}

/// The clock of a step, unless it is an access of a command, whose points have clocks of their own.
fn clock_if_whole(
    alloc: Global,
    cells: &BTreeMap<usize, SiteCells>,
    lines: &[KeptLines],
    signals: &[SignalLine],
    at: StepLanes,
    b: &Told,
) -> Result<Vec<Block>, AllocError>
    requires { at.queue % 15 ≡ 0 }
    ensures { IfOk result (λ clock. is_command_access b.now.step.statement ≡ false →
        says clock.items ≡ clock_of (cells_of cells.now) (kept_of lines.now) (signals_of signals.now) at b.now) }
{
    if is_command_access(&b.as_step().statement) {
        return Ok(Vec::new(alloc));
    }
    clock_of(alloc, cells, lines, signals, at, b)
}

/// The points of a step with their clocks, of which this is the one of a step that isn't an access of a command.
fn clocked_points<'a>(
    alloc: Global,
    cells: &'a BTreeMap<usize, SiteCells>,
    at: StepLanes,
    step: &'a Step,
    clock: &'a [Block],
) -> Result<Vec<Clocked<'a>>, AllocError>
    ensures { IfOk result (λ points. map clocking_of points.items ≡
        points_by (cells_of cells.now) at.queue step.now (says clock.now) step.now.statement) }
{
    match step.statement {
        Statement::CommandAccess { access: _, scope } => {
            clocked_in(alloc, cells, at.queue, step, &scope.stages, &WORD_STAGES)
        }
        _ => one_point(alloc, step, clock),
    }
}

/// The last line that races with a step, which has a clock if it isn't an access of a command.
fn race_by(
    alloc: Global,
    watch: &Watch,
    at: StepLanes,
    step: &Step,
    clock: &[Block],
) -> Result<Option<u64>, AllocError>
    ensures { IfOk result (λ line. line ≡
        last_loose watch.now.cut
        (points_by (cells_of watch.now.cells) at.queue step.now (says clock.now) step.now.statement) step.now
        (touched_by (touched_at watch.now.things) (access_of step.now.statement))) }
{
    let Some(thing) = thing_of(&watch.things, &step.statement) else {
        return Ok(None);
    };
    let points = clocked_points(alloc, &watch.cells, at, step, clock)?;
    last_in(alloc, watch.cut, &points, step, thing)
}

/// Brings a step's clock to the lanes that it gives.
fn add_cells(
    alloc: Global,
    cells: &mut BTreeMap<usize, SiteCells>,
    at: StepLanes,
    step: &Step,
    clock: &[Block],
) -> Result<(), AllocError>
    requires { at.queue % 15 ≡ 0 }
    ensures { OnOk result (cells_of cells.new ≡
        cells_with (cells_of cells.old) at step.now (says clock.now)) }
{
    if is_command_access(&step.statement) {
        return Ok(());
    }
    give_given(alloc, cells, at, step, clock)
}

/// Forgets the signals that a step ends, and keeps its clock, if it signals until the next wait or signal.
fn add_signals(
    alloc: Global,
    signals: &mut Vec<SignalLine>,
    step: &Step,
    clock: &[Block],
) -> Result<(), AllocError>
    ensures { OnOk result (signals_of signals.new.items ≡
        signals_with (signals_of signals.old.items) step.now (says clock.now)) }
{
    forget_ended(&step.statement, signals);
    add_signal(alloc, signals, signal_of(&step.statement), step.line, clock)
}

/// Keeps a step's clock, if it may release a line as long as there are lines.
fn add_line(
    alloc: Global,
    lines: &mut Vec<KeptLines>,
    step: &Step,
    clock: &[Block],
) -> Result<(), AllocError>
    ensures { OnOk result (kept_of lines.new.items ≡ lines_with (kept_of lines.old.items) step.now (says clock.now)) }
{
    if is_lasting(&step.statement) {
        keep(alloc, lines, step.line, clock)
    } else {
        Ok(())
    }
}

/// Forgets the accesses of a resource, if a line says that it is gone.
fn forget_gone(things: &mut BTreeMap<u64, TouchedThing>, said: &Statement)
    ensures { touched_at things.new ≡ without_gone (touched_at things.old) said.now }
{
    if let Statement::Forget { declared } = said {
        things.remove(declared);
    }
}

/// Adds a step's access, if it has one, and forgets those of a resource that it says is gone.
fn add_touch(
    alloc: Global,
    things: &mut BTreeMap<u64, TouchedThing>,
    at: StepLanes,
    step: &Step,
) -> Result<(), AllocError>
    ensures { OnOk result (touched_at things.new ≡
        touched_with (touched_at things.old) (record { step = step.now; at = at }) (access_of step.now.statement)) }
{
    match access_of(&step.statement) {
        Some(access) => {
            add_to(alloc, things, access.resource, Touch { step: *step, at })?;
            Ok(())
        }
        None => {
            forget_gone(things, &step.statement);
            Ok(())
        }
    }
}

/// The line of the last cut, behind a step.
fn cut_with(cut: u64, step: &Step) -> u64
    ensures { result ≡ cut_with cut step.now }
{
    if is_cut(&step.statement) {
        step.line
    } else {
        cut
    }
}

/// One pass down the lines of a capture. It keeps a clock for each lane and for each line that may release another one,
/// and the accesses of each resource. What was brought to queues and threads that are gone is left out.
#[derive(Drop)]
pub struct Watch {
    alloc: Global,
    sites: NumberedSites,
    cut: u64,
    cells: BTreeMap<usize, SiteCells>,
    lines: Vec<KeptLines>,
    signals: Vec<SignalLine>,
    things: BTreeMap<u64, TouchedThing>,
    gone: Vec<GoneLanes>,
    /// How many blocks clocks may get, at most, until they are counted again.
    room: usize,
    /// With how many they are gone over.
    most: usize,
}

impl Watch {
    ghost use Rattle.vq_capture_check.specs.Alike.{AreAlike};
    ghost use Rattle.vq_capture_check.specs.GoneSites.{IsOpen, gone_with};
    ghost use Rattle.vq_capture_check.specs.Sites.{lanes_of};
    ghost use Rattle.vq_capture_check.specs.Watching.{nothing_watched, race_line, watch_with};
    ghost use Rattle.vq_capture_check.specs.Watches.{added, gone_in, watched_of};

    /// A watch that saw no steps.
    pub fn new(alloc: Global) -> Watch
        ensures { watched_of result ≡ nothing_watched }
    {
        Watch {
            alloc,
            sites: NumberedSites::new(alloc),
            cut: 0,
            cells: BTreeMap::new(alloc),
            lines: Vec::new(alloc),
            signals: Vec::new(alloc),
            things: BTreeMap::new(alloc),
            gone: Vec::new(alloc),
            room: FEW,
            most: FEW,
        }
    }

    /// Adds a step, which has a clock if it isn't an access of a command, and whose sites are there.
    fn add(&mut self, at: StepLanes, step: &Step, clock: &[Block]) -> Result<(), AllocError>
        requires { at.queue % 15 ≡ 0 }
        ensures added { OnOk result
            (watched_of self.new ≡ added (watched_of self.old) at step.now (says clock.now)) }
        ensures gone { OnOk result (gone_in self.new ≡ gone_in self.old) }
    {
        add_cells(self.alloc, &mut self.cells, at, step, clock)?;
        add_line(self.alloc, &mut self.lines, step, clock)?;
        add_signals(self.alloc, &mut self.signals, step, clock)?;
        add_touch(self.alloc, &mut self.things, at, step)?;
        self.cut = cut_with(self.cut, step);
        self.room = self.room.saturating_sub(clock.len()).saturating_sub(1);
        Ok(())
    }

    /// The greatest line that races with the next step, if there is one; if there is none, the step is added, and what it
    /// forgets is gone. The error is want of memory, or that the step is of a queue or a thread that is gone. After a race
    /// and after an `Err` nothing is said of the watch.
    pub fn take(&mut self, b: &Told) -> Result<Option<u64>, AllocError>
        ensures race { IfOk result (λ line. line ≡ race_line (watched_of self.old) b.now) }
        ensures next { IfOk result (λ line. line ≡ None →
            watched_of self.new ≡ watch_with (watched_of self.old) b.now) }
        ensures open { OnOk result
            (IsOpen (gone_in self.old) (lanes_of (watched_of self.old).sites b.now.step) b.now.step) }
        ensures gone { IfOk result (λ line. line ≡ None → (k : ℕ) → gone_in self.new k ≡
            gone_with (watched_of self.new).sites (gone_in self.old) b.now.step.statement k) }
    {
        let step = b.as_step();
        let at = lanes_of(&mut self.sites, step)?;
        if !is_open(&self.gone, at, step) {
            return Err(AllocError);
        }
        let clock = clock_if_whole(self.alloc, &self.cells, &self.lines, &self.signals, at, b)?;
        if let Some(first) = race_by(self.alloc, self, at, step, &clock)? {
            return Ok(Some(first));
        }
        self.add(at, step, &clock)?;
        forget_sites(&self.sites, &mut self.gone, &step.statement)?;
        Ok(None)
    }

    /// Leaves out what no line from a number on asks for, and says how many accesses are kept. After an `Err`, which is
    /// want of memory, nothing is said of the watch.
    fn prune(&mut self, next: u64) -> Result<usize, AllocError>
        ensures alike { OnOk result (AreAlike next (gone_in self.old) (watched_of self.old) (watched_of self.new)) }
        ensures gone { OnOk result (gone_in self.new ≡ gone_in self.old) }
    {
        let asked = asked(self.alloc, &self.things, next)?;
        clear_cells(self.alloc, &mut self.cells, &self.gone, &asked.least)?;
        clear_signals(&mut self.signals, &asked.least);
        let lines = std::mem::replace(&mut self.lines, Vec::new(self.alloc));
        let touched = touched_lines(self.alloc, &self.things)?;
        self.lines = pruned(self.alloc, lines, &asked.least, &touched, next)?;
        Ok(asked.touches)
    }

    /// How many blocks the clocks of lanes and of lines have, and one for each number and line.
    fn blocks(&self) -> usize {
        blocks_of(&self.cells).saturating_add(blocks_in(&self.lines))
    }

    /// Leaves out what no line from a number on asks for, once clocks have as many blocks anew as they had, and as many
    /// as accesses are kept. They are counted once steps brought as many as there are. After an `Err`, which is want of
    /// memory, nothing is said of the watch.
    pub fn prune_if_due(&mut self, next: u64) -> Result<(), AllocError>
        ensures alike { OnOk result (AreAlike next (gone_in self.old) (watched_of self.old) (watched_of self.new)) }
        ensures gone { OnOk result (gone_in self.new ≡ gone_in self.old) }
    {
        if 0 < self.room {
            return Ok(());
        }
        let blocks = self.blocks();
        if blocks < self.most {
            self.room = blocks.saturating_add(FEW);
            return Ok(());
        }
        let touches = self.prune(next)?;
        let left = self.blocks();
        self.room = left.saturating_add(FEW);
        self.most = left
            .saturating_mul(2)
            .saturating_add(touches)
            .saturating_add(FEW);
        Ok(())
    }
}
