//! The accesses of each resource, but those for which a later one stands.
ghost use Rattle.std.specs.Prelude.{◌≡◌, ◌++◌, ◌&&◌, [], ℕ, IfOk, OnOk, filter, not, false, true};
ghost use Rattle.std.specs.Option.{MatchOption};
ghost use Rattle.vq_capture.specs.Races.{access_of, same_command};
ghost use Rattle.vq_capture_touched.specs.Standing.{stands_for};
ghost use Rattle.vq_capture_touched.specs.Indexed.{touches_of};
ghost use Rattle.vq_capture_check.specs.Watching.{goes_on, is_stood_for, one_command};

use std::alloc::{AllocError, Global};
use std::collections::BTreeMap;
use vq_capture::capture::Step;
use vq_capture::statement::Statement;
use vq_capture_touched::conflicts::{access_of, same_command};
use vq_capture_touched::index::TouchIndex;
use vq_capture_touched::standing::stands_for;
use vq_capture_touched::touch::Touch;

/// How many accesses stand behind those in the index, at most.
const RECENT: usize = 16;

/// The accesses of a resource: those of the last command that accesses it, and those above, of which most are in an
/// index, once there are many.
#[derive(Drop)]
pub struct TouchedThing {
    pub index: TouchIndex,
    pub recent: Vec<Touch>,
    pub newest: Vec<Touch>,
    ghost one: { one_command newest.items ≡ true },
}

/// Whether an access of another command than a step stands for one above it.
fn stands_before(step: &Step, w: &Touch, a: &Touch) -> bool
    ensures { result ≡
        (not (same_command w.now.step.command step.now.command) && stands_for w.now.step a.now.step) }
{
    !same_command(w.step.command, step.command) && stands_for(&w.step, &a.step)
}

/// Whether one of some, of another command than a step, stands for one.
fn is_stood_for(step: &Step, newest: &[Touch], a: &Touch) -> bool
    ensures { result ≡ is_stood_for step.now newest.now a.now }
{
    for w in newest {
        if stands_before(step, w, a) {
            return true;
        }
    }
    false
}

/// Whether a step goes on with the command of some, which are of one: so their first one tells.
pub fn goes_on(step: &Step, newest: &[Touch]) -> bool
    requires { one_command newest.now ≡ true }
    ensures { result ≡ goes_on step.now newest.now }
{
    match newest.first() {
        Some(w) => same_command(w.step.command, step.command),
        None => false,
    }
}

/// Forgets the accesses for which some of the newest stand, before a step.
fn forget(step: &Step, newest: &[Touch], older: &mut Vec<Touch>)
    ensures { older.new.items ≡ filter (λ t. not (is_stood_for step.now newest.now t)) older.old.items }
{
    older.retain(|touch| !is_stood_for(step, newest, touch));
}

/// Forgets the same in an index. None of the newest is of the command of the step.
fn forget_indexed(
    alloc: Global,
    step: &Step,
    newest: &[Touch],
    index: &mut TouchIndex,
) -> Result<(), AllocError>
    requires { goes_on step.now newest.now ≡ false }
    ensures { OnOk result (touches_of index.new ≡
        filter (λ t. not (is_stood_for step.now newest.now t)) (touches_of index.old)) }
{
    if index.is_empty() {
        return Ok(());
    }
    let _step = step;
    for w in newest {
        index.forget(alloc, &w.step)?;
    }
    Ok(())
}

/// Puts accesses behind others.
fn append(older: &mut Vec<Touch>, newest: &[Touch]) -> Result<(), AllocError>
    ensures { OnOk result (older.new.items ≡ older.old.items ++ newest.now) }
{
    for touch in newest {
        older.push(*touch)?;
    }
    Ok(())
}

/// Puts accesses behind those of an index.
fn append_indexed(alloc: Global, index: &mut TouchIndex, recent: &[Touch]) -> Result<(), AllocError>
    ensures { OnOk result (touches_of index.new ≡ touches_of index.old ++ recent.now) }
{
    for touch in recent {
        index.add(alloc, touch)?;
    }
    Ok(())
}

/// Puts the recent accesses into the index, if they are many.
fn settle(alloc: Global, index: &mut TouchIndex, recent: &mut Vec<Touch>) -> Result<(), AllocError>
    ensures { OnOk result (touches_of index.new ++ recent.new.items ≡ touches_of index.old ++ recent.old.items) }
{
    if recent.len() <= RECENT {
        return Ok(());
    }
    append_indexed(alloc, index, recent)?;
    recent.clear();
    Ok(())
}

impl TouchedThing {
    ghost use Rattle.vq_capture_check.specs.Watching.{none_touched, with_touch};
    ghost use Rattle.vq_capture_check.specs.Watches.{parts_of};

    /// Adds an access of another command than the newest.
    fn begin(&mut self, alloc: Global, touch: Touch) -> Result<(), AllocError>
        requires { goes_on touch.step self.old.newest.items ≡ false }
        ensures { OnOk result (parts_of self.new ≡ with_touch touch (parts_of self.old)) }
    {
        forget_indexed(alloc, &touch.step, &self.newest, &mut self.index)?;
        forget(&touch.step, &self.newest, &mut self.recent);
        append(&mut self.recent, &self.newest)?;
        settle(alloc, &mut self.index, &mut self.recent)?;
        self.newest.clear();
        self.newest.push(touch)?;
        Ok(())
    }

    /// Adds an access. The error is want of memory.
    pub fn grow(&mut self, alloc: Global, touch: Touch) -> Result<(), AllocError>
        ensures { OnOk result (parts_of self.new ≡ with_touch touch (parts_of self.old)) }
    {
        if goes_on(&touch.step, &self.newest) {
            self.newest.push(touch)?;
            return Ok(());
        }
        self.begin(alloc, touch)
    }

    /// The accesses of a resource of which there is one.
    pub fn first(alloc: Global, touch: Touch) -> Result<TouchedThing, AllocError>
        ensures { IfOk result (λ thing. parts_of thing ≡ with_touch touch none_touched) }
    {
        Ok(TouchedThing {
            index: TouchIndex::new(alloc),
            recent: Vec::new(alloc),
            newest: vec![in alloc; touch]?,
        })
    }
}
