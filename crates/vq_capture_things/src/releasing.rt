//! What releases a wait, and what declarations say.
ghost use Rattle.std.specs.Prelude.{◌≡◌, [], IfOk, if◌then◌else◌, reverse};
ghost use Rattle.std.specs.Option.{option_to_list};
ghost use Rattle.vq_capture.specs.Releases.{binary_releases, event_releases, fence_releases, initial_of};
ghost use Rattle.vq_capture.specs.Releases.{is_above_initial, is_waiting, length_of, releases, value_releases};
ghost use Rattle.vq_capture_things.specs.Lookups.{items_at};
ghost use Rattle.vq_capture_things.specs.Steps.{steps_of};

use crate::maps::{number, pair_number};
use crate::rises::rise_of;
use crate::things::Things;
use std::alloc::{AllocError, Global};
use std::collections::BTreeMap;
use vq_capture::statement::Statement;

fn list_of(alloc: Global, line: Option<u64>) -> Result<Vec<u64>, AllocError>
    ensures { IfOk result (λ lines. lines.items ≡ option_to_list line) }
{
    match line {
        Some(line) => Ok(vec![in alloc; line]?),
        None => Ok(Vec::new(alloc)),
    }
}

/// The list of a thing from its end.
fn reversed(alloc: Global, map: &BTreeMap<u64, Vec<u64>>, key: u64) -> Result<Vec<u64>, AllocError>
    ensures { IfOk result (λ lines. lines.items ≡ reverse (items_at map.now key)) }
{
    match map.get(&key) {
        Some(items) => {
            let mut lines = Vec::from_slice(alloc, items)?;
            lines.as_mut_slice().reverse();
            Ok(lines)
        }
        None => Ok(Vec::new(alloc)),
    }
}

impl Things {
    /// How many units the resource has that was declared at a line.
    pub fn length_of(&self, resource: u64) -> u64
        ensures { result ≡ length_of (steps_of self.now) resource }
    {
        number(&self.kept.lengths, resource).unwrap_or(0)
    }

    /// The initial value of the timeline that was declared at a line.
    fn initial_of(&self, timeline: u64) -> u64
        ensures { result ≡ initial_of (steps_of self.now) timeline }
    {
        number(&self.kept.initials, timeline).unwrap_or(0)
    }

    /// Whether a timeline's value is above its initial one.
    fn is_above_initial(&self, timeline: u64, value: u64) -> bool
        ensures { result ≡ is_above_initial (steps_of self.now) timeline value }
    {
        self.initial_of(timeline) < value
    }

    /// The first line that signals a timeline with at least a value.
    fn rise_of(&self, timeline: u64, value: u64) -> Option<u64>
        ensures { option_to_list result ≡ value_releases (steps_of self.now) timeline value }
    {
        rise_of(&self.kept.rises, timeline, value)
    }

    /// The first line that signals a timeline with at least a value, as a list.
    fn value_releases(
        &self,
        alloc: Global,
        timeline: u64,
        value: u64,
    ) -> Result<Vec<u64>, AllocError>
        ensures { IfOk result (λ lines. lines.items ≡ value_releases (steps_of self.now) timeline value) }
    {
        list_of(alloc, self.rise_of(timeline, value))
    }

    /// The first line that signals a timeline with at least a value above its initial one.
    fn signaled(&self, alloc: Global, timeline: u64, value: u64) -> Result<Vec<u64>, AllocError>
        ensures { IfOk result (λ lines. lines.items ≡ (if is_above_initial (steps_of self.now) timeline value
            then value_releases (steps_of self.now) timeline value else [])) }
    {
        if self.is_above_initial(timeline, value) {
            self.value_releases(alloc, timeline, value)
        } else {
            Ok(Vec::new(alloc))
        }
    }

    /// The lines that signal a binary semaphore, behind the last that waits for it, the last line first.
    fn binary_releases(&self, alloc: Global, semaphore: u64) -> Result<Vec<u64>, AllocError>
        ensures { IfOk result (λ lines. lines.items ≡ binary_releases (steps_of self.now) semaphore) }
    {
        reversed(alloc, &self.kept.signals, semaphore)
    }

    /// The last line that signals a fence.
    fn fence_releases(&self, alloc: Global, fence: u64) -> Result<Vec<u64>, AllocError>
        ensures { IfOk result (λ lines. lines.items ≡ fence_releases (steps_of self.now) fence) }
    {
        list_of(alloc, number(&self.kept.fences, fence))
    }

    /// The last line that sets an event on a queue.
    fn event_releases(
        &self,
        alloc: Global,
        event: u64,
        queue: Option<u64>,
    ) -> Result<Vec<u64>, AllocError>
        ensures { IfOk result (λ lines. lines.items ≡ event_releases (steps_of self.now) event queue) }
    {
        match queue {
            Some(queue) => list_of(alloc, pair_number(&self.kept.events, event, queue)),
            None => Ok(Vec::new(alloc)),
        }
    }

    /// The lines above a line of a queue that release what it says. The error is want of memory.
    pub fn releases(
        &self,
        alloc: Global,
        queue: Option<u64>,
        said: Statement,
    ) -> Result<Vec<u64>, AllocError>
        ensures { IfOk result (λ lines. lines.items ≡ releases (steps_of self.now) queue said) }
    {
        match said {
            Statement::WaitTimeline {
                timeline,
                value,
                scope: _,
            } => self.signaled(alloc, timeline, value),
            Statement::SawValue { timeline, value } => self.signaled(alloc, timeline, value),
            Statement::WaitBinary {
                semaphore,
                scope: _,
            } => self.binary_releases(alloc, semaphore),
            Statement::SawFence { fence } => self.fence_releases(alloc, fence),
            Statement::AwaitEvent { event, scope: _ } => self.event_releases(alloc, event, queue),
            _ => Ok(Vec::new(alloc)),
        }
    }

    /// Whether a line waits for what has to be released.
    pub fn is_waiting(&self, said: Statement) -> bool
        ensures { result ≡ is_waiting (steps_of self.now) said }
    {
        match said {
            Statement::WaitTimeline {
                timeline,
                value,
                scope: _,
            } => self.is_above_initial(timeline, value),
            Statement::SawValue { timeline, value } => self.is_above_initial(timeline, value),
            Statement::WaitBinary { .. } => true,
            Statement::SawFence { .. } => true,
            Statement::AwaitEvent { .. } => true,
            _ => false,
        }
    }
}
