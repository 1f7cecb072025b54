//! What is kept of each thing that was declared.
ghost use Rattle.std.specs.Prelude.{◌≡◌, [], OnErr, OnOk};

use crate::maps::{empty, push, put, put_pair};
use crate::rise::Rise;
use crate::rises::raise;
use std::alloc::{AllocError, Global};
use std::collections::BTreeMap;
use vq_capture::capture::Step;
use vq_capture::statement::Statement;

/// What is kept of each thing, by the line of its declaration: initial values, lengths, the signals that raised
/// timelines, those of binary semaphores behind their last waits, the last signals of fences, and the last lines that
/// set events, by event and queue.
#[derive(Drop)]
pub struct Kept {
    pub initials: BTreeMap<u64, u64>,
    pub lengths: BTreeMap<u64, u64>,
    pub rises: BTreeMap<u64, Vec<Rise>>,
    pub signals: BTreeMap<u64, Vec<u64>>,
    pub fences: BTreeMap<u64, u64>,
    pub events: BTreeMap<(u64, u64), u64>,
}

impl Kept {
    ghost use Rattle.vq_capture_things.specs.Keeping.{AreKept, Keeps, Notes, Sets};

    /// What is kept of no steps.
    pub fn new(alloc: Global) -> Kept
        ensures { AreKept result [] }
    {
        Kept {
            initials: BTreeMap::new(alloc),
            lengths: BTreeMap::new(alloc),
            rises: BTreeMap::new(alloc),
            signals: BTreeMap::new(alloc),
            fences: BTreeMap::new(alloc),
            events: BTreeMap::new(alloc),
        }
    }

    /// Keeps what a step says, whose line no step above has.
    pub fn note(&mut self, alloc: Global, step: Step) -> Result<(), AllocError>
        ensures noted { OnOk result (Notes self.old self.new step) }
        ensures err { OnErr result (Keeps self.old self.new) }
    {
        let line = step.line;
        match step.statement {
            Statement::DeclareTimeline { initial } => put(&mut self.initials, line, initial),
            Statement::DeclareResource { length } => put(&mut self.lengths, line, length),
            Statement::HostSignal { timeline, value } => {
                raise(alloc, &mut self.rises, timeline, Rise { value, line })
            }
            Statement::SignalTimeline {
                timeline,
                value,
                scope: _,
            } => raise(alloc, &mut self.rises, timeline, Rise { value, line }),
            Statement::SignalBinary {
                semaphore,
                scope: _,
            } => push(alloc, &mut self.signals, semaphore, line),
            Statement::WaitBinary {
                semaphore,
                scope: _,
            } => {
                empty(&mut self.signals, semaphore);
                Ok(())
            }
            Statement::SignalFence { fence } => put(&mut self.fences, fence, line),
            Statement::SetEvent { event, scope: _ } => self.set(step, event),
            _ => Ok(()),
        }
    }

    /// Keeps that a step sets an event.
    fn set(&mut self, step: Step, event: u64) -> Result<(), AllocError>
        ensures noted { OnOk result (Sets step event → Notes self.old self.new step) }
        ensures err { OnErr result (Keeps self.old self.new) }
    {
        match step.queue {
            Some(queue) => put_pair(&mut self.events, event, queue, step.line),
            None => Ok(()),
        }
    }
}
