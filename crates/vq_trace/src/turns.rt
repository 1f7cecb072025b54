//! The turns that were read so far.
ghost use Rattle.std.specs.Prelude.{◌≡◌, ◌++◌, OnOk, None};
ghost use Rattle.vq_given.specs.Reading.{event_at, follows, no_turns, with_turn};
ghost use Rattle.vq_trace.specs.TurnSteps.{Takes, turns_read};

use std::alloc::{AllocError, Global};
use vq_given::given::{GivenEvent, TraceEnd, TraceFault, TraceLine, TraceTurn};

/// The number of the last turn, and the events of all turns.
#[derive(Drop)]
pub(crate) struct Turns {
    pub(crate) last: Option<u64>,
    pub(crate) events: Vec<GivenEvent>,
}

/// Whether a turn's number is above that of the turn before.
fn follows(last: Option<u64>, number: u64) -> bool
    ensures { result ≡ follows last number }
{
    match last {
        Some(before) => before < number,
        None => true,
    }
}

/// Adds the event of a turn, if it made one.
fn push_event(events: &mut Vec<GivenEvent>, line: u32, turn: TraceTurn) -> Result<(), AllocError>
    ensures { OnOk result (events.new.items ≡ events.old.items ++ event_at line turn) }
{
    let Some(event) = turn.event else {
        return Ok(());
    };
    events.push(GivenEvent {
        line,
        actor: turn.actor,
        event,
    })?;
    Ok(())
}

impl Turns {
    /// No turns.
    pub(crate) fn new(alloc: Global) -> Turns
        ensures { turns_read result ≡ no_turns }
    {
        Turns {
            last: None,
            events: Vec::new(alloc),
        }
    }

    /// Adds a turn.
    fn add(&mut self, line: u32, turn: TraceTurn) -> Result<(), AllocError>
        ensures { OnOk result (turns_read self.new ≡ with_turn (turns_read self.old) line turn) }
    {
        push_event(&mut self.events, line, turn)?;
        self.last = Some(turn.number);
        Ok(())
    }

    /// Takes what a line says: a turn more, or the end of the turns.
    pub(crate) fn take(
        &mut self,
        line: u32,
        said: TraceLine,
    ) -> Result<Option<TraceEnd>, TraceFault>
        ensures { Takes (turns_read self.old) line said result (turns_read self.new) }
    {
        match said {
            TraceLine::Blank => Ok(None),
            TraceLine::Turn(turn) => {
                if !follows(self.last, turn.number) {
                    return Err(TraceFault::At { line });
                }
                self.add(line, turn)?;
                Ok(None)
            }
            TraceLine::End(end) => Ok(Some(end)),
            TraceLine::Faulty => Err(TraceFault::At { line }),
        }
    }
}
