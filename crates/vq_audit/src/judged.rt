//! The verdict on a trace.
//!
//! Source: this project's own, where an item names no other.
ghost use Rattle.std.specs.Prelude.{◌≡◌, IfOk};
ghost use Rattle.vq_audit.specs.Audits.{IfLawful, KeepLaws, WasRead};
ghost use Rattle.vq_audit.specs.Verdicts.{IsVerdict, made_events};

use crate::comparison::first_difference;
use crate::ending::{says_left, text_behind};
use crate::playing::play;
use crate::verdict::Verdict;
use std::alloc::{AllocError, Global};
use vq_core::Core;
use vq_given::given::GivenTrace;
use vq_order::Ordered;

/// The verdict on the lines from the end of a trace on, over a core with the events of the trace.
fn judge_end(alloc: Global, core: &Core, given: &GivenTrace) -> Result<Verdict, AllocError>
    requires played { core.now.history ≡ made_events given.now.events }
    requires read { WasRead core.now.plan given.now }
    ensures verdict { IfOk result (IsVerdict core.now.plan given.now) }
    ensures laws { KeepLaws core.now.plan (made_events given.now.events) }
{
    let _history = core.history();
    if !says_left(given, core.left()) {
        return Ok(Verdict::Broken {
            line: given.end_line,
        });
    }
    let text = text_behind(alloc, core)?;
    match first_difference(text.as_slice(), given.rest.as_slice(), given.end_line) {
        Some(line) => Ok(Verdict::Broken { line }),
        None => Ok(Verdict::Lawful),
    }
}

/// The verdict on a trace that was read for a plan. It is broken at the line of the first event that may not come in
/// the state that the events before it leave; or at its end, where that doesn't say how many jobs are left; or at the
/// first line behind that which isn't the one of the answers and the buffers there, or is missing, or follows though
/// jobs are left. Else it is lawful. The events of a lawful trace are a run of the plan, without those that show
/// nothing of the machine, and keep the point law and the pending law. The error is want of memory.
pub fn audit(alloc: Global, ordered: Ordered, given: &GivenTrace) -> Result<Verdict, AllocError>
    requires { WasRead ordered given.now }
    ensures verdict { IfOk result (IsVerdict ordered given.now) }
    ensures laws { IfOk result (λ verdict. IfLawful verdict (KeepLaws ordered (made_events given.now.events))) }
{
    let mut core = Core::new(alloc, ordered)?;
    match play(&mut core, given.events.as_slice()) {
        Some(line) => Ok(Verdict::Broken { line }),
        None => judge_end(alloc, &core, given),
    }
}
