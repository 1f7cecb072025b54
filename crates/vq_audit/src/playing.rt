//! The events of a trace, played over a core.
ghost use Rattle.std.specs.Prelude.{◌≡◌, [], MatchOption};
ghost use Rattle.vq_audit.specs.Audits.{IsWrongLine};
ghost use Rattle.vq_audit.specs.Verdicts.{made_events};

use vq_core::Core;
use vq_given::given::GivenEvent;

/// Plays events over a new core, up to the first that may not come. The answer is the line of that one, and none where
/// each may come. It takes no memory.
pub(crate) fn play(core: &mut Core, events: &[GivenEvent]) -> Option<u32>
    requires { core.old.history ≡ [] }
    ensures plan { core.new.plan ≡ core.old.plan }
    ensures played { MatchOption result (core.new.history ≡ made_events events.now)
        (IsWrongLine core.old.plan events.now) }
{
    for given in events {
        if !core.can(&given.event) {
            let _course = core.ordered();
            return Some(given.line);
        }
        core.apply(given.event);
    }
    None
}
